// The run through one capture.
use crate::input::{Input, MAX_LINE};
use crate::section;
use crate::session::{Bench, CaptureCounts, Counts, FILL, LineRefusal, STORE, Section};
use capture::line::{Line, opens, read_line};
use capture::text::{front, unmarked};
use report::outcome::{Event, Told, is_past, note};
use std::io;
use std::io::Read;

// The most octets that a line can spell.
const OCTETS: usize = 4096;

// A segment at a reading. Where it comes past the deadline, a bench makes an advance before it.
fn segment(
    rt: &impl Print,
    bench: &mut Bench,
    waits: bool,
    reading: u64,
    octets: &[u8],
) -> io::Result<Event> {
    if waits && is_past(reading, &bench.section.receiver) {
        let event = bench.wait(rt)?;
        bench.told = note(bench.told, event);
    }
    bench.segment(rt, reading, octets)
}

// Does what a line says.
fn act(rt: &impl Print, bench: &mut Bench, waits: bool, line: &[u8]) -> io::Result<()> {
    let mut octets = [0u8; OCTETS];
    let event = match read_line(line, &mut octets) {
        Ok(Line::Nothing) => return Ok(()),
        Ok(Line::Receiver(header)) => bench.open(rt, header)?,
        Ok(Line::Advance(reading)) => bench.advance(rt, reading)?,
        Ok(Line::Cancel(reading)) => bench.cancel(rt, reading)?,
        Ok(Line::Segment(reading, n)) => { segment(rt, bench, waits, reading, front(&octets, n))? }
        Err(fault) => bench.refuse(rt, LineRefusal::Wrong(fault))?,
    };
    bench.told = note(bench.told, event);
    Ok(())
}

// Takes a line of n octets, of which the first stand in line. A section begins with a line whose first word is receiver, whether the line can be
// read or not. Before the first line a mark of byte order may stand.
fn take(rt: &impl Print, bench: &mut Bench, waits: bool, line: &[u8], n: usize) -> io::Result<()> {
    let lines = bench.counts.capture.lines.saturating_add(1);
    bench.counts.capture.lines = lines;
    let text = if lines == 1 { unmarked(line) } else { line };
    if opens(text) {
        section::begin(rt, bench)?;
    }
    if MAX_LINE < n {
        let event = bench.refuse(rt, LineRefusal::TooLong)?;
        bench.told = note(bench.told, event);
        return Ok(());
    }
    act(rt, bench, waits, text)
}

// A capture that cannot be read to its end leaves its last section spoilt.
fn stopped(rt: &(impl Print + Eprint), bench: &mut Bench, e: io::Error) -> io::Result<()> {
    eprintln!(rt; "capture: {e}")?;
    println!(rt; "the capture cannot be read on")?;
    bench.told = note(bench.told, Event::BadLine);
    Ok(())
}

// A capture ends, but nothing says so: the turns are counted up to a number that no capture uses up. `rt.forever()` takes Wait, which HANDLES does
// not allow.
fn all(
    rt: &(impl Print + Eprint),
    bench: &mut Bench,
    waits: bool,
    file: &mut impl Read,
) -> io::Result<()> {
    let mut input = Input::new();
    for _ in 0..u64::MAX {
        match input.next_line(file) {
            Ok(Some(n)) => take(rt, bench, waits, input.line(), n)?,
            Ok(None) => break,
            Err(e) => {
                stopped(rt, bench, e)?;
                break;
            }
        }
    }
    section::finish(rt, bench)
}

// The counts of one capture.
fn say_counts(rt: &impl Print, counts: CaptureCounts) -> io::Result<()> {
    println!(rt;
        "capture: lines {}, calls taken {}, calls refused {}, lines refused {}; sections {}, rebuilt {}",
        counts.lines,
        counts.calls_taken,
        counts.calls_refused,
        counts.lines_refused,
        counts.sections,
        counts.rebuilt
    )
}

// One capture: waits says whether the bench's own advances are made.
pub fn capture(
    rt: &(impl Print + Eprint),
    told: Told,
    waits: bool,
    file: &mut impl Read,
    counts: &mut Counts,
) -> io::Result<Told> {
    let mut bench = Bench {
        told,
        counts: Counts {
            capture: CaptureCounts::default(),
            ..*counts
        },
        section: Section::new(false),
        store: [FILL; STORE],
        output: [FILL; STORE],
    };
    all(rt, &mut bench, waits, file)?;
    say_counts(rt, bench.counts.capture)?;
    *counts = bench.counts;
    Ok(bench.told)
}
