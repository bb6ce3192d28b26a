// A section of a capture: from a line whose first word is receiver up to the next such line, or to the end. It ends with one result, which is
// printed before another can write the output.
ghost use Rattle.std.specs.Prelude.{◌⊎◌, ◌≡◌, ◌&&◌, eqb, OnOk, OnErr};
ghost use Rattle.octets.specs.Octets.{same_octets};
ghost use Rattle.bench.specs.Closing.{close_call, ended_before, zeros, left_to};

use crate::session::{Bench, FILL, STORE, Section, Store, close_receiver};
use capture::text::front;
use codec_c::codes::DONE;
use report::answer::{say_failed_after, say_names, say_standing};
use report::outcome::{Event, end_section, is_rebuilt, note};
use report::row::{ROW, say_row};
use report::say::Counted;
use std::io;

// Octets, a row at a time.
fn dump(rt: &impl Print, s: &[u8]) -> io::Result<()> {
    for (i, row) in s.chunks(ROW).enumerate() {
        say_row(rt, ROW.saturating_mul(i), row)?;
    }
    Ok(())
}

// Names the section.
fn say_name(rt: &impl Print, bench: &Bench) -> io::Result<()> {
    print!(rt; "section {},", bench.counts.capture.sections)?;
    match bench.section.header {
        Some(header) => say_names(rt, header)?,
        None => print!(rt; " peer and transaction unknown")?,
    }
    print!(rt; ": ")
}

// A section whose calls handed nothing over.
fn say_none(rt: &impl Print, section: &Section) -> io::Result<()> {
    print!(rt; "not rebuilt, ")?;
    if section.receiver[0] == 0 {
        return println!(rt; "no record: no receiver was made");
    }
    say_standing(rt, &section.receiver, &section.last_held, section.failure)?;
    println!(rt)
}

// What is beside a record that is not rebuilt.
fn say_spoilt(rt: &impl Print, bench: &Bench, n: u64) -> io::Result<()> {
    print!(rt;
        "not rebuilt, a record of {} was handed over",
        Counted(n, "octet")
    )?;
    let section = &bench.section;
    if bench.told.section.failed {
        say_failed_after(rt, &section.receiver, section.failure)?;
    }
    if bench.told.section.bad_line {
        print!(rt; ", and a line was refused for its form")?;
    }
    Ok(())
}

// A section that handed a record of n octets over, and the record. The calls that were refused spoil no record.
fn say_record(rt: &impl Print, bench: &Bench, n: u64) -> io::Result<()> {
    if is_rebuilt(bench.told.section) {
        print!(rt; "rebuilt, a record of {}", Counted(n, "octet"))?;
    } else {
        say_spoilt(rt, bench, n)?;
    }
    let refused = bench.counts.section_refused;
    if refused != 0 {
        print!(rt; ", {} refused", Counted(refused, "call"))?;
    }
    println!(rt)?;
    dump(rt, front(&bench.output, n as usize))
}

fn say_result(rt: &impl Print, bench: &Bench) -> io::Result<()> {
    say_name(rt, bench)?;
    match bench.told.section.handed {
        None => say_none(rt, &bench.section),
        Some(n) => say_record(rt, bench, n),
    }
}

// Ends the section that there is. What comes before the first receiver line is one where a line of it was refused. Where it cannot be
// printed, nothing changes.
pub fn close(rt: &impl Print, bench: &mut Bench) -> io::Result<()>
    ensures told { OnOk result (bench.new.told ≡ ended_before bench.old.told bench.old.section.opened) }
    ensures kept { OnOk result (bench.new ≡ record bench.old { told = bench.new.told; counts = bench.new.counts }) }
    ensures err { OnErr result (bench.new ≡ bench.old) }
{
    if bench.section.opened {
        say_result(rt, bench)?;
        if is_rebuilt(bench.told.section) {
            let counts = &mut bench.counts;
            counts.capture.rebuilt = counts.capture.rebuilt.saturating_add(1);
            counts.rebuilt = counts.rebuilt.saturating_add(1);
        }
        bench.told = end_section(bench.told);
    } else if bench.told.section.bad_line {
        println!(rt; "not rebuilt, lines were refused before the first receiver line")?;
        bench.told = end_section(bench.told);
    }
    Ok(())
}

// Ends a capture. One that has no section is not rebuilt.
pub fn finish(rt: &impl Print, bench: &mut Bench) -> io::Result<()>
    ensures { bench.new ≡ record bench.old { told = bench.new.told; counts = bench.new.counts } }
{
    if !bench.section.opened && bench.counts.capture.lines_refused == 0 {
        println!(rt; "not rebuilt, there is no receiver line")?;
        bench.told = end_section(bench.told);
        return Ok(());
    }
    close(rt, bench)
}

// Whether a receiver was closed and has left a store that is 0 throughout.
#[tactic(auto, unfolding(crate::specs::Closing::zeros))]
fn is_wiped(code: u32, store: &Store) -> bool
    ensures { result ≡ (eqb code 0 && same_octets store.now zeros) }
{
    let zeros = [0u8; STORE];
    code == DONE && octets::same(store, &zeros)
}

// Closes the receiver of the section that has ended, so that nothing of it is left in the store. This is no line of the capture: only a
// store that is not wiped is said, and counts as a section that is not rebuilt. The store is as closing left it, also where that cannot be
// printed.
#[tactic(auto, using(crate::proofs::ByOctets::none_made))]
fn leave(rt: &impl Print, bench: &mut Bench) -> io::Result<()>
    ensures told { OnOk result (bench.new.told ≡ left_to bench.old.told bench.old.section.receiver bench.old.store) }
    ensures store { bench.new.store ≡ (close_call bench.old.section.receiver bench.old.store).store }
    ensures counts { bench.new.counts ≡ bench.old.counts }
    ensures output { bench.new.output ≡ bench.old.output }
{
    if bench.section.receiver[0] == 0 {
        return Ok(());
    }
    let code = close_receiver(&mut bench.section.receiver, &mut bench.store);
    if is_wiped(code, &bench.store) {
        return Ok(());
    }
    let n = bench.counts.capture.sections;
    println!(rt; "not rebuilt, the store was not wiped after section {n}")?;
    bench.told = end_section(note(bench.told, Event::BadLine));
    Ok(())
}

// Begins a section at a receiver line, with nothing left of the one before: store and output are as before the first call where a receiver has
// used them. Where a line cannot be printed, the store is as it was or as closing left it, and the output as it was.
pub fn begin(rt: &impl Print, bench: &mut Bench) -> io::Result<()>
    ensures told { OnOk result (bench.new.told ≡ left_to (ended_before bench.old.told bench.old.section.opened) bench.old.section.receiver bench.old.store) }
    ensures store { OnErr result ((bench.new.store ≡ bench.old.store) ⊎ (bench.new.store ≡ (close_call bench.old.section.receiver bench.old.store).store)) }
    ensures output { OnErr result (bench.new.output ≡ bench.old.output) }
{
    close(rt, bench)?;
    leave(rt, bench)?;
    let number = bench.counts.capture.sections.saturating_add(1);
    println!(rt;
        "section {number}, from line {}",
        bench.counts.capture.lines
    )?;
    if bench.section.receiver[0] != 0 {
        bench.store = [FILL; STORE];
        bench.output = [FILL; STORE];
    }
    bench.section = Section::new(true);
    bench.counts.capture.sections = number;
    bench.counts.sections = bench.counts.sections.saturating_add(1);
    bench.counts.section_refused = 0;
    Ok(())
}
