// Rebuilds the records of captures (docs/CAPTURE.md): reads standard input, or the files that are named, feeds the receiver of each section,
// and prints a line for each event and a result for each section. The last line says whether every record was rebuilt.
#![tactic(auto)]

mod input;
mod run;
mod section;
mod session;

use capture::text::front;
use report::outcome::{Event, Told, end_section, is_every, note, start};
use session::Counts;
use std::env::FillError;
use std::rt::{Env, Files};
use std::str::from_utf8;
use std::{fmt, fs, io};

// The longest path.
const PATH: usize = 4096;

type Path = [u8; PATH];

// What an argument is.
#[derive(Clone, Copy)]
enum Argument {
    File,
    Stdin,
    Help,
    AsRecorded,
}

// Why an argument may not stand there.
#[derive(Clone, Copy)]
enum ArgumentFault {
    NoOption,
    Empty,
    TooLong,
}

impl fmt::Display for ArgumentFault {
    fn fmt<W: fmt::Write>(&self, f: &mut fmt::Formatter<W>) -> fmt::Result {
        f.write_str(match self {
            ArgumentFault::NoOption => "there is no such option",
            ArgumentFault::Empty => "an empty argument names no capture",
            ArgumentFault::TooLong => "an argument is too long for a path",
        })
    }
}

fn kind_of(word: &[u8]) -> Result<Argument, ArgumentFault> {
    match word {
        [] => Err(ArgumentFault::Empty),
        [b'-'] => Ok(Argument::Stdin),
        [b'-', ..] if octets::same(word, b"--help") => Ok(Argument::Help),
        [b'-', ..] if octets::same(word, b"--as-recorded") => Ok(Argument::AsRecorded),
        [b'-', ..] => Err(ArgumentFault::NoOption),
        _ => Ok(Argument::File),
    }
}

// How many arguments there are, the program's name among them.
fn argument_count(rt: &impl Env) -> usize {
    let mut path = [0u8; PATH];
    for i in 0..usize::MAX {
        if let Err(FillError::NotPresent) = rt.arg(i, &mut path) {
            return i;
        }
    }
    usize::MAX
}

fn argument_kind(rt: &impl Env, i: usize) -> Result<Argument, ArgumentFault> {
    let mut path = [0u8; PATH];
    match rt.arg(i, &mut path) {
        Ok(n) => kind_of(front(&path, n)),
        Err(_) => Err(ArgumentFault::TooLong),
    }
}

// What the arguments ask for: help; the bench's own advances; how many captures; and what is wrong with the last that is.
#[derive(Clone, Copy)]
struct Options {
    help: bool,
    waits: bool,
    captures: u64,
    wrong: Option<ArgumentFault>,
}

impl Options {
    fn with(mut self, kind: Result<Argument, ArgumentFault>) -> Options {
        match kind {
            Ok(Argument::File | Argument::Stdin) => {
                self.captures = self.captures.saturating_add(1);
            }
            Ok(Argument::Help) => self.help = true,
            Ok(Argument::AsRecorded) => self.waits = false,
            Err(fault) => self.wrong = Some(fault),
        }
        self
    }
}

fn asked(rt: &impl Env, count: usize) -> Options {
    let mut options = Options {
        help: false,
        waits: true,
        captures: 0,
        wrong: None,
    };
    for i in 1..count {
        options = options.with(argument_kind(rt, i));
    }
    options
}

// The file at a path. A path is text: one of other octets cannot be opened.
fn open<R: Files>(rt: &R, path: &[u8]) -> io::Result<R::File> {
    match from_utf8(path) {
        Ok(text) => fs::open(rt, text),
        Err(_) => Err(io::Error::from(io::ErrorKind::InvalidFilename)),
    }
}

// Says why a path could not be opened.
fn say_failed(rt: &impl Eprint, path: &[u8], e: io::Error) -> io::Result<()> {
    match from_utf8(path) {
        Ok(text) => eprintln!(rt; "{text}: {e}"),
        Err(_) => eprintln!(rt; "{}: {e}", path.escape_ascii()),
    }
}

// The capture at a path.
fn at_path(
    rt: &(impl Files + Print + Eprint),
    told: Told,
    waits: bool,
    path: &[u8],
    counts: &mut Counts,
) -> io::Result<Told> {
    match open(rt, path) {
        Ok(mut file) => run::capture(rt, told, waits, &mut file, counts),
        Err(e) => {
            say_failed(rt, path, e)?;
            println!(rt; "not rebuilt, the capture cannot be opened")?;
            Ok(end_section(note(told, Event::BadLine)))
        }
    }
}

fn say_heading(rt: &impl Print, several: bool, path: &[u8]) -> io::Result<()> {
    if several {
        print!(rt; "== ")?;
        rt.write_all(path)?;
        println!(rt)?;
    }
    Ok(())
}

fn from_stdin(
    rt: &(impl Input + Print + Eprint),
    told: Told,
    waits: bool,
    counts: &mut Counts,
) -> io::Result<Told> {
    counts.captures = counts.captures.saturating_add(1);
    run::capture(rt, told, waits, &mut rt.reader(), counts)
}

// The capture that argument i names, where it names one.
fn named(
    rt: &(impl Env + Files + Input + Print + Eprint),
    told: Told,
    waits: bool,
    several: bool,
    i: usize,
    counts: &mut Counts,
) -> io::Result<Told> {
    let mut path = [0u8; PATH];
    let n = rt.arg(i, &mut path).unwrap_or(0);
    match kind_of(front(&path, n)) {
        Ok(Argument::Stdin) => {
            say_heading(rt, several, b"standard input")?;
            from_stdin(rt, told, waits, counts)
        }
        Ok(Argument::File) => {
            say_heading(rt, several, front(&path, n))?;
            counts.captures = counts.captures.saturating_add(1);
            at_path(rt, told, waits, front(&path, n), counts)
        }
        _ => Ok(told),
    }
}

fn all(
    rt: &(impl Env + Files + Input + Print + Eprint),
    count: usize,
    waits: bool,
    several: bool,
    counts: &mut Counts,
) -> io::Result<Told> {
    let mut told = start();
    for i in 1..count {
        told = named(rt, told, waits, several, i, counts)?;
    }
    Ok(told)
}

// The last line.
fn say_end(rt: &impl Print, told: Told, counts: &Counts) -> io::Result<()> {
    let every = if is_every(told.results) {
        "every record rebuilt"
    } else {
        "not every record rebuilt"
    };
    println!(rt;
        "end: captures {}, sections {}, rebuilt {}; {every}",
        counts.captures, counts.sections, counts.rebuilt
    )
}

fn say_help(rt: &impl Print) -> io::Result<()> {
    print!(rt;
        "bench [--as-recorded] [CAPTURE | -]..\n\
        Rebuilds the records of captures (docs/CAPTURE.md). - is standard input, and so is no capture at all.\n\
        Before a segment that comes past the deadline the program makes the advance at the deadline, as a bench does;\n\
        --as-recorded leaves that out, so that only the calls of the capture are made.\n\
        The last line starts with 'end: ' and ends in '; every record rebuilt' or '; not every record rebuilt'.\n"
    )
}

fn run_all(
    rt: &(impl Env + Files + Input + Print + Eprint),
    count: usize,
    options: Options,
) -> io::Result<()> {
    let mut counts = Counts::default();
    if options.captures == 0 {
        let told = from_stdin(rt, start(), options.waits, &mut counts)?;
        return say_end(rt, told, &counts);
    }
    let told = all(rt, count, options.waits, 1 < options.captures, &mut counts)?;
    say_end(rt, told, &counts)
}

fn main(rt: HostRuntime) -> io::Result<()> {
    let count = argument_count(&rt);
    let options = asked(&rt, count);
    if options.help {
        return say_help(&rt);
    }
    // Where an argument is wrong, nothing is run.
    if let Some(fault) = options.wrong {
        return eprintln!(rt; "bench: {fault}; see --help");
    }
    run_all(&rt, count, options)
}
