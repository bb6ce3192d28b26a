// 256 marks in 32 octets, four words with the highest octet first: mark 0 is the lowest bit of the first word.
ghost use Rattle.std.specs.Prelude.{◌<◌, ◌≤◌, IfSome};

use crate::layout::octet;
use std::io;

pub const MARKS_OCTETS: usize = 32;

const SEQUENCES: usize = 256;

pub fn is_marked(marks: &[u8], i: usize) -> bool {
    (octet(marks, i / 8 ^ 7) >> (i % 8)) % 2 == 1
}

// The first number from a on and below n whose mark is set, or is not.
fn find(marks: &[u8], n: usize, a: usize, set: bool) -> usize
    ensures { a ≤ result }
{
    (a..n)
        .find(|i| is_marked(marks, *i) == set)
        .unwrap_or(a.max(n))
}

// The highest mark.
pub fn top(marks: &[u8]) -> Option<usize>
    ensures { IfSome result (λ i. i < 256) }
{
    (0..SEQUENCES).rev().find(|i| is_marked(marks, *i))
}

fn say_run(rt: &impl Print, a: usize, b: usize) -> io::Result<()> {
    if a == b {
        print!(rt; " {a}")
    } else {
        print!(rt; " {a}-{b}")
    }
}

// The numbers below n whose mark is set, or is not, as numbers and ranges of numbers. A run starts past the end of the one before, so no range
// counts the turns.
fn say_runs(rt: &impl Print, marks: &[u8], n: usize, set: bool) -> io::Result<()> {
    let mut a = find(marks, n, 0, set);
    if n <= a {
        print!(rt; " none")?;
    }
    while a < n {
        let e = find(marks, n, a + 1, !set);
        say_run(rt, a, e - 1)?;
        a = find(marks, n, e, set);
    }
    Ok(())
}

pub fn say_marks(rt: &impl Print, marks: &[u8]) -> io::Result<()> {
    say_runs(rt, marks, SEQUENCES, true)
}

// What is missing of n marks.
pub fn say_missing(rt: &impl Print, marks: &[u8], n: usize) -> io::Result<()> {
    say_runs(rt, marks, n, false)
}

// What is missing up to the highest mark, and what may follow it.
pub fn say_open(rt: &impl Print, marks: &[u8]) -> io::Result<()> {
    match top(marks) {
        None => print!(rt; " all"),
        Some(last) => {
            say_missing(rt, marks, last)?;
            print!(rt; ", and what follows {last} (no End)")
        }
    }
}
