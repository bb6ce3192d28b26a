// The run through one list.
use crate::case::Lent;
use crate::list::{Case, ListError, MAX_ANSWER, MAX_INPUT, next_case};
use crate::op::Op;
use std::io::Read;
use std::rt::Files;
use std::{fs, io};
use tally::{Outcome, Tally};

// What a list has shown so far, and how many lists of calls it has opened.
#[derive(Clone, Copy, Default)]
struct Run {
    tally: Tally,
    calls: u64,
}

impl Run {
    // Replays a case, and prints its number and its op where it is among the first that are not the same.
    fn replay(&mut self, rt: &impl Print, case: Case, lent: &mut Lent) -> io::Result<()> {
        let op = Op::try_from(case.op);
        let outcome = match op {
            Ok(op) => lent.replay(op, case.input, case.expected),
            Err(_) => Outcome::Malformed,
        };
        if op.is_ok_and(Op::opens) {
            self.calls = self.calls.saturating_add(1);
        }
        self.tally.count(outcome);
        if self.tally.shows(outcome) {
            println!(rt;
                "  case {}: {outcome}, op {:02x}",
                self.tally.cases, case.op
            )?;
        }
        Ok(())
    }

    // The line of a list, with the number of its lists of calls where it has any.
    fn report(self, rt: &impl Print, name: &str) -> io::Result<()> {
        if self.calls == 0 {
            println!(rt; "{name}: {}", self.tally)
        } else {
            println!(rt; "{name}, {} lists of calls: {}", self.calls, self.tally)
        }
    }
}

// A list ends, but nothing says so: a range that no list uses up, since forever takes Wait, which HANDLES does not have.
fn all(rt: &impl Print, file: &mut impl Read) -> io::Result<Run> {
    let mut lent = Lent::new();
    let mut run = Run::default();
    for _ in 0..u64::MAX {
        let mut input = [0u8; MAX_INPUT];
        let mut expected = [0u8; MAX_ANSWER];
        match next_case(file, &mut input, &mut expected) {
            Ok(Some(case)) => run.replay(rt, case, &mut lent)?,
            Ok(None) => break,
            Err(ListError::Cut) => {
                println!(rt; "  the list ends within a case")?;
                break;
            }
            Err(ListError::Io(e)) => return Err(e),
        }
    }
    Ok(run)
}

// Replays the list of a name that stands at a path.
pub fn replay(rt: &(impl Files + Print + Eprint), name: &str, path: &str) -> io::Result<()> {
    match fs::open(rt, path) {
        Ok(mut file) => all(rt, &mut file)?.report(rt, name),
        Err(e) => eprintln!(rt; "{path}: {e}"),
    }
}
