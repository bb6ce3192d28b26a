// What is said of a section of a capture: one rule, on what its calls answered and on whether its lines could be read.
ghost use Rattle.std.specs.Prelude.{◌≡◌};
ghost use Rattle.report.specs.Outcome.{stepped, rebuilt_by, with_result, every_by, start_of, noted, ended, handed_in, call_event, missing_in, first_missing_in, past_deadline};

use crate::layout;
use crate::layout::{number_at, octet, pair_at};

// What happened in a section: a call, with the octets of the record that it handed over, if it did, and whether the receiver is Failed after it; or a line that was refused for
// its form.
#[derive(Clone, Copy)]
pub enum Event {
    Call(Option<u64>, bool),
    BadLine,
}

// A section so far: what was handed over, whether a later call left the receiver Failed, and whether a line was refused for its form.
#[derive(Clone, Copy, Debug, PartialEq, Eq)]
pub struct Summary {
    pub handed: Option<u64>,
    pub failed: bool,
    pub bad_line: bool,
}

// What has been told: of the section so far; and of those that have ended, where there is one, whether all were rebuilt.
#[derive(Clone, Copy)]
pub struct Told {
    pub section: Summary,
    pub results: Option<bool>,
}

impl Summary {
    const NOTHING_YET: Summary = Summary {
        handed: None,
        failed: false,
        bad_line: false,
    };
}

// A section after one event more.
pub fn seen(s: Summary, e: Event) -> Summary
    ensures { result ≡ stepped s e }
{
    match e {
        Event::Call(handed, failed) => Summary {
            handed: handed.or(s.handed),
            failed: s.failed || (s.handed.is_some() && failed),
            bad_line: s.bad_line,
        },
        Event::BadLine => Summary {
            bad_line: true,
            ..s
        },
    }
}

// Whether a section is rebuilt.
pub fn is_rebuilt(s: Summary) -> bool
    ensures { result ≡ rebuilt_by s }
{
    s.handed.is_some() && !s.failed && !s.bad_line
}

pub fn start() -> Told
    ensures { result ≡ start_of }
{
    Told {
        section: Summary::NOTHING_YET,
        results: None,
    }
}

// With one event more in the section.
pub fn note(t: Told, e: Event) -> Told
    ensures { result ≡ noted t e }
{
    Told {
        section: seen(t.section, e),
        ..t
    }
}

// With the section ended, and another begun.
pub fn end_section(t: Told) -> Told
    ensures { result ≡ ended t }
{
    Told {
        section: Summary::NOTHING_YET,
        results: Some(t.results.unwrap_or(true) && is_rebuilt(t.section)),
    }
}

// Whether there was a section, and every one was rebuilt.
pub fn is_every(results: Option<bool>) -> bool
    ensures { result ≡ every_by results }
{
    results == Some(true)
}

// What a call handed over, by its answer.
pub(crate) fn handed_in(answer: &[u8]) -> Option<u64>
    ensures { result ≡ handed_in answer.now }
{
    if octet(answer, layout::MESSAGE) == 0 {
        return None;
    }
    Some(number_at(answer, layout::MESSAGE + 1))
}

// How many entries of a response's map are missing, and the first of them, as the answer has them.
pub fn missing_in(answer: &[u8]) -> u64
    ensures { result ≡ missing_in answer.now }
{
    pair_at(answer, layout::MISSING)
}

pub fn first_missing_in(answer: &[u8]) -> u64
    ensures { result ≡ first_missing_in answer.now }
{
    pair_at(answer, layout::FIRST_MISSING)
}

// What happened in a call, by its answer and by the receiver after it.
pub fn call_event(answer: &[u8], receiver: &[u8]) -> Event
    ensures { result ≡ call_event answer.now receiver.now }
{
    Event::Call(
        handed_in(answer),
        octet(receiver, layout::STATE) == layout::FAILED,
    )
}

// Whether a reading is past the deadline of a receiver, where one was made and has a deadline. A segment at the deadline is taken.
pub fn is_past(reading: u64, receiver: &[u8]) -> bool
    ensures { result ≡ past_deadline reading receiver.now }
{
    octet(receiver, 0) != 0
        && octet(receiver, layout::DEADLINE) != 0
        && number_at(receiver, layout::DEADLINE + 1) < reading
}
