// Why a reception failed: the rule of the slots (document 01, link/tsar/receiver.rs) that gave its status, found from the receiver before
// the segment and from the segment as it was decoded.
ghost use Rattle.std.specs.Prelude.{Some};

use crate::layout;
use crate::layout::{behind_flag, number_at, octet, pair_at};
use crate::marks::{MARKS_OCTETS, is_marked, top};
use crate::say::Counted;
use capture::text::{from, front};
use std::fmt;

// The statuses that a segment can fail a reception with, by their numbers in RECEIVER (docs/EXPORTS.md).
const ABORTED: u8 = 2;

const CRC_SELECTION_UNSUPPORTED: u8 = 3;

const COMPRESSION_UNSUPPORTED: u8 = 4;

const MESSAGE_LENGTH_ERROR: u8 = 8;

const MESSAGE_TOO_LONG: u8 = 9;

const DUPLICATE_SIZE_MISMATCH: u8 = 11;

const MULTIPLE_SERVICES_UNSUPPORTED: u8 = 13;

const LAST_SEQUENCE: u8 = 255;

// The rule of the slots that a segment broke.
#[derive(Clone, Copy, Debug, PartialEq, Eq)]
pub enum Reason {
    HeldWith { octets: u64, came: u64 },
    Differs(u8),
    ContinueAtLast,
    BeginCrc,
    EndCrc,
    EndAtZero,
    SecondEnd { at: u8, end: u8 },
    EndBelow { at: u8, held: u64 },
    PastEnd { at: u8, end: u8 },
    StatedAgain { before: u64, now: u64 },
    NotAsStated { stated: u64, got: u64 },
    StatesTooMuch { states: u64, maximum: u64 },
    TooMuch { got: u64, maximum: u64 },
    Compression,
    CompressionAndCrc,
}

// What is kept of a failed reception: why it failed, and at which line.
#[derive(Clone, Copy, Debug, PartialEq, Eq)]
pub struct Failure {
    pub reason: Option<Reason>,
    pub line: u64,
}

impl fmt::Display for Reason {
    ghost use Rattle.report.specs.Messages.{reason_text};

    ghost output = { λ reason. Some (reason_text reason) };

    fn fmt<W: fmt::Write>(&self, f: &mut fmt::Formatter<W>) -> fmt::Result {
        match *self {
            Reason::HeldWith { octets, came } => {
                let held = Counted(octets, "octet");
                write!(f, "held with {held}, came again with {came}")
            }
            Reason::Differs(at) => write!(f, "segment {at} came again and differs"),
            Reason::ContinueAtLast => write!(f, "a Continue at {LAST_SEQUENCE}"),
            Reason::BeginCrc => f.write_str("the Begin asks for a CRC"),
            Reason::EndCrc => f.write_str("the End carries a CRC"),
            Reason::EndAtZero => f.write_str("an End at 0"),
            Reason::SecondEnd { at, end } => {
                write!(f, "an End at {at}, but the End is at {end}")
            }
            Reason::EndBelow { at, held } => {
                write!(f, "an End at {at}, but segment {held} is held")
            }
            Reason::PastEnd { at, end } => { write!(f, "segment {at} is past the End at {end}") }
            Reason::StatedAgain { before, now } => {
                write!(f, "stated {before} before, now {now}")
            }
            Reason::NotAsStated { stated, got } => write!(f, "stated {stated}, got {got}"),
            Reason::StatesTooMuch { states, maximum } => {
                write!(f, "states {states}, maximum {maximum}")
            }
            Reason::TooMuch { got, maximum } => write!(f, "got {got}, maximum {maximum}"),
            Reason::Compression => f.write_str("the Begin asks for compression"),
            Reason::CompressionAndCrc => f.write_str("the Begin asks for compression and a CRC"),
        }
    }
}

// The marks that a receiver holds.
fn held(receiver: &[u8]) -> &[u8] {
    front(from(receiver, layout::HELD), MARKS_OCTETS)
}

// Whether a receiver holds the segment with this sequence number.
pub fn is_held(receiver: &[u8], sequence: u8) -> bool {
    is_marked(held(receiver), sequence as usize)
}

// The data length of the segment with this sequence number.
fn length_at(receiver: &[u8], sequence: u8) -> u64 {
    pair_at(receiver, layout::LENGTHS + 2 * sequence as usize)
}

// The octets that a receiver holds, and those of a segment.
fn octets_with(before: &[u8], decoded: &[u8]) -> u64 {
    number_at(before, layout::STORED).saturating_add(number_at(decoded, layout::DATA_LENGTH))
}

// The length that a segment states, or the one that was stated before.
fn stated_with(before: &[u8], decoded: &[u8]) -> u64 {
    behind_flag(decoded, layout::SEGMENT_STATED).map_or(
        pair_at(before, layout::STATED + 1),
        |at| pair_at(decoded, at),
    )
}

// An End that stands at no place where one may.
fn misplaced_end(before: &[u8], at: u8) -> Reason {
    if at == 0 {
        return Reason::EndAtZero;
    }
    if let Some(place) = behind_flag(before, layout::END) {
        let end = octet(before, place);
        return Reason::SecondEnd { at, end };
    }
    let held = top(held(before)).unwrap_or(0) as u64;
    Reason::EndBelow { at, held }
}

// Aborted: a Continue at 255, an End at the wrong place, or a segment past the End.
fn aborted(before: &[u8], decoded: &[u8]) -> Reason {
    let at = octet(decoded, layout::SEQUENCE);
    match octet(decoded, layout::KIND) {
        layout::CONTINUE if at == LAST_SEQUENCE => Reason::ContinueAtLast,
        layout::END_KIND => misplaced_end(before, at),
        _ => Reason::PastEnd {
            at,
            end: octet(before, layout::END + 1),
        },
    }
}

// A segment that is held and came again with another data length, or with anything else that differs.
fn repeated(before: &[u8], decoded: &[u8], status: u8) -> Reason {
    let at = octet(decoded, layout::SEQUENCE);
    if status == DUPLICATE_SIZE_MISMATCH {
        return Reason::HeldWith {
            octets: length_at(before, at),
            came: number_at(decoded, layout::DATA_LENGTH),
        };
    }
    Reason::Differs(at)
}

// A CRC that a Begin asks for, or that an End carries.
fn crc(decoded: &[u8]) -> Reason {
    if octet(decoded, layout::KIND) == layout::BEGIN {
        Reason::BeginCrc
    } else {
        Reason::EndCrc
    }
}

// A length that clashes with the one stated before, or that the octets pass or do not come to.
fn length_error(before: &[u8], decoded: &[u8]) -> Reason {
    let now = stated_with(before, decoded);
    match behind_flag(before, layout::STATED).map(|at| pair_at(before, at)) {
        Some(before) if now != before => Reason::StatedAgain { before, now },
        _ => Reason::NotAsStated {
            stated: now,
            got: octets_with(before, decoded),
        },
    }
}

// A length above the maximum, or octets that pass it.
fn too_long(before: &[u8], decoded: &[u8]) -> Reason {
    let maximum = number_at(before, layout::MAXIMUM);
    let states = stated_with(before, decoded);
    if maximum < states {
        return Reason::StatesTooMuch { states, maximum };
    }
    Reason::TooMuch {
        got: octets_with(before, decoded),
        maximum,
    }
}

// The rule that a new segment broke, by the status.
fn new_reason(before: &[u8], decoded: &[u8], status: u8) -> Option<Reason> {
    match status {
        ABORTED => Some(aborted(before, decoded)),
        CRC_SELECTION_UNSUPPORTED => Some(crc(decoded)),
        COMPRESSION_UNSUPPORTED => Some(Reason::Compression),
        MULTIPLE_SERVICES_UNSUPPORTED => Some(Reason::CompressionAndCrc),
        MESSAGE_LENGTH_ERROR => Some(length_error(before, decoded)),
        MESSAGE_TOO_LONG => Some(too_long(before, decoded)),
        _ => None,
    }
}

// Why the reception failed with a status: before is RECEIVER before the call, decoded is DECODED of the segment.
pub fn reason_of(before: &[u8], decoded: &[u8], status: u8) -> Option<Reason> {
    if is_held(before, octet(decoded, layout::SEQUENCE)) {
        return Some(repeated(before, decoded, status));
    }
    new_reason(before, decoded, status)
}
