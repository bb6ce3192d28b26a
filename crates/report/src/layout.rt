// Where things stand in the layouts of docs/EXPORTS.md, and how they are read there.
ghost use Rattle.std.specs.Prelude.{◌≡◌, get_or};
ghost use Rattle.report.specs.Outcome.{number_at};

use capture::text::from;
use image::numbers;

// DECODED: transaction, sequence, kind, stated length with its flag, services with theirs, of which the window; data length, unparsed octets.
pub const SEGMENT_TRANSACTION: usize = 0;

pub const SEQUENCE: usize = 1;

pub const KIND: usize = 2;

pub const SEGMENT_STATED: usize = 3;

pub const SERVICES: usize = 6;

pub const WINDOW: usize = 8;

pub const DATA_LENGTH: usize = 15;

pub const UNPARSED: usize = 23;

pub const DECODED_OCTETS: usize = 31;

// The kinds of segments, by their numbers in DECODED.
pub const BEGIN: u8 = 0;

pub const CONTINUE: u8 = 1;

pub const END_KIND: u8 = 2;

// RECEPTION, whose front is REPLY: flag, transaction, status, entries, marks, support flag, supports, missing entries, first missing entry;
// message flag and number of octets.
pub const TRANSACTION: usize = 1;

pub const STATUS: usize = 2;

pub const ENTRIES: usize = 3;

pub const MARKS: usize = 5;

pub const SUPPORT: usize = 37;

pub const MISSING: usize = 42;

pub const FIRST_MISSING: usize = 44;

pub const MESSAGE: usize = 46;

pub const RECEPTION_OCTETS: usize = 55;

// RECEIVER: peer kind, width and value; protocol and its octet; transaction; version; profile; maximum; state, with a status; end, stated
// length and deadline, each with its flag; stored octets; last reading; held marks; data lengths.
pub const PEER_KIND: usize = 1;

pub const PEER_WIDTH: usize = 2;

pub const PEER_VALUE: usize = 3;

pub const PROTOCOL: usize = 11;

pub const PROTOCOL_OCTET: usize = 12;

pub const RECEIVER_TRANSACTION: usize = 13;

pub const VERSION: usize = 14;

pub const PROFILE: usize = 15;

pub const MAXIMUM: usize = 16;

pub const STATE: usize = 24;

pub const END: usize = 29;

pub const STATED: usize = 31;

pub const STORED: usize = 34;

pub const DEADLINE: usize = 42;

pub const LAST_READING: usize = 51;

pub const HELD: usize = 59;

pub const LENGTHS: usize = 91;

pub const RECEIVER_OCTETS: usize = 3931;

// The state after a hand-over, and those that take no segments, of which FAILED has a status: by their numbers in RECEIVER.
pub const COMPLETE: u8 = 2;

pub const FAILED: u8 = 3;

pub const EXPIRED: u8 = 4;

pub const CANCELED: u8 = 5;

// The octet at a place; 0 past the end.
pub fn octet(s: &[u8], at: usize) -> u8
    ensures { result ≡ get_or s.now at 0 }
{
    s.get(at).copied().unwrap_or(0)
}

// The number of 16 bits at a place; 0 past the end. One of 64 bits is read by a function of its own, as image has them.
pub fn pair_at(s: &[u8], at: usize) -> u64
    ensures { result ≡ number_at 2 s.now at }
{
    let t = from(s, at);
    if t.len() < 2 {
        return 0;
    }
    let n: u16 = numbers::read(t, 0);
    u64::from(n)
}

// The number of 64 bits at a place; 0 past the end.
pub fn number_at(s: &[u8], at: usize) -> u64
    ensures { result ≡ number_at 8 s.now at }
{
    let t = from(s, at);
    if t.len() < 8 {
        return 0;
    }
    numbers::read(t, 0)
}

// The place behind a flag, where the flag is not 0.
pub(crate) fn behind_flag(s: &[u8], flag: usize) -> Option<usize> {
    (octet(s, flag) != 0).then_some(flag.saturating_add(1))
}
