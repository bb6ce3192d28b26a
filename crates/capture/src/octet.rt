// Octets in hexadecimal.
ghost use Rattle.std.specs.Prelude.{◌≡◌, ◌<◌, length, drop, Some};
ghost use Rattle.std.proofs.lemmas.List.Edits.{sets};
ghost use Rattle.capture.specs.Hexadecimal.{is_hex, hex_value, end_of, step_of, spelled_of, octet_of, octet_or_zero};

use crate::text::{from, is_blank};
use std::error::Error;
use std::fmt;

// What is wrong with octets: a character that is no digit, an octet of one digit, more octets than there is room for.
#[derive(Clone, Copy, Debug, PartialEq, Eq)]
pub enum OctetFault {
    NoDigit,
    Half,
    NoRoom,
}

// The first fault, and the character that it stands at.
#[derive(Clone, Copy, Debug, PartialEq, Eq)]
pub struct BadOctets {
    pub fault: OctetFault,
    pub at: usize,
}

// A character is counted from 1 here.
impl fmt::Display for BadOctets {
    ghost use Rattle.capture.specs.Messages.{octets_text};

    ghost output = { λ fault. Some (octets_text fault) };

    fn fmt<W: fmt::Write>(&self, f: &mut fmt::Formatter<W>) -> fmt::Result {
        let n = self.at.saturating_add(1);
        match self.fault {
            OctetFault::NoDigit => write!(f, "character {n}: no hexadecimal digit"),
            OctetFault::Half => write!(f, "character {n}: an octet ends after one digit"),
            OctetFault::NoRoom => write!(f, "character {n}: more octets than there is room for"),
        }
    }
}

impl Error for BadOctets {}

// What a character does: it ends an octet, or waits for one, whose first digit has come or not.
#[derive(Clone, Copy)]
pub enum Step {
    Octet(u8),
    Wait(Option<u8>),
}

fn is_hex(x: u8) -> bool
    ensures { result ≡ is_hex x }
{
    matches!(x, b'0'..=b'9' | b'A'..=b'F' | b'a'..=b'f')
}

// What a digit counts, and 0 for any other character.
fn hex_value(x: u8) -> u8
    ensures value { result ≡ hex_value x }
    ensures small { result < 16 }
{
    match x {
        b'0'..=b'9' => x - b'0',
        b'A'..=b'F' => x - b'A' + 10,
        b'a'..=b'f' => x - b'a' + 10,
        _ => 0,
    }
}

fn first_digit(x: u8) -> Result<Step, OctetFault>
    ensures { result ≡ step_of None x }
{
    if is_hex(x) {
        Ok(Step::Wait(Some(x)))
    } else if is_blank(x) {
        Ok(Step::Wait(None))
    } else {
        Err(OctetFault::NoDigit)
    }
}

fn second_digit(h: u8, x: u8) -> Result<Step, OctetFault>
    ensures { result ≡ step_of (Some h) x }
{
    if is_hex(x) {
        Ok(Step::Octet(16 * hex_value(h) + hex_value(x)))
    } else if is_blank(x) {
        Err(OctetFault::Half)
    } else {
        Err(OctetFault::NoDigit)
    }
}

// A character, after the first digit of an octet where that has come.
fn step_of(high: Option<u8>, x: u8) -> Result<Step, OctetFault>
    ensures { result ≡ step_of high x }
{
    match high {
        None => first_digit(x),
        Some(h) => second_digit(h, x),
    }
}

// What n octets end as, before the character at.
fn end_of(high: Option<u8>, n: usize, at: usize) -> Result<usize, BadOctets>
    ensures { result ≡ end_of high n at }
{
    match high {
        None => Ok(n),
        Some(_) => Err(BadOctets {
            fault: OctetFault::Half,
            at,
        }),
    }
}

// The number of octets that s spells from the character at on, which go to the start of out.
#[tactic(auto, using(crate::specs::HexadecimalLaws::on_fault, crate::specs::HexadecimalLaws::on_wait, crate::specs::HexadecimalLaws::on_full, crate::specs::HexadecimalLaws::on_octet, crate::specs::HexadecimalLaws::on_end))]
pub fn spelled(s: &[u8], at: usize, out: &mut [u8]) -> Result<usize, BadOctets>
    ensures said { result ≡ (spelled_of (length out.old) at (drop at s.now)).0 }
    ensures written { out.new ≡ sets out.old 0 (spelled_of (length out.old) at (drop at s.now)).1 }
{
    let rest = from(s, at);
    let mut high = None;
    let mut n: usize = 0;
    for (i, x) in rest.iter().enumerate() {
        match step_of(high, *x).map_err(|fault| BadOctets { fault, at: at + i })? {
            Step::Wait(h) => high = h,
            Step::Octet(octet) => {
                if out.len() <= n {
                    return Err(BadOctets {
                        fault: OctetFault::NoRoom,
                        at: at + i,
                    });
                }
                out[n] = octet;
                n += 1;
                high = None;
            }
        }
    }
    end_of(high, n, at + rest.len())
}

// The octet that a word of two digits spells.
pub fn octet_of(w: &[u8]) -> Option<u8>
    ensures { result ≡ octet_of w.now }
{
    match w {
        [high, low] if is_hex(*high) && is_hex(*low) => {
            Some(16 * hex_value(*high) + hex_value(*low))
        }
        _ => None,
    }
}

// The octet that a word spells, and 0 of a word that spells none.
pub fn octet_or_zero(w: &[u8]) -> u8
    ensures { result ≡ octet_or_zero (octet_of w.now) }
{
    octet_of(w).unwrap_or(0)
}
