// A number in decimal digits.
ghost use Rattle.std.specs.Prelude.{◌≡◌};
ghost use Rattle.capture.specs.Decimal.{value_of, fitting, number_of, or_zero, small_or_zero};

use crate::text::{Class, run};

const BASE: u64 = 10;

// Why a word is no number of 64 bits.
#[derive(Clone, Copy, Debug, PartialEq, Eq)]
pub enum NumberFault {
    NoNumber,
    TooLarge,
}

// The value of digits, where it is a number of 64 bits.
#[tactic(auto, using(crate::specs::DecimalLaws::value_at, crate::specs::DecimalLaws::value_end, crate::specs::DecimalLaws::value_grows))]
fn value(s: &[u8]) -> Result<u64, NumberFault>
    ensures { result ≡ fitting (value_of s.now) }
{
    let mut sum: u64 = 0;
    for x in s {
        let d = u64::from(x.saturating_sub(b'0'));
        if (u64::MAX - d) / BASE < sum {
            return Err(NumberFault::TooLarge);
        }
        sum = BASE * sum + d;
    }
    Ok(sum)
}

pub fn number_of(s: &[u8]) -> Result<u64, NumberFault>
    ensures { result ≡ number_of s.now }
{
    if s.is_empty() || run(Class::Digit, s) != s.len() {
        return Err(NumberFault::NoNumber);
    }
    value(s)
}

// The value of a number, and 0 of what is none.
pub fn value_or_zero(s: &[u8]) -> u64
    ensures { result ≡ or_zero (number_of s.now) }
{
    number_of(s).unwrap_or(0)
}

// The value of a number up to 255, and 0 of what is none.
pub fn small_or_zero(s: &[u8]) -> u8
    ensures { result ≡ small_or_zero (or_zero (number_of s.now)) }
{
    u8::try_from(value_or_zero(s)).unwrap_or(0)
}
