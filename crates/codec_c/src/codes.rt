// The number that a call gives.
// The numbers are those of the C interface; an impl of From for a type of another crate cannot stand here.
ghost use Rattle.std.specs.Prelude.{◌≡◌};
ghost use Rattle.tsar.specs.Numbers.{number, field_number};
ghost use Rattle.codec_c.specs.Codes.{code_of};

use tsar::{Error, ErrorField};

// It is done.
pub const DONE: u32 = 0;

// There is nothing: no refusal either.
pub const NOTHING: u32 = 1;

// 256: a lent buffer is shorter than its layout.
pub const SHORT: u32 = 65536;

// 257: a buffer spells no value.
pub const MISSPELLED: u32 = 65792;

// 258: a number names no case.
pub const UNNAMED: u32 = 66048;

// Document 01's 61: the output is shorter than what is to be written.
pub const OUTPUT_TOO_SHORT: u32 = 15616;

// The field m of a refusal 6/m.
fn field_number(f: ErrorField) -> u8
    ensures { result ≡ field_number f }
{
    match f {
        ErrorField::TransactionId => 1,
        ErrorField::SegmentDataLength => 2,
        ErrorField::BeginSequenceNumber => 3,
        ErrorField::MessageLength => 4,
        ErrorField::Crc24 => 5,
        ErrorField::AcknowledgmentMapLength => 6,
        ErrorField::OptionalServicesSupportStatus => 7,
    }
}

// The number n and the field m of the codec's refusals.
fn error_number(e: Error) -> u8
    ensures { result ≡ (number e).0 }
{
    match e {
        Error::Version => 1,
        Error::Truncated => 2,
        Error::Protocol => 3,
        Error::MessageType => 4,
        Error::UnsupportedResponse => 5,
        Error::Field(_) => 6,
        Error::Reserved => 7,
        Error::DuplicateParameter => 8,
    }
}

fn error_field(e: Error) -> u8
    ensures { result ≡ (number e).1 }
{
    match e {
        Error::Field(f) => field_number(f),
        _ => 0,
    }
}

// What a call gives that the codec refuses.
pub fn error_code(e: Error) -> u32
    ensures { result ≡ code_of (number e) }
{
    256 * u32::from(error_number(e)) + u32::from(error_field(e))
}
