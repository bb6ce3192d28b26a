// codec.rec: op 01, decode, and op 02, encode.
use crate::answer::{REFUSAL, begins, is_refusal, is_refused};
use crate::case::{LONG, Lent};
use crate::number::{Field, are_same, be8, be16, from};
use crate::pattern::FILL;
use codec_c::codes::DONE;
use codec_c::{catkhize_decode, catkhize_encode};

#[derive(Clone, Copy)]
pub enum Call {
    Decode,
    Encode,
}

// The largest room that a list has.
pub const MAX_ROOM: usize = 300;

// Offsets in op 02's input.
pub const HEAD: usize = 1;

pub const ROOM: usize = 16;

pub const DATA: usize = 20;

// DECODED in op 01's answer: head, data length, number of unparsed octets.
const READ: [Field; 3] = [
    Field(0, 15, 1, 15),
    Field(15, 8, 16, 2),
    Field(23, 8, 18, 2),
];

// WRITTEN in op 02's answer.
const WRITTEN: [Field; 1] = [Field(0, 8, 1, 2)];

fn room(input: &[u8]) -> u16 {
    be16(input, ROOM)
}

// Every octet of the output is FILL before the call. Output and answer stand apart for planning's reason.
fn encode(input: &[u8], output: &mut [u8; LONG], answer: &mut [u8]) -> u32 {
    let n = room(input) as usize;
    output[..MAX_ROOM].fill(FILL);
    catkhize_encode(
        from(input, HEAD),
        from(input, DATA),
        be8(input, 0),
        &mut output[..n],
        answer,
    )
}

fn is_decoded(code: u32, answer: &[u8], expected: &[u8]) -> bool {
    if code == DONE {
        begins(expected, 20, 0) && are_same(answer, expected, &READ)
    } else {
        is_refused(code, expected)
    }
}

// Op 02's answer up to the output: 00 and the number of octets written, or 01 n m.
fn is_written(code: u32, answer: &[u8], expected: &[u8]) -> bool {
    if code == DONE {
        be8(expected, 0) == 0 && are_same(answer, expected, &WRITTEN)
    } else {
        is_refusal(code, expected)
    }
}

// Every octet of the output is in the answer.
fn is_encoded(code: u32, output: &[u8], answer: &[u8], expected: &[u8]) -> bool {
    REFUSAL <= expected.len()
        && output == from(expected, REFUSAL)
        && is_written(code, answer, expected)
}

impl Call {
    // The call of a case of codec.rec.
    pub fn make(self, input: &[u8], lent: &mut Lent) -> u32 {
        match self {
            Call::Decode => catkhize_decode(from(input, 1), be8(input, 0), &mut lent.answer),
            Call::Encode => encode(input, &mut lent.output, &mut lent.answer),
        }
    }

    // The answer of a case of codec.rec.
    pub fn is_same(self, code: u32, input: &[u8], lent: &Lent, expected: &[u8]) -> bool {
        match self {
            Call::Decode => is_decoded(code, &lent.answer, expected),
            Call::Encode => {
                let n = room(input) as usize;
                is_encoded(code, &lent.output[..n], &lent.answer, expected)
            }
        }
    }
}
