// What a call gave, as the number of the C interface, against the front of the recorded answer.
use crate::number::{be8, be16};
use codec_c::codes::{DONE, SHORT};

// The octets of 01 n m.
pub const REFUSAL: usize = 3;

const REFUSED: u8 = 1;

// 1/0, the smallest refusal of document 01.
const FIRST_REFUSAL: u32 = 256;

// Whether an answer begins with 01 n m, for document 01's refusal n/m. The exports' own, from 256 on, are in no answer.
pub fn is_refusal(code: u32, expected: &[u8]) -> bool {
    (FIRST_REFUSAL..SHORT).contains(&code)
        && be8(expected, 0) == REFUSED
        && be16(expected, 1) as u32 == code
}

// Whether an answer is 01 n m alone.
pub fn is_refused(code: u32, expected: &[u8]) -> bool {
    expected.len() == REFUSAL && is_refusal(code, expected)
}

// Whether an answer has n octets and begins with an octet.
pub fn begins(expected: &[u8], n: usize, first: u8) -> bool {
    expected.len() == n && be8(expected, 0) == first
}

// Whether an answer is n octets that begin with 00 where the call is done, and else 01 n m and so many as follow 00.
pub fn is_answer(code: u32, expected: &[u8], done: usize, refused: usize) -> bool {
    if code == DONE {
        begins(expected, done, 0)
    } else {
        expected.len() == refused && is_refusal(code, expected)
    }
}
