// plan.rec: the answers of op 10, plan_message, and op 11, the frozen check.
use crate::answer::{begins, is_refused};
use crate::case::Lent;
use crate::number::{Field, are_same, be8, be16, be32, be64, front, part};
use crate::pattern::{NO_OCTETS, adler};
use crate::planning::{Asked, VERSION};
use codec_c::codes::{DONE, NOTHING};
use codec_c::{PART_OCTETS, catkhize_encode};
use plan_c::catkhize_plan_segment;

// The first octet of a Segmented plan.
const SEGMENTED: u8 = 2;

// Octets that hold any encoding, and those of WRITTEN.
const MAX_ENCODING: usize = 264;

const WRITTEN_OCTETS: usize = 8;

// PART: kind, data length, place in the message.
const KIND: usize = 2;

const LENGTH: usize = 15;

const OFFSET: usize = 23;

const BEGIN: u8 = 0;

// PLAN in op 10's answer: the count. PART there: data length of the Begin and what it states; data lengths of segment 1 and of the last.
const COUNT: [Field; 1] = [Field(36, 8, 1, 2)];

const FIRST: [Field; 2] = [Field(15, 8, 3, 2), Field(3, 7, 5, 7)];

const SECOND: [Field; 1] = [Field(15, 8, 12, 2)];

const LAST: [Field; 1] = [Field(15, 8, 14, 2)];

// PLAN in op 11's answer: message octets, budget, window.
const ACCEPTED: [Field; 3] = [Field(53, 8, 1, 4), Field(61, 8, 5, 4), Field(69, 1, 9, 1)];

// Segment i of a plan, where it has one.
fn segment_of(plan: &[u8], i: u16) -> Option<[u8; PART_OCTETS]> {
    let i = u8::try_from(i).ok()?;
    let mut segment = [0u8; PART_OCTETS];
    if catkhize_plan_segment(plan, i, &mut segment) == DONE {
        Some(segment)
    } else {
        None
    }
}

// The data of a segment.
fn data_of<'a>(segment: &[u8], message: &'a [u8]) -> &'a [u8] {
    let offset = be64(segment, OFFSET) as usize;
    part(message, offset, be64(segment, LENGTH) as usize)
}

// The sum with the encoding of a segment, where it has one.
fn with_segment(sum: u64, segment: &[u8], data: &[u8], version: u8) -> Option<u64> {
    let mut output = [0u8; MAX_ENCODING];
    let mut written = [0u8; WRITTEN_OCTETS];
    if catkhize_encode(segment, data, version, &mut output, &mut written) != DONE {
        return None;
    }
    Some(adler(sum, front(&output, be64(&written, 0) as usize)))
}

// Adler-32 over the encodings of so many segments, where each has one.
fn encodings(plan: &[u8], count: u16, message: &[u8], version: u8) -> Option<u64> {
    let mut sum = NO_OCTETS;
    for i in 0..count {
        let segment = segment_of(plan, i)?;
        sum = with_segment(sum, &segment, data_of(&segment, message), version)?;
    }
    Some(sum)
}

// Whether a plan has a segment i, with the fields that an answer has.
pub fn has_segment(plan: &[u8], i: u16, expected: &[u8], fields: &[Field]) -> bool {
    match segment_of(plan, i) {
        Some(segment) => are_same(&segment, expected, fields),
        None => false,
    }
}

fn has_begin(plan: &[u8], expected: &[u8]) -> bool {
    match segment_of(plan, 0) {
        Some(segment) => be8(&segment, KIND) == BEGIN && are_same(&segment, expected, &FIRST),
        None => false,
    }
}

// Op 10's answer for a plan, up to the sum.
fn is_segmented(plan: &[u8], expected: &[u8]) -> bool {
    let count = be16(expected, 1);
    begins(expected, 20, SEGMENTED)
        && are_same(plan, expected, &COUNT)
        && has_begin(plan, expected)
        && has_segment(plan, 1, expected, &SECOND)
        && 0 < count
        && has_segment(plan, count - 1, expected, &LAST)
}

// Op 10's answer for a plan.
fn is_planned(plan: &[u8], message: &[u8], version: u8, expected: &[u8]) -> bool {
    let sum = be32(expected, 16) as u64;
    is_segmented(plan, expected)
        && encodings(plan, be16(expected, 1), message, version) == Some(sum)
}

// Op 11's answer for a plan.
fn is_accepted(plan: &[u8], expected: &[u8]) -> bool {
    begins(expected, 10, 0) && are_same(plan, expected, &ACCEPTED)
}

// The answer of a case of plan.rec.
pub fn plan_same(asked: Asked, code: u32, lent: &Lent, expected: &[u8]) -> bool {
    if code == NOTHING {
        return begins(expected, 1, 0);
    }
    if code != DONE {
        return is_refused(code, expected);
    }
    match asked {
        Asked::Message(input) => {
            let message = front(&lent.store, asked.octets_length());
            is_planned(&lent.plan, message, be8(input, VERSION), expected)
        }
        Asked::Frozen { .. } => is_accepted(&lent.plan, expected),
    }
}
