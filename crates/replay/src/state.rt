// sender.rec: the answers of the calls, and the sender's state after them.
use crate::answer::{REFUSAL, is_answer};
use crate::case::Lent;
use crate::number::{Field, are_same, be8, be16, be64, from};
use crate::plan::has_segment;
use codec_c::codes::{DONE, NOTHING};
use sender_c::catkhize_sender_submission;

// The number of the sender under test.
pub const OWN: u64 = 136;

// SENDER in an answer: state in four octets, deadline, submissions. With a failure by the peer SENDER has the status last, the answer third.
const STATE: [Field; 5] = [
    Field(23, 2, 0, 2),
    Field(25, 1, 2, 1),
    Field(26, 1, 3, 1),
    Field(149, 9, 4, 9),
    Field(166, 8, 13, 8),
];

const PEER_STATE: [Field; 5] = [
    Field(23, 2, 0, 2),
    Field(25, 1, 3, 1),
    Field(26, 1, 2, 1),
    Field(149, 9, 4, 9),
    Field(166, 8, 13, 8),
];

const PEER_FAILED: u16 = 0x0402;

// STATE in SENDER.
const SAID: [Field; 1] = [Field(23, 4, 0, 4)];

// SUBMISSION: number, index; its ticket and its index in an answer; its segment as PART.
const SUBMISSION_OCTETS: usize = 48;

const INDEX: usize = 16;

const OFFERED: [Field; 2] = [Field(8, 8, 1, 8), Field(16, 1, 10, 1)];

const SEGMENT: [Field; 1] = [Field(0, 31, 17, 31)];

// The offer in a state.
const OFFER: usize = 21;

const OFFER_OCTETS: usize = 11;

// The octets of 00 and the state, and of 01 n m and the state.
const DONE_OCTETS: usize = 33;

const REFUSED_OCTETS: usize = 35;

// Whether a submission is this sender's, with the plan's segment at its index.
fn is_own(submission: &[u8], plan: &[u8]) -> bool {
    let index = be8(submission, INDEX) as u16;
    be64(submission, 0) == OWN && has_segment(plan, index, submission, &SEGMENT)
}

// Whether a submission is the offer that an answer has: flag, ticket, index in two octets.
fn is_offered(submission: &[u8], plan: &[u8], expected: &[u8]) -> bool {
    be8(expected, 0) == 1
        && be8(expected, 9) == 0
        && are_same(submission, expected, &OFFERED)
        && is_own(submission, plan)
}

// Whether what is offered now is the offer that an answer has.
fn is_offer(lent: &Lent, expected: &[u8]) -> bool {
    let mut submission = [0u8; SUBMISSION_OCTETS];
    match catkhize_sender_submission(&lent.record, &mut submission) {
        NOTHING => expected == [0u8; OFFER_OCTETS].as_slice(),
        DONE => is_offered(&submission, &lent.plan, expected),
        _ => false,
    }
}

fn is_machine(record: &[u8], expected: &[u8]) -> bool {
    if be16(expected, 0) == PEER_FAILED {
        are_same(record, expected, &PEER_STATE)
    } else {
        are_same(record, expected, &STATE)
    }
}

// Whether a record's state is the one that an answer has.
fn is_state(lent: &Lent, expected: &[u8]) -> bool {
    is_machine(&lent.record, expected) && is_offer(lent, from(expected, OFFER))
}

// The answer of a call on a sender.
pub fn is_called(code: u32, lent: &Lent, expected: &[u8]) -> bool {
    let state = if code == DONE { 1 } else { REFUSAL };
    is_answer(code, expected, DONE_OCTETS, REFUSED_OCTETS) && is_state(lent, from(expected, state))
}

// The answer of a case of sender.rec that opens no list. A call that is done answers the record's state.
pub fn sender_same(code: u32, lent: &Lent, expected: &[u8]) -> bool {
    is_called(code, lent, expected) && (code != DONE || are_same(&lent.record, &lent.answer, &SAID))
}
