// sender.rec, ops 30 and 36: try_new with the planner's plan and with a frozen one.
use crate::answer::is_refused;
use crate::case::Lent;
use crate::number::{be8, be64, from, front};
use crate::planning::{Asked, FROZEN_INPUT, MESSAGE_INPUT, Planner, SENDER_ENTRIES};
use crate::state::{OWN, is_called};
use crate::terms::{PROFILE_1, terms_at};
use codec_c::codes::{DONE, SHORT};
use sender_c::catkhize_sender_new;

// What follows the plan's input is peer, protocol, version, reading.
const VERSION: usize = 12;

const READING: usize = 13;

// What follows the plan's input.
pub fn after_plan(planner: Planner, input: &[u8]) -> &[u8] {
    match planner {
        Planner::Message => from(input, MESSAGE_INPUT),
        Planner::Frozen => from(input, FROZEN_INPUT),
    }
}

fn made(record: &mut [u8], input: &[u8], plan: &[u8], message: &[u8]) -> u32 {
    let t = terms_at(input);
    catkhize_sender_new(
        record,
        t.kind,
        t.width,
        t.value,
        t.protocol,
        t.octet,
        plan,
        message,
        be8(input, VERSION),
        PROFILE_1,
        OWN,
        be64(input, READING),
    )
}

// The call of a case of op 30 or 36. A list starts: before try_new there is no record. The plan's octets are the message of try_new. In every
// list a plan is given, so none is a number that no answer has.
pub fn open(planner: Planner, input: &[u8], lent: &mut Lent) -> u32 {
    let asked = Asked::new(planner, input, SENDER_ENTRIES);
    lent.record[0] = 0;
    if asked.make_plan(lent) != DONE {
        return SHORT;
    }
    made(
        &mut lent.record,
        after_plan(planner, input),
        &lent.plan,
        front(&lent.store, asked.octets_length()),
    )
}

// The answer of a case of op 30 or 36.
pub fn opening_same(code: u32, lent: &Lent, expected: &[u8]) -> bool {
    if code == DONE {
        is_called(code, lent, expected)
    } else {
        is_refused(code, expected)
    }
}
