// Whether an input is one that RECORDED.md lays out for an op.
use crate::case::LONG;
use crate::entries::{has_entries, is_head};
use crate::number::{be8, be16, from};
use crate::op::Op;
use crate::opening::after_plan;
use crate::planning::{
    Asked, FROZEN_INPUT, MESSAGE_INPUT, Planner, SENDER_ENTRIES, WINDOW, message_length,
};
use crate::terms::PROTOCOL;
use crate::{codec, receiving, sending};
use image_link::get_response;

const LAST_PROTOCOL: u8 = 2;

const LAST_WINDOW: u8 = 5;

const LAST_FAILURE: u8 = 2;

// The length of op 02's data.
const DATA_LENGTH: usize = 18;

// The first octet of a sender's record.
const LAYOUT: u8 = 2;

// Lengths of inputs.
const TRY_NEW_INPUT: usize = 30;

const RECEIVE_INPUT: usize = 43;

const READING: usize = 8;

const PLANNED_INPUT: usize = 37;

const SUBMITTED_INPUT: usize = 25;

const ACCEPTED_INPUT: usize = 17;

const FAILED_INPUT: usize = 19;

const RESPONSE_INPUT: usize = 63;

// Whether octets begin with peer and protocol.
fn has_protocol(s: &[u8]) -> bool {
    be8(s, PROTOCOL) <= LAST_PROTOCOL
}

fn is_encode(input: &[u8]) -> bool {
    input.len() == codec::DATA + be16(input, DATA_LENGTH) as usize
        && be16(input, codec::ROOM) as usize <= codec::MAX_ROOM
        && is_head(from(input, codec::HEAD))
}

// An input that asks a planner for a plan: plan_message's of so many octets, or the frozen check's with its entries from a place on.
fn is_asked(planner: Planner, input: &[u8], octets: usize, entries_at: usize) -> bool {
    let asked = Asked::new(planner, input, entries_at);
    asked.octets_length() <= LONG
        && match asked {
            Asked::Message(_) => input.len() == octets && be8(input, WINDOW) <= LAST_WINDOW,
            Asked::Frozen { entries, .. } => {
                entries_at <= input.len()
                    && message_length(input) <= LONG
                    && has_entries(input, entries)
            }
        }
}

fn is_receive(input: &[u8]) -> bool {
    input.len() == RECEIVE_INPUT
        && be16(input, receiving::DATA_LENGTH) as usize <= receiving::MAX_DATA
        && has_protocol(input)
        && is_head(from(input, receiving::HEAD))
}

// An input of n octets that begins with a token.
fn has_token(input: &[u8], n: usize) -> bool {
    input.len() == n && be8(input, sending::FOREIGN_FLAG) <= 1
}

// The cause is 0 unless the failure is Rejected.
fn is_failed(input: &[u8]) -> bool {
    let failure = be8(input, sending::TOKEN_OCTETS);
    has_token(input, FAILED_INPUT)
        && (failure == 0 || failure <= LAST_FAILURE && be8(input, sending::CAUSE) == 0)
}

fn is_response(input: &[u8]) -> bool {
    input.len() == RESPONSE_INPUT
        && has_protocol(input)
        && get_response(&sending::response_of(input)).is_some()
}

// An input of a call on a receiver.
fn is_receiving(call: receiving::Call, input: &[u8]) -> bool {
    match call {
        receiving::Call::TryNew => input.len() == TRY_NEW_INPUT && has_protocol(input),
        receiving::Call::Receive => is_receive(input),
        receiving::Call::Advance | receiving::Call::Cancel => input.len() == READING,
    }
}

// An input of a call on a sender.
fn is_sending(call: sending::Call, input: &[u8]) -> bool {
    match call {
        sending::Call::Advance | sending::Call::Cancel => input.len() == READING,
        sending::Call::Submitted => has_token(input, SUBMITTED_INPUT),
        sending::Call::Accepted => has_token(input, ACCEPTED_INPUT),
        sending::Call::LowerFailed => is_failed(input),
        sending::Call::ReceiveResponse => is_response(input),
    }
}

// Whether an input is one of an op, on the record that the case before left. A call on a sender needs one: its record is spelled out.
pub fn is_input(op: Op, input: &[u8], record: &[u8]) -> bool {
    match op {
        Op::Codec(codec::Call::Decode) => !input.is_empty(),
        Op::Codec(codec::Call::Encode) => is_encode(input),
        Op::Plan(planner) => is_asked(planner, input, MESSAGE_INPUT, FROZEN_INPUT),
        Op::Receiver(call) => is_receiving(call, input),
        Op::NewSender(planner) => {
            has_protocol(after_plan(planner, input))
                && is_asked(planner, input, PLANNED_INPUT, SENDER_ENTRIES)
        }
        Op::Sender(call) => be8(record, 0) == LAYOUT && is_sending(call, input),
    }
}
