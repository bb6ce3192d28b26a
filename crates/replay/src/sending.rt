// sender.rec: the calls that are made on the record that the call before left.
use crate::case::Lent;
use crate::number::{be8, be16, be64, from, part};
use crate::reception::turned;
use crate::state::OWN;
use crate::terms::terms_at;
use sender_c::{
    catkhize_sender_accepted, catkhize_sender_advance, catkhize_sender_cancel,
    catkhize_sender_lower_failed, catkhize_sender_receive_response, catkhize_sender_submitted,
};

#[derive(Clone, Copy)]
pub enum Call {
    Advance,
    Submitted,
    Accepted,
    LowerFailed,
    ReceiveResponse,
    Cancel,
}

// The number of the sender that a foreign token belongs to.
const FOREIGN: u64 = 137;

// A token: ticket, foreign flag.
pub const FOREIGN_FLAG: usize = 8;

pub const TOKEN_OCTETS: usize = 9;

// After the token, submitted has queued and observed, accepted the reading, and lower_failed failure, cause and reading.
const OBSERVED: usize = 17;

pub const CAUSE: usize = 10;

const FAILED_AT: usize = 11;

// After peer and protocol, receive_response has response, number of unparsed bits and reading.
const RESPONSE: usize = 12;

const MAP: usize = 16;

const SUPPORT: usize = 48;

const UNPARSED: usize = 53;

const ANSWERED_AT: usize = 55;

// A response of the call.
pub const RESPONSE_OCTETS: usize = 41;

const CALL_MAP: usize = 4;

const CALL_SUPPORT: usize = 36;

// The number of the sender that a token belongs to.
fn number_of(input: &[u8]) -> u64 {
    if be8(input, FOREIGN_FLAG) == 0 {
        OWN
    } else {
        FOREIGN
    }
}

fn submitted(input: &[u8], lent: &mut Lent) -> u32 {
    catkhize_sender_submitted(
        &mut lent.record,
        number_of(input),
        be64(input, 0),
        be64(input, TOKEN_OCTETS),
        be64(input, OBSERVED),
        &mut lent.answer,
    )
}

fn accepted(input: &[u8], lent: &mut Lent) -> u32 {
    catkhize_sender_accepted(
        &mut lent.record,
        number_of(input),
        be64(input, 0),
        be64(input, TOKEN_OCTETS),
        &mut lent.answer,
    )
}

fn lower_failed(input: &[u8], lent: &mut Lent) -> u32 {
    catkhize_sender_lower_failed(
        &mut lent.record,
        number_of(input),
        be64(input, 0),
        be8(input, TOKEN_OCTETS),
        be8(input, CAUSE),
        be64(input, FAILED_AT),
        &mut lent.answer,
    )
}

// The response of op 35's input, as the call has it.
pub fn response_of(input: &[u8]) -> [u8; RESPONSE_OCTETS] {
    let mut response = [0u8; RESPONSE_OCTETS];
    let map = turned(from(input, MAP));
    octets::put(&mut response, 0, part(input, RESPONSE, CALL_MAP));
    octets::put(&mut response, CALL_MAP, &map);
    octets::put(&mut response, CALL_SUPPORT, from(input, SUPPORT));
    response
}

fn receive_response(input: &[u8], lent: &mut Lent) -> u32 {
    let t = terms_at(input);
    let response = response_of(input);
    catkhize_sender_receive_response(
        &mut lent.record,
        t.kind,
        t.width,
        t.value,
        t.protocol,
        t.octet,
        &response,
        be16(input, UNPARSED) as u64,
        be64(input, ANSWERED_AT),
        &mut lent.answer,
    )
}

impl Call {
    // The call of a case of sender.rec that opens no list.
    pub fn make(self, input: &[u8], lent: &mut Lent) -> u32 {
        match self {
            Call::Advance => catkhize_sender_advance(
                &mut lent.record,
                be64(input, 0),
                &mut lent.answer,
            ),
            Call::Submitted => submitted(input, lent),
            Call::Accepted => accepted(input, lent),
            Call::LowerFailed => lower_failed(input, lent),
            Call::ReceiveResponse => receive_response(input, lent),
            Call::Cancel => catkhize_sender_cancel(
                &mut lent.record,
                be64(input, 0),
                &mut lent.answer,
            ),
        }
    }
}
