// The exported receiver, on numbers and octet slices. Its record is RECEIVER, its store and output are lent to each call.
#![tactic(auto)]

ghost use Rattle.std.specs.Prelude.{◌≡◌, [], ◌≤◌, length};
ghost use Rattle.receiver.specs.Record.{interval_of};
ghost use Rattle.receiver.specs.Receive.{receive_of};
ghost use Rattle.receiver.specs.Advance.{advance_of, cancel_of, release_of};
ghost use Rattle.receiver.specs.Says.{made};
ghost use Rattle.receiver_answers.specs.Answers.{reply_octets, reception_octets, no_octets};
ghost use Rattle.receiver_c.specs.Calls.{call, read_of, Closes, new_gives, new_call, receive_call, advance_call, cancel_call, release_call};

use codec_c::codes::{DONE, MISSPELLED, SHORT, UNNAMED};
use image::cases::protocol_of;
use image::segments::{SEGMENT_OCTETS, get_segment};
use link::MobileIdentity;
use receiver::{Call, Receiver};
use receiver_answers::{
    RECEPTION_OCTETS, REPLY_OCTETS, cancel_code, error_code, put_advance, put_reception,
};
use receiver_image::{RECEIVER_OCTETS, get_receiver, put_receiver};

// The last protocol's number.
const LAST_PROTOCOL: u8 = 2;

// What try_new gave: a receiver that is made is put into record.
fn put_made(record: &mut [u8], given: Call<()>) -> u32
    requires { 3931 ≤ length «record».old }
    ensures { call result «record».new [] [] [] ≡ new_gives «record».old (made given) }
{
    match given.answer {
        Err(e) => error_code(e),
        Ok(()) => {
            put_receiver(record, given.receiver);
            DONE
        }
    }
}

// The receiver that the record spells, where the answer has room for as many octets, or the number that refuses the call.
// Compiled in, as get_receiver is.
#[inline(always)]
fn read_receiver(record: &[u8], answer: &[u8], octets: usize) -> Result<Receiver, u32>
    ensures { result ≡ read_of «record».now answer.now octets }
{
    if record.len() < RECEIVER_OCTETS || answer.len() < octets {
        return Err(SHORT);
    }
    get_receiver(record).ok_or(MISSPELLED)
}

// Makes a receiver of one transaction with a peer. The record is put into record.
#[tactic(auto, unfolding(crate::specs::Calls::new_call))]
pub fn catkhize_receiver_new(
    record: &mut [u8],
    peer_kind: u8,
    peer_width: u8,
    peer_value: u64,
    protocol: u8,
    protocol_octet: u8,
    transaction: u8,
    version: u8,
    profile: u8,
    maximum: u64,
    reading: u64,
) -> u32
    ensures { call result «record».new [] [] [] ≡ new_call «record».old peer_kind peer_width peer_value protocol protocol_octet transaction version profile maximum reading }
{
    if record.len() < RECEIVER_OCTETS {
        return SHORT;
    }
    if LAST_PROTOCOL < protocol {
        return UNNAMED;
    }
    let peer = MobileIdentity {
        kind: peer_kind,
        width: peer_width,
        value: peer_value,
    };
    let served = protocol_of(protocol, protocol_octet);
    let given = Receiver::try_new(
        peer,
        served,
        transaction,
        version,
        profile,
        maximum as usize,
        reading,
    );
    put_made(record, given)
}

// Takes the segment that SEGMENT spells, with its data. Answers RECEPTION.
#[tactic(auto, unfolding(crate::specs::Calls::receive_call))]
pub fn catkhize_receiver_receive(
    record: &mut [u8],
    store: &mut [u8],
    output: &mut [u8],
    peer_kind: u8,
    peer_width: u8,
    peer_value: u64,
    protocol: u8,
    protocol_octet: u8,
    segment: &[u8],
    data: &[u8],
    unparsed: u64,
    reading: u64,
    answer: &mut [u8],
) -> u32
    ensures { call result «record».new store.new output.new answer.new ≡ receive_call «record».old store.old output.old peer_kind peer_width peer_value protocol protocol_octet segment.now «data».now unparsed reading answer.old }
{
    if segment.len() < SEGMENT_OCTETS {
        return SHORT;
    }
    match read_receiver(record, answer, RECEPTION_OCTETS) {
        Err(code) => code,
        Ok(receiver) => {
            let Some(arrived) = get_segment(segment) else {
                return MISSPELLED;
            };
            if LAST_PROTOCOL < protocol {
                return UNNAMED;
            }
            let peer = MobileIdentity {
                kind: peer_kind,
                width: peer_width,
                value: peer_value,
            };
            let served = protocol_of(protocol, protocol_octet);
            let received = receiver.receive(
                peer,
                served,
                arrived,
                data,
                unparsed as usize,
                reading,
                store,
                output,
            );
            put_receiver(record, received.receiver);
            put_reception(answer, received.answer)
        }
    }
}

// Takes a reading of the clock, at which a deadline may be due. Answers REPLY.
#[tactic(auto, unfolding(crate::specs::Calls::advance_call))]
pub fn catkhize_receiver_advance(
    record: &mut [u8],
    store: &mut [u8],
    reading: u64,
    answer: &mut [u8],
) -> u32
    ensures { call result «record».new store.new [] answer.new ≡ advance_call «record».old store.old reading answer.old }
{
    match read_receiver(record, answer, REPLY_OCTETS) {
        Err(code) => code,
        Ok(receiver) => {
            let advanced = receiver.advance(reading, store);
            put_receiver(record, advanced.receiver);
            put_advance(answer, advanced.answer)
        }
    }
}

// The call of a step that answers by its number alone: it is handed the receiver that the record spells, and what it leaves is put back, also beside a
// refusal.
fn close<F: FnOnce(Receiver, u64, &mut [u8]) -> Call<()>>(
    record: &mut [u8],
    store: &mut [u8],
    reading: u64,
    step: F,
) -> u32
    requires { F.IsAlwaysCallable step }
    ensures { Closes (F.post step) «record».old store.old reading (call result «record».new store.new [] []) }
{
    match read_receiver(record, &[], 0) {
        Err(code) => code,
        Ok(receiver) => {
            let closed = step(receiver, reading, store);
            put_receiver(record, closed.receiver);
            cancel_code(closed.answer)
        }
    }
}

// Cancels the reception.
pub fn catkhize_receiver_cancel(record: &mut [u8], store: &mut [u8], reading: u64) -> u32
    ensures { call result «record».new store.new [] [] ≡ cancel_call «record».old store.old reading }
{
    close(record, store, reading, Receiver::cancel)
}

// Releases the store of a complete reception.
pub fn catkhize_receiver_release(record: &mut [u8], store: &mut [u8], reading: u64) -> u32
    ensures { call result «record».new store.new [] [] ≡ release_call «record».old store.old reading }
{
    close(record, store, reading, Receiver::release)
}
