// The exported train: segments that stand one after another are decoded and received in one call.
#![tactic(auto)]

ghost use Rattle.std.specs.Prelude.{◌≡◌, ◌||◌, not, ◌+◌, ◌/◌, ◌≤◌, min, length, take, drop};
ghost use Rattle.std.proofs.lemmas.List.Edits.{sets};
ghost use Rattle.receiver.specs.Record.{taking as taking_of};
ghost use Rattle.train_c.specs.Walk.{carries as carries_of, segments_of, start_of, train_of, walked};
ghost use Rattle.train_c.specs.Calls.{call, train_image, Met};

use codec_c::codes::{DONE, MISSPELLED, SHORT, UNNAMED};
use image::cases::protocol_of;
use image::numbers;
use link::{HigherLayerProtocol, MobileIdentity};
use receiver::{ReceiveError, Receiver, ReceiverState, Reception};
use receiver_answers::{RECEPTION_OCTETS, error_code, put_received};
use receiver_image::{RECEIVER_OCTETS, get_receiver, put_receiver};
use tsar::HEADER_OCTETS;
use tsar::decode::decode_segment;

// TRAIN: its number of segments, and RECEPTION.
const COUNT_OCTETS: usize = 8;

const TRAIN_OCTETS: usize = COUNT_OCTETS + RECEPTION_OCTETS;

// Protocols are 0 to 2.
const LAST_PROTOCOL: u8 = 2;

// The octets of a length.
const LENGTH_OCTETS: usize = 2;

// Where a train ends: its number, how many segments were received, what the last of them was answered, and the receiver.
#[derive(Clone, Copy)]
struct Walked {
    code: u32,
    received: u64,
    reception: Reception,
    receiver: Receiver,
}

// n octets from `from` on, as far as they go.
fn part(octets: &[u8], from: usize, n: usize) -> &[u8]
    ensures { result.now ≡ take n (drop from octets.now) }
{
    let start = from.min(octets.len());
    let until = start + n.min(octets.len() - start);
    &octets[start..until]
}

// Where the octets of the next segment begin.
fn next(all: usize, at: usize, n: usize) -> usize
    ensures { result ≡ min (at + n) all }
{
    at.saturating_add(n).min(all)
}

// Whether a reception carries anything: a response, or a message.
fn carries(reception: Reception) -> bool
    ensures { result ≡ carries_of reception.response reception.message }
{
    reception.response.is_some() || reception.message.is_some()
}

// Whether a reception that leaves this state ends a train: it carries something, or the state takes no segments.
fn stops(reception: Reception, state: ReceiverState) -> bool
    ensures { result ≡ (carries_of reception.response reception.message || not (taking_of state)) }
{
    carries(reception) || !state.is_taking()
}

// The segments of a train one after another, up to the first that is refused, or whose reception ends the train.
fn walk(
    mut receiver: Receiver,
    peer: MobileIdentity,
    protocol: HigherLayerProtocol,
    octets: &[u8],
    lengths: &[u8],
    reading: u64,
    store: &mut [u8],
    output: &mut [u8],
) -> Walked
    ensures { walked result store.new output.new ≡ train_of peer protocol reading (segments_of (length lengths.now / 2) lengths.now octets.now) (start_of receiver store.old output.old) }
{
    let mut reception = Reception {
        response: None,
        message: None,
    };
    let count = lengths.len() / LENGTH_OCTETS;
    let mut at: usize = 0;
    for i in 0..count {
        let length: u16 = numbers::read(lengths, LENGTH_OCTETS * i);
        let n = usize::from(length);
        let segment = part(octets, at, n);
        match decode_segment(segment, receiver.terms.version) {
            Err(e) => {
                return Walked {
                    code: error_code(ReceiveError::Codec(e)),
                    received: i as u64,
                    reception,
                    receiver,
                };
            }
            Ok(decoded) => {
                let end = HEADER_OCTETS + decoded.head.segment_data_length;
                let out = receiver.receive(
                    peer,
                    protocol,
                    decoded.head.segment,
                    &segment[HEADER_OCTETS..end],
                    decoded.unparsed_octets,
                    reading,
                    store,
                    output,
                );
                receiver = out.receiver;
                match out.answer {
                    Err(e) => {
                        return Walked {
                            code: error_code(e),
                            received: i as u64,
                            reception,
                            receiver,
                        };
                    }
                    Ok(last) => reception = last,
                }
                at = next(octets.len(), at, n);
                if stops(reception, receiver.progress.state) {
                    return Walked {
                        code: DONE,
                        received: (i + 1) as u64,
                        reception,
                        receiver,
                    };
                }
            }
        }
    }
    Walked {
        code: DONE,
        received: count as u64,
        reception,
        receiver,
    }
}

// TRAIN at the front of octets: how many segments were received, and what the last of them was answered.
fn put_train(answer: &mut [u8], received: u64, reception: Reception)
    requires { 63 ≤ length answer.old }
    ensures { answer.new ≡ sets answer.old 0 (train_image received reception.response reception.message) }
{
    numbers::put(answer, 0, received);
    put_received(answer, COUNT_OCTETS, reception);
}

// The segments stand one after another in octets, and each two octets of lengths are the number of octets of one; an odd last octet of
// lengths is ignored. Each is decoded under the record's version and received, up to the first that is refused, which the call gives, or
// whose reception carries a response or a message or closes the receiver: then it gives 0, and the caller goes on with the segments that
// are left. The record then spells what the last call left, and the answer is TRAIN.
#[unsafe(no_mangle)]
pub extern "C" fn catkhize_receiver_train(
    record: &mut [u8],
    store: &mut [u8],
    output: &mut [u8],
    peer_kind: u8,
    peer_width: u8,
    peer_value: u64,
    protocol: u8,
    protocol_octet: u8,
    octets: &[u8],
    lengths: &[u8],
    reading: u64,
    answer: &mut [u8],
) -> u32
    ensures { Met (record { image = «record».old; store = store.old; output = output.old; peer = record { kind = peer_kind; width = peer_width; value = peer_value }; protocol = protocol; octet = protocol_octet; octets = octets.now; lengths = lengths.now; reading = reading; answer = answer.old }) (call result «record».new store.new output.new answer.new) }
{
    if record.len() < RECEIVER_OCTETS {
        return SHORT;
    }
    if answer.len() < TRAIN_OCTETS {
        return SHORT;
    }
    let Some(receiver) = get_receiver(record) else {
        return MISSPELLED;
    };
    if LAST_PROTOCOL < protocol {
        return UNNAMED;
    }
    let end = walk(
        receiver,
        MobileIdentity {
            kind: peer_kind,
            width: peer_width,
            value: peer_value,
        },
        protocol_of(protocol, protocol_octet),
        octets,
        lengths,
        reading,
        store,
        output,
    );
    put_receiver(record, end.receiver);
    put_train(answer, end.received, end.reception);
    end.code
}
