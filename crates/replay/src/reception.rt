// receiver.rec: the answers of the calls, and the receiver's state after them.
ghost use Rattle.std.specs.Prelude.{◌≤◌};

use crate::answer::{REFUSAL, is_answer};
use crate::case::Lent;
use crate::number::{Field, are_same, be8, be32, from, front, octets_at, part};
use crate::pattern::{FILL, NO_OCTETS, adler};
use crate::receiving::Call;
use codec_c::codes::DONE;

// REPLY: its map.
const MAP: usize = 5;

pub const MAP_OCTETS: usize = 32;

const WORD_OCTETS: usize = 8;

// RECEPTION and REPLY in an answer, but for the map, and for its figures, which the list has not: response up to the map, support list; message and its length, whose sum stands behind.
const REPLY: [Field; 2] = [Field(0, 5, 0, 5), Field(37, 5, 37, 5)];

const MESSAGE: [Field; 2] = [Field(46, 1, 42, 1), Field(47, 8, 43, 4)];

const MESSAGE_FLAG: usize = 42;

const MESSAGE_LENGTH: usize = 43;

const MESSAGE_SUM: usize = 47;

// RECEIVER in an answer: state and status, deadline, stored octets.
const STATE: [Field; 3] = [Field(24, 2, 0, 2), Field(42, 9, 2, 9), Field(34, 8, 11, 4)];

// The octets of an answer where the call is done, up to the state, and with it where it is refused.
const RECEIVED: usize = 52;

const ADVANCED: usize = 43;

const CANCELED: usize = 1;

const STATE_OCTETS: usize = 15;

const REFUSED: usize = 18;

// The octets of the store that a receiver may change, and those past them.
const STORE_OCTETS: usize = 65_280;

const PAST_OCTETS: usize = 720;

// A map that stands in four words as the list has it, or one of the list in words: the octets of each word in the other order.
pub fn turned(s: &[u8]) -> [u8; MAP_OCTETS] {
    let mut map = octets_at::<MAP_OCTETS>(s, 0);
    for word in map.chunks_exact_mut(WORD_OCTETS) {
        word.reverse();
    }
    map
}

// Whether a reply is the response that an answer has.
fn is_reply(reply: &[u8], expected: &[u8]) -> bool {
    let map = turned(from(expected, MAP));
    part(reply, MAP, MAP_OCTETS) == map.as_slice() && are_same(reply, expected, &REPLY)
}

// The sum of the message in the output; 0 where there is none.
fn message_sum(expected: &[u8], output: &[u8]) -> u64 {
    if be8(expected, MESSAGE_FLAG) == 0 {
        return 0;
    }
    let n = be32(expected, MESSAGE_LENGTH) as usize;
    adler(NO_OCTETS, front(output, n))
}

// Whether a reception is the one that an answer has.
fn is_reception(reception: &[u8], output: &[u8], expected: &[u8]) -> bool {
    is_reply(reception, expected)
        && are_same(reception, expected, &MESSAGE)
        && message_sum(expected, output) == be32(expected, MESSAGE_SUM) as u64
}

// The answer of a call on a receiver, whose state stands behind n octets where the call is done, but for the octets between 00 and the state.
fn is_called(code: u32, n: usize, record: &[u8], expected: &[u8]) -> bool
    requires { n ≤ RECEIVED }
{
    let state = if code == DONE { n } else { REFUSAL };
    is_answer(code, expected, n + STATE_OCTETS, REFUSED)
        && are_same(record, from(expected, state), &STATE)
}

// Whether no octet past the slots has changed since the list started.
fn is_kept(store: &[u8]) -> bool {
    from(store, STORE_OCTETS) == [FILL; PAST_OCTETS].as_slice()
}

impl Call {
    // The answer of a case of receiver.rec.
    pub fn is_same(self, code: u32, lent: &Lent, expected: &[u8]) -> bool {
        let answered = from(expected, 1);
        is_kept(&lent.store)
            && match self {
                Call::TryNew => is_answer(code, expected, 1, REFUSAL),
                Call::Receive => {
                    is_called(code, RECEIVED, &lent.record, expected)
                        && (code != DONE || is_reception(&lent.answer, &lent.output, answered))
                }
                Call::Advance => {
                    is_called(code, ADVANCED, &lent.record, expected)
                        && (code != DONE || is_reply(&lent.answer, answered))
                }
                Call::Cancel => is_called(code, CANCELED, &lent.record, expected),
            }
    }
}
