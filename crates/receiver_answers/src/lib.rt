// What a receiver answers, in numbers and octets. Internal to the exports, as the crate image is.
#![tactic(auto)]

ghost use Rattle.std.specs.Prelude.{◌≡◌, ◌+◌, ◌≤◌, length};
ghost use Rattle.std.proofs.lemmas.List.Edits.{sets};
ghost use Rattle.codec_c.specs.Codes.{code_of};
ghost use Rattle.receiver.specs.Numbers.{receive_number};
ghost use Rattle.receiver.specs.Says.{receive_says, advance_says, cancel_says};
ghost use Rattle.receiver_answers.specs.Answers.{answer_code, reply_image, message_image, reception_image, reply_octets, reception_octets};

use codec_c::codes::{DONE, error_code as codec_code};
use image::numbers::{self, Number};
use image_link::{RESPONSE_OCTETS, put_response};
use receiver::{ReceiveError, Reception, Reported};

// The figures stand behind RESPONSE and its flag, in two octets each.
const FIGURES: usize = 1 + RESPONSE_OCTETS;

const FIGURE_OCTETS: usize = 2;

pub const REPLY_OCTETS: usize = FIGURES + 2 * FIGURE_OCTETS;

const MESSAGE_OCTETS: usize = 9;

pub const RECEPTION_OCTETS: usize = REPLY_OCTETS + MESSAGE_OCTETS;

// What a call gives that the receiver refuses: 256 * n for document 01's refusal n, or the codec's own.
pub fn error_code(e: ReceiveError) -> u32
    ensures { result ≡ code_of (receive_number e) }
{
    match e {
        ReceiveError::Identity => 256 * 30,
        ReceiveError::Service => 256 * 31,
        ReceiveError::TransactionId => 256 * 32,
        ReceiveError::Codec(c) => codec_code(c),
        ReceiveError::ClockRegression => 256 * 33,
        ReceiveError::TimeOverflow => 256 * 34,
        ReceiveError::UnparsedSegment => 256 * 35,
        ReceiveError::BeginRequired => 256 * 36,
        ReceiveError::TimerDue => 256 * 37,
        ReceiveError::Closed => 256 * 38,
        ReceiveError::Store => 256 * 60,
        ReceiveError::Output => 256 * 61,
        ReceiveError::ImpossibleState => 256 * 62,
        ReceiveError::Profile => 256 * 64,
    }
}

// The number of a cancel, and of a release.
pub fn cancel_code(a: Result<(), ReceiveError>) -> u32
    ensures { result ≡ answer_code (cancel_says a) }
{
    match a {
        Ok(()) => DONE,
        Err(e) => error_code(e),
    }
}

// REPLY at a place of octets: flag, RESPONSE, the figures of its map.
pub fn put_reply(dst: &mut [u8], at: usize, reply: Option<Reported>)
    requires { at + 46 ≤ length dst.old }
    ensures { (dst.new ≡ sets dst.old at (reply_image reply)) × (length (reply_image reply) ≡ 46) }
{
    match reply {
        None => {
            octets::put(dst, at, &[0; REPLY_OCTETS]);
        }
        Some(x) => {
            octets::put(dst, at, &[1]);
            put_response(dst, at + 1, x.response);
            numbers::put(dst, at + FIGURES, x.missing.count);
            numbers::put(dst, at + FIGURES + FIGURE_OCTETS, x.missing.first);
        }
    }
}

// A message that is handed over: flag, number of octets.
fn message_octets(m: Option<usize>) -> [u8; MESSAGE_OCTETS]
    ensures { result ≡ message_image m }
{
    match m {
        None => [0; MESSAGE_OCTETS],
        Some(count) => {
            let n: [u8; 8] = (count as u64).octets();
            [1, n[0], n[1], n[2], n[3], n[4], n[5], n[6], n[7]]
        }
    }
}

// RECEPTION at a place of octets.
pub fn put_received(dst: &mut [u8], at: usize, x: Reception)
    requires { at + 55 ≤ length dst.old }
    ensures { dst.new ≡ sets dst.old at (reception_image x.response x.message) }
{
    put_reply(dst, at, x.response);
    octets::put(dst, at + REPLY_OCTETS, &message_octets(x.message));
}

// Two exported answers of other widths (the C interface): a function over both would take what is written and its width, which is no plainer.
// What a receive answers, at the front of octets, and its number.
pub fn put_reception(dst: &mut [u8], a: Result<Reception, ReceiveError>) -> u32
    requires { 55 ≤ length dst.old }
    ensures { (result ≡ answer_code (receive_says a)) × (dst.new ≡ sets dst.old 0 (reception_octets (receive_says a))) }
{
    match a {
        Err(e) => error_code(e),
        Ok(x) => {
            put_received(dst, 0, x);
            DONE
        }
    }
}

// What an advance answers, at the front of octets, and its number.
pub fn put_advance(dst: &mut [u8], a: Result<Option<Reported>, ReceiveError>) -> u32
    requires { 46 ≤ length dst.old }
    ensures { (result ≡ answer_code (advance_says a)) × (dst.new ≡ sets dst.old 0 (reply_octets (advance_says a))) }
{
    match a {
        Err(e) => error_code(e),
        Ok(reply) => {
            put_reply(dst, 0, reply);
            DONE
        }
    }
}
