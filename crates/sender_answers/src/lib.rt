// What the sender's exports answer: the number of a call, SUBMISSION, and the failures of the lower layer by number.
#![tactic(auto)]

ghost use Rattle.std.specs.Prelude.{◌≡◌};
ghost use Rattle.std.proofs.lemmas.List.Edits.{sets};
ghost use Rattle.codec_c.specs.Codes.{code_of};
ghost use Rattle.sender.specs.Numbers.{sender_number};
ghost use Rattle.sender.specs.Says.{sender_says};
ghost use Rattle.sender_answers.specs.Answers.{answer_code, is_refused, submission_image, offer_code, offer_octets, failure_of};

use codec_c::codes::{DONE, NOTHING, error_code as codec_code};
use image::numbers;
use image::segments::put_head;
use sender::{LowerLayerFailure, Offered, SenderError, SenderState};

pub const SUBMISSION_OCTETS: usize = 48;

// Where the parts of SUBMISSION stand behind the sender number.
const TICKET: usize = 8;

const INDEX: usize = 16;

const HEAD: usize = 17;

const OFFSET: usize = 40;

// What a call gives that the sender refuses: 256 * n for document 01's refusal n, or the codec's own.
pub fn error_code(e: SenderError) -> u32
    ensures { result ≡ code_of (sender_number e) }
{
    match e {
        SenderError::Identity => 256 * 30,
        SenderError::Plan => 256 * 40,
        SenderError::Codec(c) => codec_code(c),
        SenderError::ClockRegression => 256 * 33,
        SenderError::TimeOverflow => 256 * 34,
        SenderError::CounterOverflow => 256 * 41,
        SenderError::Closed => 256 * 38,
        SenderError::StaleSubmission => 256 * 42,
        SenderError::NotSubmitted => 256 * 43,
        SenderError::ReceiptTime => 256 * 44,
        SenderError::Peer => 256 * 45,
        SenderError::Service => 256 * 31,
        SenderError::TransactionId => 256 * 32,
        SenderError::ResponsesProhibited => 256 * 46,
        SenderError::UnparsedResponse => 256 * 47,
        SenderError::UnsubmittedAcknowledgment => 256 * 48,
        SenderError::ContradictoryReceipt => 256 * 49,
        SenderError::ImpossibleState => 256 * 62,
        SenderError::Tickets => 256 * 63,
        SenderError::Profile => 256 * 64,
    }
}

// Whether a call was refused, and its number.
pub fn is_refused(a: Result<SenderState, SenderError>) -> bool
    ensures { result ≡ is_refused (sender_says a) }
{
    a.is_err()
}

pub fn answer_code(a: Result<SenderState, SenderError>) -> u32
    ensures { result ≡ answer_code (sender_says a) }
{
    match a {
        Ok(_) => DONE,
        Err(e) => error_code(e),
    }
}

// The failure of the lower layer that a number of the C interface names: the cause is read with Rejected alone.
pub fn failure_of(n: u8, cause: u8) -> LowerLayerFailure
    ensures { result ≡ failure_of n cause }
{
    match n {
        1 => LowerLayerFailure::TimedOut,
        2 => LowerLayerFailure::Cancelled,
        _ => LowerLayerFailure::Rejected { cause },
    }
}

// SUBMISSION, put at the front of octets, as far as they go.
fn put_submission(answer: &mut [u8], o: Offered)
    ensures { answer.new ≡ sets answer.old 0 (submission_image o) }
{
    let mut octets = [0u8; SUBMISSION_OCTETS];
    numbers::put(&mut octets, 0, o.number);
    numbers::put(&mut octets, TICKET, o.ticket);
    octets[INDEX] = o.index;
    put_head(&mut octets, HEAD, o.part.head);
    numbers::put(&mut octets, OFFSET, o.part.offset as u64);
    octets::put(answer, 0, &octets);
}

// What a sender offers, and the call's number.
pub fn put_offer(answer: &mut [u8], o: Option<Offered>) -> u32
    ensures { (result ≡ offer_code o) × (answer.new ≡ sets answer.old 0 (offer_octets o)) }
{
    let Some(offered) = o else {
        return NOTHING;
    };
    put_submission(answer, offered);
    DONE
}
