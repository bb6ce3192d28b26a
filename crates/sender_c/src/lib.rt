// The sender's exports: its record in octets, what a call brings as numbers and octets, and its state as the answer.
#![tactic(auto)]

ghost use Rattle.std.specs.Prelude.{◌≡◌, [], ◌≤◌, length};
ghost use Rattle.std.proofs.lemmas.List.Edits.{sets};
ghost use Rattle.sender.specs.Says.{sender_says, sent};
ghost use Rattle.sender.specs.TryNew.{offer_of};
ghost use Rattle.sender_image.specs.Images.{record_of};
ghost use Rattle.sender_answers.specs.Answers.{answer_code};
ghost use Rattle.sender_c.specs.Calls.{call, state_octets, step_call, read_of, Steps, Moves, refused_by, Spelled, Met, state_tests, advance_step, cancel_step, submitted_step, accepted_step, failed_tests, failed_step, response_tests, arrival_of, response_step, new_tests, terms_of, new_step, made_call, MadeSpells, NewMet, offer_tests, offer_call};

use codec_c::codes::{DONE, MISSPELLED, SHORT, UNNAMED};
use image::cases::protocol_of;
use image_link::{RESPONSE_OCTETS, get_response};
use link::MobileIdentity;
use plan_image::{PLAN_OCTETS, get_plan};
use sender::{Sender, SenderError, SenderState, Sent};
use sender_answers::{SUBMISSION_OCTETS, error_code, failure_of, put_offer};
use sender_image::states::state_octets;
use sender_image::{SENDER_OCTETS, STATE_OCTETS, get_sender, put_sender};

// The last numbers that name a case.
const MAX_PROTOCOL: u8 = 2;

const MAX_FAILURE: u8 = 2;

// The sender that the record spells, where the answer has room for as many octets, or the number that refuses the call.
fn read_sender(record: &[u8], answer: &[u8], octets: usize) -> Result<Sender, u32>
    ensures { result ≡ read_of «record».now answer.now octets }
{
    if record.len() < SENDER_OCTETS || answer.len() < octets {
        return Err(SHORT);
    }
    get_sender(record).ok_or(MISSPELLED)
}

// What a call answers, and its number: nothing is written beside a refusal.
fn put_answer(answer: &mut [u8], a: Result<SenderState, SenderError>) -> u32
    ensures { (result ≡ answer_code (sender_says a)) × (answer.new ≡ sets answer.old 0 (state_octets (sender_says a))) }
{
    match a {
        Err(e) => error_code(e),
        Ok(s) => {
            octets::put(answer, 0, &state_octets(s));
            DONE
        }
    }
}

// What a call gave: its sender goes back into the record, also beside a refusal, and its state into the answer.
fn put_sent(record: &mut [u8], answer: &mut [u8], given: Sent) -> u32
    requires { 6131 ≤ length «record».old }
    ensures { (call result «record».new answer.new ≡ step_call «record».old answer.old (sent given)) × Spelled «record».new given.sender }
{
    let said = given.answer;
    put_sender(record, given.sender);
    put_answer(answer, said)
}

// The number of a call that CODE refuses behind the tests of the record and the answer.
fn refuse(record: &[u8], answer: &[u8], code: u32) -> u32
    ensures { Steps (refused_by code) «record».now answer.now (call result «record».now answer.now) }
{
    match read_sender(record, answer, STATE_OCTETS) {
        Err(earlier) => earlier,
        Ok(_) => code,
    }
}

// What a step gives. It has a frame of its own, so that the sender's copies in it lie on no stack beside those of reading and writing it.
#[inline(never)]
fn taken<F: FnOnce(Sender) -> Sent>(sender: Sender, step: F) -> Sent
    requires { F.IsAlwaysCallable step }
    ensures { F.post step sender result }
{
    step(sender)
}

// The call of a step that answers STATE: it is handed the sender that the record spells.
fn on_sender<F: FnOnce(Sender) -> Sent>(record: &mut [u8], answer: &mut [u8], step: F) -> u32
    requires { F.IsAlwaysCallable step }
    ensures { Moves (F.post step) «record».old answer.old (call result «record».new answer.new) }
{
    match read_sender(record, answer, STATE_OCTETS) {
        Err(code) => code,
        Ok(sender) => put_sent(record, answer, taken(sender, step)),
    }
}

// What try_new gave: a refusal leaves the record as it was.
fn put_made(record: &mut [u8], given: Sent) -> u32
    requires { 6131 ≤ length «record».old }
    ensures { (call result «record».new [] ≡ made_call «record».old (sent given)) × MadeSpells «record».new (sent given) }
{
    match given.answer {
        Err(e) => error_code(e),
        Ok(_) => {
            put_sender(record, given.sender);
            DONE
        }
    }
}

// Writes the sender of a plan and its message, which PLAN spells, to the record.
#[tactic(auto, unfolding(crate::specs::Calls::new_call))]
pub fn catkhize_sender_new(
    record: &mut [u8],
    peer_kind: u8,
    peer_width: u8,
    peer_value: u64,
    protocol: u8,
    protocol_octet: u8,
    plan: &[u8],
    message: &[u8],
    version: u8,
    profile: u8,
    number: u64,
    reading: u64,
) -> u32
    ensures { NewMet (new_tests «record».old protocol plan.now) «record».old (new_step (terms_of peer_kind peer_width peer_value protocol protocol_octet version profile number) plan.now message.now reading) (call result «record».new []) }
{
    if record.len() < SENDER_OCTETS || plan.len() < PLAN_OCTETS {
        return SHORT;
    }
    let Some(sent) = get_plan(plan) else {
        return MISSPELLED;
    };
    if MAX_PROTOCOL < protocol {
        return UNNAMED;
    }
    let peer = MobileIdentity {
        kind: peer_kind,
        width: peer_width,
        value: peer_value,
    };
    let service = protocol_of(protocol, protocol_octet);
    put_made(
        record,
        Sender::try_new(
            peer, service, sent, message, version, profile, number, reading,
        ),
    )
}

// Lets time pass. Answers STATE, as the next five do.
pub fn catkhize_sender_advance(record: &mut [u8], reading: u64, answer: &mut [u8]) -> u32
    ensures { Met (state_tests «record».old answer.old) «record».old answer.old (advance_step «record».old reading) (call result «record».new answer.new) }
{
    on_sender(record, answer, |s| s.advance(reading))
}

// Ends an open sender.
pub fn catkhize_sender_cancel(record: &mut [u8], reading: u64, answer: &mut [u8]) -> u32
    ensures { Met (state_tests «record».old answer.old) «record».old answer.old (cancel_step «record».old reading) (call result «record».new answer.new) }
{
    on_sender(record, answer, |s| s.cancel(reading))
}

// Layer 3 took the submission at the reading queued, which is seen at the reading observed.
pub fn catkhize_sender_submitted(
    record: &mut [u8],
    number: u64,
    ticket: u64,
    queued: u64,
    observed: u64,
    answer: &mut [u8],
) -> u32
    ensures { Met (state_tests «record».old answer.old) «record».old answer.old (submitted_step «record».old number ticket queued observed) (call result «record».new answer.new) }
{
    on_sender(record, answer, |s| {
        s.submitted(number, ticket, queued, observed)
    })
}

// The peer's Layer 3 accepted the submission.
pub fn catkhize_sender_accepted(
    record: &mut [u8],
    number: u64,
    ticket: u64,
    reading: u64,
    answer: &mut [u8],
) -> u32
    ensures { Met (state_tests «record».old answer.old) «record».old answer.old (accepted_step «record».old number ticket reading) (call result «record».new answer.new) }
{
    on_sender(record, answer, |s| { s.accepted(number, ticket, reading) })
}

// Layer 3 gave the submission up.
pub fn catkhize_sender_lower_failed(
    record: &mut [u8],
    number: u64,
    ticket: u64,
    failure: u8,
    cause: u8,
    reading: u64,
    answer: &mut [u8],
) -> u32
    ensures { Met (failed_tests «record».old failure answer.old) «record».old answer.old (failed_step «record».old number ticket failure cause reading) (call result «record».new answer.new) }
{
    if MAX_FAILURE < failure {
        return refuse(record, answer, UNNAMED);
    }
    on_sender(record, answer, |s| {
        s.lower_failed(number, ticket, failure_of(failure, cause), reading)
    })
}

// Takes the response of the peer that RESPONSE spells, with the number of bits that its decoding left.
pub fn catkhize_sender_receive_response(
    record: &mut [u8],
    peer_kind: u8,
    peer_width: u8,
    peer_value: u64,
    protocol: u8,
    protocol_octet: u8,
    response: &[u8],
    unparsed: u64,
    reading: u64,
    answer: &mut [u8],
) -> u32
    ensures { Met (response_tests «record».old protocol response.now answer.old) «record».old answer.old (response_step «record».old (arrival_of peer_kind peer_width peer_value protocol protocol_octet response.now unparsed reading)) (call result «record».new answer.new) }
{
    if response.len() < RESPONSE_OCTETS {
        return SHORT;
    }
    let Some(received) = get_response(response) else {
        return refuse(record, answer, MISSPELLED);
    };
    if MAX_PROTOCOL < protocol {
        return refuse(record, answer, UNNAMED);
    }
    let peer = MobileIdentity {
        kind: peer_kind,
        width: peer_width,
        value: peer_value,
    };
    let service = protocol_of(protocol, protocol_octet);
    on_sender(record, answer, |s| {
        s.receive_response(peer, service, received, unparsed as usize, reading)
    })
}

// What is offered to Layer 3 now: answers SUBMISSION, and changes nothing else.
#[tactic(auto, unfolding(crate::specs::Calls::offer_call))]
pub fn catkhize_sender_submission(record: &[u8], answer: &mut [u8]) -> u32
    ensures { call result «record».now answer.new ≡ offer_call (offer_tests «record».now answer.old) «record».now answer.old (offer_of (record_of «record».now)) }
{
    match read_sender(record, answer, SUBMISSION_OCTETS) {
        Err(code) => code,
        Ok(sender) => put_offer(answer, sender.submission()),
    }
}
