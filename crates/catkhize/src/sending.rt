// The sender. Its record is SENDER, lent to each call.
// Each entry hands its arguments on under an exported name (the C interface), so the entries look alike.
ghost use Rattle.std.specs.Prelude.{◌≡◌, []};
ghost use Rattle.sender.specs.TryNew.{offer_of};
ghost use Rattle.sender_image.specs.Images.{record_of};
ghost use Rattle.sender_c.specs.Calls.{call, Met, state_tests, advance_step, cancel_step, submitted_step, accepted_step, failed_tests, failed_step, response_tests, arrival_of, response_step, new_tests, terms_of, new_step, NewMet, offer_tests, offer_call};

// Writes the sender of a plan and its message, which PLAN spells, to the record.
#[unsafe(no_mangle)]
pub extern "C" fn catkhize_sender_new(
    record: &mut [u8],
    peer_kind: u8,
    peer_width: u8,
    peer_value: u64,
    protocol: u8,
    protocol_octet: u8,
    plan: &[u8],
    message: &[u8],
    version: u8,
    profile: u8,
    number: u64,
    reading: u64,
) -> u32
    ensures { NewMet (new_tests «record».old protocol plan.now) «record».old (new_step (terms_of peer_kind peer_width peer_value protocol protocol_octet version profile number) plan.now message.now reading) (call result «record».new []) }
{
    sender_c::catkhize_sender_new(
        record,
        peer_kind,
        peer_width,
        peer_value,
        protocol,
        protocol_octet,
        plan,
        message,
        version,
        profile,
        number,
        reading,
    )
}

// Lets time pass. Answers STATE, as the next five do.
#[unsafe(no_mangle)]
pub extern "C" fn catkhize_sender_advance(record: &mut [u8], reading: u64, answer: &mut [u8]) -> u32
    ensures { Met (state_tests «record».old answer.old) «record».old answer.old (advance_step «record».old reading) (call result «record».new answer.new) }
{
    sender_c::catkhize_sender_advance(record, reading, answer)
}

// Ends an open sender.
#[unsafe(no_mangle)]
pub extern "C" fn catkhize_sender_cancel(record: &mut [u8], reading: u64, answer: &mut [u8]) -> u32
    ensures { Met (state_tests «record».old answer.old) «record».old answer.old (cancel_step «record».old reading) (call result «record».new answer.new) }
{
    sender_c::catkhize_sender_cancel(record, reading, answer)
}

// Layer 3 took the submission at the reading queued, which is seen at the reading observed.
#[unsafe(no_mangle)]
pub extern "C" fn catkhize_sender_submitted(
    record: &mut [u8],
    number: u64,
    ticket: u64,
    queued: u64,
    observed: u64,
    answer: &mut [u8],
) -> u32
    ensures { Met (state_tests «record».old answer.old) «record».old answer.old (submitted_step «record».old number ticket queued observed) (call result «record».new answer.new) }
{
    sender_c::catkhize_sender_submitted(record, number, ticket, queued, observed, answer)
}

// The peer's Layer 3 accepted the submission.
#[unsafe(no_mangle)]
pub extern "C" fn catkhize_sender_accepted(
    record: &mut [u8],
    number: u64,
    ticket: u64,
    reading: u64,
    answer: &mut [u8],
) -> u32
    ensures { Met (state_tests «record».old answer.old) «record».old answer.old (accepted_step «record».old number ticket reading) (call result «record».new answer.new) }
{
    sender_c::catkhize_sender_accepted(record, number, ticket, reading, answer)
}

// Layer 3 gave the submission up.
#[unsafe(no_mangle)]
pub extern "C" fn catkhize_sender_lower_failed(
    record: &mut [u8],
    number: u64,
    ticket: u64,
    failure: u8,
    cause: u8,
    reading: u64,
    answer: &mut [u8],
) -> u32
    ensures { Met (failed_tests «record».old failure answer.old) «record».old answer.old (failed_step «record».old number ticket failure cause reading) (call result «record».new answer.new) }
{
    sender_c::catkhize_sender_lower_failed(record, number, ticket, failure, cause, reading, answer)
}

// Takes the response of the peer that RESPONSE spells, with the number of bits that its decoding left.
#[unsafe(no_mangle)]
pub extern "C" fn catkhize_sender_receive_response(
    record: &mut [u8],
    peer_kind: u8,
    peer_width: u8,
    peer_value: u64,
    protocol: u8,
    protocol_octet: u8,
    response: &[u8],
    unparsed: u64,
    reading: u64,
    answer: &mut [u8],
) -> u32
    ensures { Met (response_tests «record».old protocol response.now answer.old) «record».old answer.old (response_step «record».old (arrival_of peer_kind peer_width peer_value protocol protocol_octet response.now unparsed reading)) (call result «record».new answer.new) }
{
    sender_c::catkhize_sender_receive_response(
        record,
        peer_kind,
        peer_width,
        peer_value,
        protocol,
        protocol_octet,
        response,
        unparsed,
        reading,
        answer,
    )
}

// What is offered to Layer 3 now: answers SUBMISSION, and changes nothing else.
#[unsafe(no_mangle)]
pub extern "C" fn catkhize_sender_submission(record: &[u8], answer: &mut [u8]) -> u32
    ensures { call result «record».now answer.new ≡ offer_call (offer_tests «record».now answer.old) «record».now answer.old (offer_of (record_of «record».now)) }
{
    sender_c::catkhize_sender_submission(record, answer)
}
