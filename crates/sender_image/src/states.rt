// The layout STATE: the octets of a state, and the state that they are read as.
// The numbers are the layout's (the C interface), and an impl of From for a type of another crate cannot stand here.
ghost use Rattle.std.specs.Prelude.{◌≡◌};
ghost use Rattle.sender_image.specs.States.{completion_number, completion_of, lower_number, cause_or0, lower_of, failure_number, failure_lower, failure_value, failure_of, state_number, state_kind, state_lower, state_value, state_image, state_from};

use image::cases::status_of;
use sender::{Completion, LowerLayerFailure, SenderFailure, SenderState};

// A completion.

fn completion_number(c: Completion) -> u8
    ensures { result ≡ completion_number c }
{
    match c {
        Completion::LowerLayerAccepted => 0,
        Completion::PeerReceived => 1,
        Completion::ExceptionIntervalElapsed => 2,
    }
}

fn completion_of(n: u8) -> Completion
    ensures { result ≡ completion_of n }
{
    match n {
        1 => Completion::PeerReceived,
        2 => Completion::ExceptionIntervalElapsed,
        _ => Completion::LowerLayerAccepted,
    }
}

// A failure of the lower layer.

fn lower_number(f: LowerLayerFailure) -> u8
    ensures { result ≡ lower_number f }
{
    match f {
        LowerLayerFailure::Rejected { .. } => 0,
        LowerLayerFailure::TimedOut => 1,
        LowerLayerFailure::Cancelled => 2,
    }
}

fn cause_or_0(f: LowerLayerFailure) -> u8
    ensures { result ≡ cause_or0 f }
{
    match f {
        LowerLayerFailure::Rejected { cause } => cause,
        _ => 0,
    }
}

fn lower_of(n: u8, cause: u8) -> LowerLayerFailure
    ensures { result ≡ lower_of n cause }
{
    match n {
        1 => LowerLayerFailure::TimedOut,
        2 => LowerLayerFailure::Cancelled,
        _ => LowerLayerFailure::Rejected { cause },
    }
}

// A failure.

fn failure_number(f: SenderFailure) -> u8
    ensures { result ≡ failure_number f }
{
    match f {
        SenderFailure::SegmentInterval => 0,
        SenderFailure::LowerLayer(_) => 1,
        SenderFailure::Peer(_) => 2,
    }
}

fn failure_lower(f: SenderFailure) -> u8
    ensures { result ≡ failure_lower f }
{
    match f {
        SenderFailure::LowerLayer(lower) => lower_number(lower),
        _ => 0,
    }
}

fn failure_value(f: SenderFailure) -> u8
    ensures { result ≡ failure_value f }
{
    match f {
        SenderFailure::SegmentInterval => 0,
        SenderFailure::LowerLayer(lower) => cause_or_0(lower),
        SenderFailure::Peer(status) => u8::from(status),
    }
}

fn failure_of(kind: u8, lower: u8, value: u8) -> SenderFailure
    ensures { result ≡ failure_of kind lower value }
{
    match kind {
        1 => SenderFailure::LowerLayer(lower_of(lower, value)),
        2 => SenderFailure::Peer(status_of(value)),
        _ => SenderFailure::SegmentInterval,
    }
}

// A state.

fn state_number(s: SenderState) -> u8
    ensures { result ≡ state_number s }
{
    match s {
        SenderState::Prepared => 0,
        SenderState::AwaitingAccept => 1,
        SenderState::AwaitingResponse => 2,
        SenderState::Complete(_) => 3,
        SenderState::Failed(_) => 4,
        SenderState::Cancelled => 5,
    }
}

// Its completion, or the kind of its failure.
fn state_kind(s: SenderState) -> u8
    ensures { result ≡ state_kind s }
{
    match s {
        SenderState::Complete(completion) => completion_number(completion),
        SenderState::Failed(failure) => failure_number(failure),
        _ => 0,
    }
}

fn state_lower(s: SenderState) -> u8
    ensures { result ≡ state_lower s }
{
    match s {
        SenderState::Failed(failure) => failure_lower(failure),
        _ => 0,
    }
}

fn state_value(s: SenderState) -> u8
    ensures { result ≡ state_value s }
{
    match s {
        SenderState::Failed(failure) => failure_value(failure),
        _ => 0,
    }
}

#[tactic(auto, unfolding(crate::specs::States::state_image))]
pub fn state_octets(s: SenderState) -> [u8; 4]
    ensures { result ≡ state_image s }
{
    [
        state_number(s),
        state_kind(s),
        state_lower(s),
        state_value(s),
    ]
}

pub fn state_of(n: u8, kind: u8, lower: u8, value: u8) -> SenderState
    ensures { result ≡ state_from n kind lower value }
{
    match n {
        1 => SenderState::AwaitingAccept,
        2 => SenderState::AwaitingResponse,
        3 => SenderState::Complete(completion_of(kind)),
        4 => SenderState::Failed(failure_of(kind, lower, value)),
        5 => SenderState::Cancelled,
        _ => SenderState::Prepared,
    }
}
