// The octets of a state and an end, and what they are read as.
// The numbers are the layout's (the C interface), and an impl of From for a type of another crate cannot stand here.
ghost use Rattle.std.specs.Prelude.{◌≡◌};
ghost use Rattle.receiver_image.specs.Parts.{state_number, failure_number, state_image, state_from, end_image, end_from};

use image::cases::status_of;
use receiver::ReceiverState;

fn state_number(s: ReceiverState) -> u8
    ensures { result ≡ state_number s }
{
    match s {
        ReceiverState::AwaitingBegin => 0,
        ReceiverState::Receiving => 1,
        ReceiverState::Complete => 2,
        ReceiverState::Failed(_) => 3,
        ReceiverState::Expired => 4,
        ReceiverState::Canceled => 5,
    }
}

fn failure_number(s: ReceiverState) -> u8
    ensures { result ≡ failure_number s }
{
    match s {
        ReceiverState::Failed(status) => u8::from(status),
        _ => 0,
    }
}

#[tactic(auto, unfolding(crate::specs::Parts::state_image))]
pub fn state_octets(s: ReceiverState) -> [u8; 2]
    ensures { result ≡ state_image s }
{
    [state_number(s), failure_number(s)]
}

pub fn state_of(n: u8, status: u8) -> ReceiverState
    ensures { result ≡ state_from n status }
{
    match n {
        1 => ReceiverState::Receiving,
        2 => ReceiverState::Complete,
        3 => ReceiverState::Failed(status_of(status)),
        4 => ReceiverState::Expired,
        5 => ReceiverState::Canceled,
        _ => ReceiverState::AwaitingBegin,
    }
}

#[tactic(auto, unfolding(crate::specs::Parts::end_image))]
pub fn end_octets(e: Option<u8>) -> [u8; 2]
    ensures { result ≡ end_image e }
{
    [u8::from(e.is_some()), e.unwrap_or(0)]
}

pub fn end_of(flag: u8, s: u8) -> Option<u8>
    ensures { result ≡ end_from flag s }
{
    (flag != 0).then_some(s)
}
