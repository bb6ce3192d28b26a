// The receiver of one transaction: link/tsar/receiver.rs of the source. Its calls are in machine.
#![tactic(auto)]

ghost use Rattle.std.specs.Prelude.{◌≡◌};
ghost use Rattle.receiver.specs.Record.{taking, awaiting, receiving, complete};
ghost use Rattle.receiver.specs.declared.ReceiveError.TheVariants.{Codec};

use link::{HigherLayerProtocol, MobileIdentity};
use response::{Missing, Response, Status};
use tsar::{Error, OptionalServices, SegmentKind};
use words::Words;

pub mod checks;
pub mod faults;
pub mod kinds;
pub mod machine;
pub mod replies;
pub mod rules;
pub mod states;
pub mod turns;

// The highest reading of the clock: 2 to the 64 less 1.
const MAX_READING_MS: u64 = u64::MAX;

const LAST_SEQUENCE: u8 = 255;

// The store: 255 octets a slot, in sequence.
const SLOT_OCTETS: usize = 255;

const STORE_OCTETS: usize = 65_280;

#[derive(Clone, Copy, Debug, PartialEq, Eq)]
pub enum ReceiverState {
    AwaitingBegin,
    Receiving,
    Complete,
    Failed(Status),
    Expired,
    Canceled,
}

// What try_new fixes. The profile says how long the receiver waits; a record can have any number there, and one of neither profile is impossible.
#[derive(Clone, Copy, Debug, PartialEq, Eq)]
pub struct Terms {
    pub peer: MobileIdentity,
    pub protocol: HigherLayerProtocol,
    pub transaction_id: u8,
    pub version: u8,
    pub profile: u8,
    pub maximum_message_octets: usize,
}

#[derive(Clone, Copy, Debug, PartialEq, Eq)]
pub struct Progress {
    pub state: ReceiverState,
    pub services: OptionalServices,
    pub end_sequence: Option<u8>,
    pub message_length: Option<u16>,
    pub stored_octets: usize,
    pub deadline_monotonic_ms: Option<u64>,
    pub last_monotonic_ms: u64,
}

// The kind of a held segment, with its parameters.
#[derive(Clone, Copy, Debug, PartialEq, Eq)]
pub struct Slot {
    pub kind: SegmentKind,
}

// A slot is held where held marks it, and only there. Its record is then its kind and its data length; its data are in the lent store.
#[derive(Clone, Copy)]
pub struct Receiver {
    pub terms: Terms,
    pub progress: Progress,
    pub held: Words,
    pub lengths: [u16; 256],
    pub slots: [Slot; 256],
}

// The last four are document 01's 60, 61 and 62 and 2026-11's 64, which the source has not.
#[derive(Clone, Copy, Debug, PartialEq, Eq)]
pub enum ReceiveError {
    Identity,
    Service,
    TransactionId,
    Codec(Error),
    ClockRegression,
    TimeOverflow,
    UnparsedSegment,
    BeginRequired,
    TimerDue,
    Closed,
    Store,
    Output,
    ImpossibleState,
    Profile,
}

// A response with the figures of its map's missing entries, which stand beside it and not in it.
#[derive(Clone, Copy)]
pub struct Reported {
    pub response: Response,
    pub missing: Missing,
}

#[derive(Clone, Copy)]
pub struct Reception {
    pub response: Option<Reported>,
    pub message: Option<usize>,
}

// What a call gives: the answer, and the receiver as the call leaves it.
#[derive(Clone, Copy)]
pub struct Call<A> {
    pub answer: Result<A, ReceiveError>,
    pub receiver: Receiver,
}

impl ReceiverState {
    // The states that take segments.
    pub fn is_taking(self) -> bool
        ensures { result ≡ taking self }
    {
        matches!(
            self,
            ReceiverState::AwaitingBegin | ReceiverState::Receiving | ReceiverState::Complete
        )
    }

    pub fn is_awaiting(self) -> bool
        ensures { result ≡ awaiting self }
    {
        self == ReceiverState::AwaitingBegin
    }

    pub fn is_receiving(self) -> bool
        ensures { result ≡ receiving self }
    {
        self == ReceiverState::Receiving
    }

    pub fn is_complete(self) -> bool
        ensures { result ≡ complete self }
    {
        self == ReceiverState::Complete
    }
}

impl From<Error> for ReceiveError {
    ghost from_gives = { λ e r. r ≡ Codec e };

    fn from(error: Error) -> ReceiveError {
        ReceiveError::Codec(error)
    }
}

impl Receiver {
    pub fn state(self) -> ReceiverState
        ensures { result ≡ self.progress.state }
    {
        self.progress.state
    }

    pub fn deadline_monotonic_ms(self) -> Option<u64>
        ensures { result ≡ self.progress.deadline_monotonic_ms }
    {
        self.progress.deadline_monotonic_ms
    }

    pub fn stored_octets(self) -> usize
        ensures { result ≡ self.progress.stored_octets }
    {
        self.progress.stored_octets
    }
}
