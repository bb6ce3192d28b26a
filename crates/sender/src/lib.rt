// The sender of one transaction: link/tsar/sender.rs of the source.
#![tactic(auto)]

ghost use Rattle.std.specs.Prelude.{◌≡◌};
ghost use Rattle.sender.specs.Record.{interval_of, outline};
ghost use Rattle.sender.specs.Calls.{placed, advance_of, cancel_of, submitted_of, accepted_of, lower_failed_of, receive_response_of};
ghost use Rattle.sender.specs.TryNew.{first_offer, no_sender, try_new_of, offer_of};
ghost use Rattle.sender.specs.Says.{sent, turned_by};

use crate::state::Token;
use link::{HigherLayerProtocol, MobileIdentity};
use response::{Response, Status};
use segmentation::frozen::no_plan;
use segmentation::{FrozenMessage, PlannedPart, SegmentedMessage};
use tsar::{AcknowledgmentWindow, Error};
use words::Words;

mod checks;
mod course;
mod marks;
mod plans;
mod state;
mod steps;
mod turns;

// The lowest version: Pv1.
const PV1: u8 = 1;

const MIN_SEGMENTS: usize = 2;

const MAX_SEGMENTS: usize = 256;

// The reaction to each of the 14 statuses, by number: a table, as document 01 has it ('Our forms for each place').
const REACTIONS: [Reaction; 14] = [
    Reaction::Marks, // Continuing
    Reaction::Marks, // InterSegmentTimeout
    Reaction::Fails, // Aborted
    Reaction::Fails, // CrcSelectionUnsupported
    Reaction::Fails, // CompressionUnsupported
    Reaction::Fails, // EncryptionUnsupported
    Reaction::Fails, // AcknowledgmentWindowUnsupported
    Reaction::Fails, // ProtocolUnsupported
    Reaction::Fails, // MessageLengthError
    Reaction::Fails, // MessageTooLong
    Reaction::Completes, // Received
    Reaction::Fails, // DuplicateSizeMismatch
    Reaction::Resends, // CrcError
    Reaction::Fails, // MultipleServicesUnsupported
];

#[derive(Clone, Copy, Debug, PartialEq, Eq)]
pub enum Completion {
    LowerLayerAccepted,
    PeerReceived,
    ExceptionIntervalElapsed,
}

#[derive(Clone, Copy, Debug, PartialEq, Eq)]
pub enum LowerLayerFailure {
    Rejected { cause: u8 },
    TimedOut,
    Cancelled,
}

#[derive(Clone, Copy, Debug, PartialEq, Eq)]
pub enum SenderFailure {
    SegmentInterval,
    LowerLayer(LowerLayerFailure),
    Peer(Status),
}

#[derive(Clone, Copy, Debug, PartialEq, Eq)]
pub enum SenderState {
    Prepared,
    AwaitingAccept,
    AwaitingResponse,
    Complete(Completion),
    Failed(SenderFailure),
    Cancelled,
}

// A plan of a planner, or that the plan is the frozen one beside it. No Option: `given_iff` (specs/Exact) speaks of both variants.
#[derive(Clone, Copy)]
pub enum PlanForm {
    Planned(SegmentedMessage),
    Frozen,
}

// What a sender sends. Under Planned the frozen record is that of no segments, as Plan::planned gives it: beside another the plan is none (40).
#[derive(Clone, Copy)]
pub struct Plan {
    pub form: PlanForm,
    pub frozen: FrozenMessage,
}

// The submission that a sender offers or awaits word of: the source's Option<Submission>.
#[derive(Clone, Copy, Debug, PartialEq, Eq)]
pub struct Submission {
    pub ticket: u64,
    pub index: u8,
    pub prepared_monotonic_ms: u64,
}

// What try_new fixes, but for the plan. The profile says how long the sender waits; a record can have any number there, and one of neither profile is
// impossible. The sender number and a ticket are the source's token.
#[derive(Clone, Copy, Debug, PartialEq, Eq)]
pub struct Terms {
    pub peer: MobileIdentity,
    pub protocol: HigherLayerProtocol,
    pub version: u8,
    pub profile: u8,
    pub number: u64,
}

#[derive(Clone, Copy)]
pub struct Progress {
    pub state: SenderState,
    pub current: Option<Submission>,
    pub last_ticket: u64,
    pub submitted: Words,
    pub retry: Words,
    pub received: Words,
    pub deadline_monotonic_ms: Option<u64>,
    pub last_monotonic_ms: u64,
    pub layer3_submissions: u64,
}

#[derive(Clone, Copy)]
pub struct Sender {
    pub terms: Terms,
    pub progress: Progress,
    pub plan: Plan,
}

// The last three are document 01's 62 and 63 and 2026-11's 64, which the source has not.
#[derive(Clone, Copy, Debug, PartialEq, Eq)]
pub enum SenderError {
    Identity,
    Plan,
    Codec(Error),
    ClockRegression,
    TimeOverflow,
    CounterOverflow,
    Closed,
    StaleSubmission,
    NotSubmitted,
    ReceiptTime,
    Peer,
    Service,
    TransactionId,
    ResponsesProhibited,
    UnparsedResponse,
    UnsubmittedAcknowledgment,
    ContradictoryReceipt,
    ImpossibleState,
    Tickets,
    Profile,
}

impl From<Error> for SenderError {
    ghost use Rattle.sender.specs.declared.SenderError.TheVariants.{Codec};

    ghost from_gives = { λ e r. r ≡ Codec e };

    fn from(e: Error) -> SenderError {
        SenderError::Codec(e)
    }
}

// What a call gives: the answer, and the sender as the call leaves it.
#[derive(Clone, Copy)]
pub struct Sent {
    pub answer: Result<SenderState, SenderError>,
    pub sender: Sender,
}

// What the calls read of the plan, and the profile.
#[derive(Clone, Copy, Debug, PartialEq, Eq)]
pub struct Outline {
    pub count: usize,
    pub acknowledgment_window: AcknowledgmentWindow,
    pub transaction_id: u8,
    pub profile: u8,
}

// What one response brings.
#[derive(Clone, Copy)]
pub struct Arrival {
    pub peer: MobileIdentity,
    pub protocol: HigherLayerProtocol,
    pub response: Response,
    pub unparsed: usize,
    pub reading: u64,
}

// The reaction to a status.
#[derive(Clone, Copy, Debug, PartialEq, Eq)]
pub enum Reaction {
    Completes,
    Marks,
    Resends,
    Fails,
}

// What a call gives, of the progress alone.
#[derive(Clone, Copy)]
pub struct Turned {
    pub answer: Result<SenderState, SenderError>,
    pub progress: Progress,
}

// The submission that a Prepared sender offers: its token, its index and its segment.
#[derive(Clone, Copy, Debug, PartialEq, Eq)]
pub struct Offered {
    pub number: u64,
    pub ticket: u64,
    pub index: u8,
    pub part: PlannedPart,
}

// In the sender beside a refusal of try_new: cancelled, of no peer and no plan.
fn no_sender() -> Sender
    ensures { result ≡ no_sender }
{
    Sender {
        terms: Terms {
            peer: MobileIdentity {
                kind: 0,
                width: 0,
                value: 0,
            },
            protocol: HigherLayerProtocol::Segmented(0),
            version: 0,
            profile: 1,
            number: 0,
        },
        progress: Progress {
            state: SenderState::Cancelled,
            current: None,
            ..first_offer(0)
        },
        plan: Plan {
            form: PlanForm::Frozen,
            frozen: no_plan(),
        },
    }
}

// The first segment is offered under ticket 0.
fn first_offer(monotonic_ms: u64) -> Progress
    ensures { result ≡ first_offer monotonic_ms }
{
    Progress {
        state: SenderState::Prepared,
        current: Some(Submission {
            ticket: 0,
            index: 0,
            prepared_monotonic_ms: monotonic_ms,
        }),
        last_ticket: 0,
        submitted: Words::none(),
        retry: Words::none(),
        received: Words::none(),
        deadline_monotonic_ms: None,
        last_monotonic_ms: monotonic_ms,
        layer3_submissions: 0,
    }
}

impl Sender {
    // The message is the plan's, its segments joined; the number tells this sender from others.
    #[tactic(auto, unfolding(crate::specs::TryNew::try_new_of))]
    pub fn try_new(
        peer: MobileIdentity,
        protocol: HigherLayerProtocol,
        plan: Plan,
        message: &[u8],
        version: u8,
        profile: u8,
        number: u64,
        monotonic_ms: u64,
    ) -> Sent
        ensures { sent result ≡ try_new_of (record { peer = peer; protocol = protocol; version = version; profile = profile; number = number }) plan message.now monotonic_ms }
    {
        let terms = Terms {
            peer,
            protocol,
            version,
            profile,
            number,
        };
        if let Err(e) = terms.check(plan, message) {
            return Sent {
                answer: Err(e),
                sender: no_sender(),
            };
        }
        Sent {
            answer: Ok(SenderState::Prepared),
            sender: Sender {
                terms,
                progress: first_offer(monotonic_ms),
                plan,
            },
        }
    }

    pub fn state(self) -> SenderState
        ensures { result ≡ self.progress.state }
    {
        self.progress.state
    }

    pub fn deadline_monotonic_ms(self) -> Option<u64>
        ensures { result ≡ self.progress.deadline_monotonic_ms }
    {
        self.progress.deadline_monotonic_ms
    }

    pub fn layer3_submissions(self) -> u64
        ensures { result ≡ self.progress.layer3_submissions }
    {
        self.progress.layer3_submissions
    }

    // The submission that is offered: only while Prepared.
    #[tactic(auto, unfolding(crate::specs::TryNew::offer_of))]
    pub fn submission(self) -> Option<Offered>
        ensures { result ≡ offer_of self }
    {
        let x = self.progress.current?;
        if !self.progress.state.is_prepared() {
            return None;
        }
        let part = self.plan.segment(x.index)?;
        Some(Offered {
            number: self.terms.number,
            ticket: x.ticket,
            index: x.index,
            part,
        })
    }

    // What the calls read of the plan, and the profile.
    fn outline(&self) -> Outline
        ensures { result ≡ outline self.now }
    {
        self.plan.outline(self.terms.profile)
    }

    // What a call gave of the progress, in its sender.
    fn placed(self, turned: Result<Turned, SenderError>) -> Sent
        ensures { sent result ≡ placed self (turned_by self.progress turned) }
    {
        match turned {
            Err(e) => Sent {
                answer: Err(e),
                sender: self,
            },
            Ok(t) => Sent {
                answer: t.answer,
                sender: Sender {
                    progress: t.progress,
                    ..self
                },
            },
        }
    }

    #[tactic(auto, unfolding(crate::specs::Calls::advance_of))]
    pub fn advance(self, monotonic_ms: u64) -> Sent
        ensures { sent result ≡ advance_of self monotonic_ms }
    {
        self.placed(self.progress.advance(self.outline(), monotonic_ms))
    }

    #[tactic(auto, unfolding(crate::specs::Calls::cancel_of))]
    pub fn cancel(self, monotonic_ms: u64) -> Sent
        ensures { sent result ≡ cancel_of self monotonic_ms }
    {
        self.placed(self.progress.cancel(self.outline(), monotonic_ms))
    }

    // The token that the lower layer gives, beside the number of this sender.
    fn token(&self, number: u64, ticket: u64) -> Token
        ensures { result ≡ record { own = self.now.terms.number; number = number; ticket = ticket } }
    {
        Token {
            own: self.terms.number,
            number,
            ticket,
        }
    }

    // The actual hand-off to Layer 3, apart from its observation: preparing alone starts no deadline.
    #[tactic(auto, unfolding(crate::specs::Calls::submitted_of))]
    pub fn submitted(
        self,
        number: u64,
        ticket: u64,
        queued_monotonic_ms: u64,
        observed_monotonic_ms: u64,
    ) -> Sent
        ensures { sent result ≡ submitted_of (interval_of self) self number ticket queued_monotonic_ms observed_monotonic_ms }
    {
        self.placed(
            self.progress.submitted(
                self.token(number, ticket),
                self.outline(),
                queued_monotonic_ms,
                observed_monotonic_ms,
            ),
        )
    }

    // The matching R-DATA ACCEPT of the Layer 3 exchange.
    #[tactic(auto, unfolding(crate::specs::Calls::accepted_of))]
    pub fn accepted(self, number: u64, ticket: u64, monotonic_ms: u64) -> Sent
        ensures { sent result ≡ accepted_of self number ticket monotonic_ms }
    {
        self.placed(
            self.progress
                .accepted(self.token(number, ticket), self.outline(), monotonic_ms),
        )
    }

    #[tactic(auto, unfolding(crate::specs::Calls::lower_failed_of))]
    pub fn lower_failed(
        self,
        number: u64,
        ticket: u64,
        failure: LowerLayerFailure,
        monotonic_ms: u64,
    ) -> Sent
        ensures { sent result ≡ lower_failed_of self number ticket failure monotonic_ms }
    {
        self.placed(
            self.progress.lower_failed(
                self.token(number, ticket),
                self.outline(),
                failure,
                monotonic_ms,
            ),
        )
    }

    // A response to this peer and service: wire transactions do not name local generations.
    #[tactic(auto, unfolding(crate::specs::Calls::receive_response_of))]
    pub fn receive_response(
        self,
        peer: MobileIdentity,
        protocol: HigherLayerProtocol,
        response: Response,
        unparsed_bits: usize,
        monotonic_ms: u64,
    ) -> Sent
        ensures { sent result ≡ receive_response_of self (record { peer = peer; protocol = protocol; response = response; unparsed = unparsed_bits; reading = monotonic_ms }) }
    {
        let arrival = Arrival {
            peer,
            protocol,
            response,
            unparsed: unparsed_bits,
            reading: monotonic_ms,
        };
        self.placed(
            self.progress
                .receive_response(self.terms, self.outline(), arrival),
        )
    }
}
