// Planning a message's segments and checking a frozen plan: l3/tsar/segmentation.rs of the source. The planners are in plan, the check in frozen.
#![tactic(auto)]

ghost use Rattle.std.specs.Prelude.{◌≡◌};
ghost use Rattle.segmentation.specs.declared.PlanningError.TheVariants.{Codec};
ghost use Rattle.segmentation.specs.Frozen.{answer_of};

use tsar::{AcknowledgmentWindow, Error, SegmentHead};

pub mod frozen;
pub mod plan;

const OPTIONAL_WORD_OCTETS: usize = 2;

const FIRST_SEQUENCE_NUMBER: u8 = 0;

const MAX_SEGMENTS: usize = 256;

const MAX_SEGMENT_DATA_OCTETS: usize = 255;

const MAX_LENGTH_IE_MESSAGE_OCTETS: usize = 4095;

// A plan of either planner: capacities from which every segment follows, and no copy of the message. Where the capacities leave octets over, as
// many later segments, the first ones, have one octet more than the later capacity.
#[derive(Clone, Copy, Debug, PartialEq, Eq)]
pub struct SegmentedMessage {
    pub message_octets: usize,
    pub payload_budget_octets: usize,
    pub transaction_id: u8,
    pub acknowledgment_window: AcknowledgmentWindow,
    pub begin_octets: usize,
    pub later_capacity: usize,
    pub count: usize,
    pub states_length: bool,
}

// Segment i of a plan: its head, and where its data begin in the message.
#[derive(Clone, Copy, Debug, PartialEq, Eq)]
pub struct PlannedPart {
    pub head: SegmentHead,
    pub offset: usize,
}

// A plan that passed the frozen check: the heads, those at and past the count empty, in an array since there is no heap; the data stay with the
// caller.
#[derive(Clone, Copy, Debug, PartialEq, Eq)]
pub struct FrozenMessage {
    pub heads: [SegmentHead; 256],
    pub count: usize,
    pub message_octets: usize,
    pub payload_budget_octets: usize,
    pub acknowledgment_window: AcknowledgmentWindow,
}

// JoinedLength is 24, which the source has not: the joined data are not as long as the heads say. Nor has it ExceptionsWindow, 25: no planner makes a
// plan under this window.
#[derive(Clone, Copy, Debug, PartialEq, Eq)]
pub enum PlanningError {
    PayloadBudget,
    HeaderCapacity,
    SegmentCount,
    FrozenPlan,
    JoinedLength,
    ExceptionsWindow,
    Codec(Error),
}

impl From<Error> for PlanningError {
    ghost from_gives = { λ e p. p ≡ Codec e };

    fn from(error: Error) -> PlanningError {
        PlanningError::Codec(error)
    }
}

// What a planner answers. The source's enum: None would not say that the message goes as it is.
#[derive(Clone, Copy, Debug, PartialEq, Eq)]
pub enum MessagePlan {
    Unsegmented,
    Segmented(SegmentedMessage),
}

// An answer, and the plan beside it; refused, a plan of no segments (README, 'What the papers leave open').
#[derive(Clone, Copy, Debug, PartialEq, Eq)]
pub struct PlanAnswer<E> {
    pub answer: Result<(), E>,
    pub plan: FrozenMessage,
}

impl<E> From<Result<FrozenMessage, E>> for PlanAnswer<E> {
    ghost from_gives = { λ r a. a ≡ answer_of r };

    fn from(checked: Result<FrozenMessage, E>) -> PlanAnswer<E> {
        match checked {
            Ok(plan) => PlanAnswer {
                answer: Ok(()),
                plan,
            },
            Err(error) => PlanAnswer {
                answer: Err(error),
                plan: frozen::no_plan(),
            },
        }
    }
}

// What try_from_frozen gives.
pub type FrozenCheck = PlanAnswer<PlanningError>;
