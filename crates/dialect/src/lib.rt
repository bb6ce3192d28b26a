// Two dialects of a frozen plan, and the converter between them: Begin alone states the message's length, or every segment does (2026-06).
#![tactic(auto)]

ghost use Rattle.std.specs.Prelude.{◌≡◌, ◌≤◌, false, map};
ghost use Rattle.std.specs.List.{list_all, list_any};
ghost use Rattle.tsar.specs.Rows.{refusal};
ghost use Rattle.tsar.specs.Writing.{length_in};
ghost use Rattle.segmentation.specs.Cutting.{states_other};
ghost use Rattle.segmentation.specs.Frozen.{head_at};
ghost use Rattle.dialect.specs.Convert.{other_dialect, states, later_fits, length_for, with_length, restated, passes_alone, plan_rows, restated_plan, plan_as, plan_by, converted_by, convert_of};

use segmentation::frozen::{length_in, try_from_frozen};
use segmentation::{FrozenMessage, PlanAnswer, PlanningError};
use tsar::{Segment, SegmentHead, SegmentKind};

// The dialect of a train.
#[derive(Clone, Copy, Debug, PartialEq, Eq)]
pub enum Dialect {
    BeginOnly,
    Every,
}

// Why a train is not converted. Planning is what the frozen check says of the train, and 20 of a converted segment; OtherPattern is 26, which the
// source has not: the train is not in the dialect being read.
#[derive(Clone, Copy, Debug, PartialEq, Eq)]
pub enum ConvertError {
    Planning(PlanningError),
    OtherPattern,
}

// What convert gives.
pub type Conversion = PlanAnswer<ConvertError>;

// Whether a segment states a length.
fn states_length(head: SegmentHead) -> bool
    ensures { result ≡ states head }
{
    length_in(head.segment.kind).is_some()
}

fn with_length(kind: SegmentKind, message_length: Option<u16>) -> SegmentKind
    ensures { result ≡ with_length message_length kind }
{
    match kind {
        SegmentKind::Begin { services, .. } => SegmentKind::Begin {
            message_length,
            services,
        },
        SegmentKind::Continue { .. } => SegmentKind::Continue { message_length },
        SegmentKind::End { crc, .. } => SegmentKind::End {
            message_length,
            crc,
        },
    }
}

impl Dialect {
    fn other(self) -> Dialect
        ensures { result ≡ other_dialect self }
    {
        match self {
            Dialect::BeginOnly => Dialect::Every,
            Dialect::Every => Dialect::BeginOnly,
        }
    }

    // Whether a later segment states a length, or none, as the dialect has it.
    fn fits(self, head: SegmentHead) -> bool
        ensures { result ≡ later_fits self head }
    {
        match self {
            Dialect::BeginOnly => !states_length(head),
            Dialect::Every => states_length(head),
        }
    }

    fn fits_all(self, later: &[SegmentHead]) -> bool
        ensures { result ≡ list_all (later_fits self) later.now }
    {
        later.iter().all(|head| self.fits(*head))
    }

    // The length that a later segment states.
    fn length(self, message_octets: u16) -> Option<u16>
        ensures { result ≡ length_for self message_octets }
    {
        match self {
            Dialect::BeginOnly => None,
            Dialect::Every => Some(message_octets),
        }
    }

    // A later segment as the dialect has it.
    fn restated(self, head: SegmentHead, message_octets: u16) -> SegmentHead
        ensures { result ≡ restated self message_octets head }
    {
        SegmentHead {
            segment: Segment {
                kind: with_length(head.segment.kind, self.length(message_octets)),
                ..head.segment
            },
            ..head
        }
    }

    fn restate_all(self, later: &mut [SegmentHead], message_octets: u16)
        ensures { later.new ≡ map (restated self message_octets) later.old }
    {
        for head in later.iter_mut() {
            *head = self.restated(*head, message_octets);
        }
    }

    // A plan that the frozen check gave in the other dialect, or why it is refused. Begin states the message's length.
    fn converted(self, mut plan: FrozenMessage) -> Result<FrozenMessage, ConvertError>
        requires counted { (1 ≤ plan.count) × (plan.count ≤ 256) }
        requires stated { states_other (length_in (head_at plan.heads 0).segment.kind) plan.message_octets ≡ false }
        ensures { plan_by result ≡ plan_as (refusal (plan_rows self plan)) (restated_plan (other_dialect self) plan) }
    {
        let count = plan.count;
        let message_octets = length_in(plan.heads[0].segment.kind).ok_or(
            ConvertError::OtherPattern,
        )?;
        if !self.fits_all(&plan.heads[1..count]) {
            return Err(ConvertError::OtherPattern);
        }
        self.other()
            .restate_all(&mut plan.heads[1..count], message_octets);
        if passes_budget(&plan.heads[..count], plan.payload_budget_octets) {
            return Err(ConvertError::Planning(PlanningError::PayloadBudget));
        }
        Ok(plan)
    }
}

// Whether a segment passes the budget. A data length is any number: a sum that is none of 64 bits passes every budget.
fn passes_alone(head: SegmentHead, payload_budget_octets: usize) -> bool
    ensures { result ≡ passes_alone payload_budget_octets head }
{
    let header = head.segment.kind.header_octets();
    header
        .checked_add(head.segment_data_length)
        .is_none_or(|octets| payload_budget_octets < octets)
}

// Whether one of them does.
fn passes_budget(heads: &[SegmentHead], payload_budget_octets: usize) -> bool
    ensures { result ≡ list_any (passes_alone payload_budget_octets) heads.now }
{
    heads
        .iter()
        .any(|head| passes_alone(*head, payload_budget_octets))
}

// Converts a train that passes the frozen check, and is in the dialect being read, into the other dialect.
pub fn convert(
    heads: [SegmentHead; 256],
    count: usize,
    joined: &[u8],
    message: &[u8],
    payload_budget_octets: usize,
    version: u8,
    ceiling: usize,
    read: Dialect,
) -> Conversion
    ensures { converted_by result ≡ convert_of read (record { heads = heads; count = count; joined = joined.now; message = message.now; budget = payload_budget_octets; version = version; ceiling = ceiling }) }
{
    let check = try_from_frozen(
        heads,
        count,
        joined,
        message,
        payload_budget_octets,
        version,
        ceiling,
    );
    Conversion::from(match check.answer {
        Ok(()) => read.converted(check.plan),
        Err(error) => Err(ConvertError::Planning(error)),
    })
}
