// Plans: what a sender sends, and when a record is a plan of a message (40).
ghost use Rattle.std.specs.Prelude.{◌≡◌, length};
ghost use Rattle.std.specs.List.{list_all};
ghost use Rattle.segmentation.specs.Frozen.{no_head, no_plan, try_from_frozen};
ghost use Rattle.sender.specs.Record.{outline_of, plan_octets, plan_budget, plan_count, plan_window};
ghost use Rattle.sender.specs.TryNew.{same_plan, is_planned, proposing, is_frozen, same_head, same_frozen, is_empty, is_given, plan_segment};

use crate::{Outline, PV1, Plan, PlanForm};
use segmentation::frozen::{no_plan, try_from_frozen};
use segmentation::plan::plan_message;
use segmentation::{FrozenMessage, MessagePlan, PlannedPart, SegmentedMessage};
use tsar::{AcknowledgmentWindow, Segment, SegmentHead, SegmentKind};

// The empty head: those of a plan of no segments.
const NO_HEAD: SegmentHead = SegmentHead {
    segment: Segment {
        transaction_id: 0,
        sequence_number: 0,
        kind: SegmentKind::Begin {
            message_length: None,
            services: None,
        },
    },
    segment_data_length: 0,
};

// Whether two plans of the planners are the same.
fn same_plan(p: SegmentedMessage, q: SegmentedMessage) -> bool
    ensures { result ≡ same_plan p q }
{
    p == q
}

// Whether two plans of the frozen check are the same.
fn same_frozen(f: &FrozenMessage, g: &FrozenMessage) -> bool
    ensures { result ≡ same_frozen f.now g.now }
{
    f == g
}

fn is_no_head(head: SegmentHead) -> bool
    ensures { result ≡ same_head no_head head }
{
    NO_HEAD == head
}

fn are_no_heads(heads: &[SegmentHead]) -> bool
    ensures { result ≡ list_all (same_head no_head) heads.now }
{
    heads.iter().all(|head| is_no_head(*head))
}

// Whether it is the plan of no segments. No such plan is made for it: that would take most of the time of a new sender.
fn is_empty(f: &FrozenMessage) -> bool
    ensures { result ≡ is_empty f.now }
{
    if !are_no_heads(&f.heads) {
        return false;
    }
    if 0 != f.count {
        return false;
    }
    if 0 != f.message_octets {
        return false;
    }
    if 0 != f.payload_budget_octets {
        return false;
    }
    AcknowledgmentWindow::Prohibited == f.acknowledgment_window
}

// Whether one of the planners gives the plan for the message: plan_message's plan, or the same spread evenly.
fn is_planned(p: SegmentedMessage, message: &[u8]) -> bool
    ensures { result ≡ is_planned p (length message.now) }
{
    match plan_message(
        message,
        p.payload_budget_octets,
        p.transaction_id,
        p.acknowledgment_window,
        PV1,
        p.payload_budget_octets,
    ) {
        Ok(MessagePlan::Segmented(q)) => same_plan(q, p) || same_plan(q.evened(), p),
        _ => false,
    }
}

// Whether the frozen check gives the plan for the message, proposed by itself.
fn is_frozen(f: FrozenMessage, message: &[u8]) -> bool
    ensures { result ≡ is_frozen (try_from_frozen (proposing f message.now)) f }
{
    let checked = try_from_frozen(
        f.heads,
        f.count,
        message,
        message,
        f.payload_budget_octets,
        PV1,
        f.payload_budget_octets,
    );
    checked.answer.is_ok() && same_frozen(&checked.plan, &f)
}

impl Plan {
    // A plan that a planner gave.
    pub fn planned(p: SegmentedMessage) -> Plan
        ensures { result ≡ record { form = PlanForm.Planned p; frozen = no_plan } }
    {
        Plan {
            form: PlanForm::Planned(p),
            frozen: no_plan(),
        }
    }

    // A plan that the frozen check gave.
    pub fn frozen(f: FrozenMessage) -> Plan
        ensures { result ≡ record { form = PlanForm.Frozen; frozen = f } }
    {
        Plan {
            form: PlanForm::Frozen,
            frozen: f,
        }
    }

    // What the calls read of it, beside the profile.
    pub(crate) fn outline(&self, profile: u8) -> Outline
        ensures { result ≡ outline_of profile self.now }
    {
        match self.form {
            PlanForm::Planned(p) => Outline {
                count: p.count,
                acknowledgment_window: p.acknowledgment_window,
                transaction_id: p.transaction_id,
                profile,
            },
            PlanForm::Frozen => Outline {
                count: self.frozen.count,
                acknowledgment_window: self.frozen.acknowledgment_window,
                transaction_id: self.frozen.heads[0].segment.transaction_id,
                profile,
            },
        }
    }

    pub fn message_octets(self) -> usize
        ensures { result ≡ plan_octets self }
    {
        match self.form {
            PlanForm::Planned(p) => p.message_octets,
            PlanForm::Frozen => self.frozen.message_octets,
        }
    }

    pub fn payload_budget_octets(self) -> usize
        ensures { result ≡ plan_budget self }
    {
        match self.form {
            PlanForm::Planned(p) => p.payload_budget_octets,
            PlanForm::Frozen => self.frozen.payload_budget_octets,
        }
    }

    pub fn segment_count(self) -> usize
        ensures { result ≡ plan_count self }
    {
        match self.form {
            PlanForm::Planned(p) => p.count,
            PlanForm::Frozen => self.frozen.count,
        }
    }

    pub fn acknowledgment_window(self) -> AcknowledgmentWindow
        ensures { result ≡ plan_window self }
    {
        match self.form {
            PlanForm::Planned(p) => p.acknowledgment_window,
            PlanForm::Frozen => self.frozen.acknowledgment_window,
        }
    }

    // Segment i.
    pub fn segment(self, index: u8) -> Option<PlannedPart>
        ensures { result ≡ plan_segment self index }
    {
        match self.form {
            PlanForm::Planned(p) => p.segment(usize::from(index)),
            PlanForm::Frozen => self.frozen.segment(usize::from(index)),
        }
    }

    // Whether a planner or the frozen check gives it for the message (40).
    #[tactic(auto, unfolding(crate::specs::TryNew::is_given))]
    pub(crate) fn is_given(self, message: &[u8]) -> bool
        ensures { result ≡ is_given self message.now }
    {
        match self.form {
            PlanForm::Planned(p) => is_planned(p, message) && is_empty(&self.frozen),
            PlanForm::Frozen => is_frozen(self.frozen, message),
        }
    }
}
