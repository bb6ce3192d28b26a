// Planning: plan_message, plan_even, and the segments of a plan.
ghost use Rattle.std.specs.Prelude.{◌≡◌, ◌≤◌, ◌<◌, IfSome, IsNone, None, length};
ghost use Rattle.tsar.specs.Rows.{first_of};
ghost use Rattle.segmentation.specs.Plan.{prohibited, is_exceptions, bare_octets, states_length_of, begin_header, begin_data, planned_services, bare_begin, plan_of, segmented, size_rows, plan_message, share_of, evened, even_message, cut_by, planned_by, part_start, part_capacity, part_length, planned_length, planned_kind, planned_head, longer, Sized, segment_at};

use crate::{
    FIRST_SEQUENCE_NUMBER, MAX_LENGTH_IE_MESSAGE_OCTETS, MAX_SEGMENT_DATA_OCTETS, MAX_SEGMENTS,
    MessagePlan, OPTIONAL_WORD_OCTETS, PlannedPart, PlanningError, SegmentedMessage,
};
use tsar::{
    AcknowledgmentWindow, Compression, CrcStatus, HEADER_OCTETS, OptionalServices, Segment,
    SegmentHead, SegmentKind,
};

fn is_prohibited(window: AcknowledgmentWindow) -> bool
    ensures { result ≡ prohibited window }
{
    window == AcknowledgmentWindow::Prohibited
}

fn is_exceptions(window: AcknowledgmentWindow) -> bool
    ensures { result ≡ is_exceptions window }
{
    window == AcknowledgmentWindow::Exceptions
}

// The services that Begin carries unless the window is Prohibited.
fn planned_services(acknowledgment_window: AcknowledgmentWindow) -> Option<OptionalServices>
    ensures { result ≡ planned_services acknowledgment_window }
{
    if is_prohibited(acknowledgment_window) {
        return None;
    }
    Some(OptionalServices {
        compression: Compression::None,
        acknowledgment_window,
        crc_status: CrcStatus::None,
    })
}

// What is planned: a message of some length, within a budget, in a transaction under a window.
#[derive(Clone, Copy)]
struct Request {
    message_octets: usize,
    payload_budget_octets: usize,
    transaction_id: u8,
    acknowledgment_window: AcknowledgmentWindow,
}

impl Request {
    // Begin without data and length.
    fn bare_begin(self) -> Segment
        ensures { result ≡ bare_begin self.transaction_id self.acknowledgment_window }
    {
        Segment {
            transaction_id: self.transaction_id,
            sequence_number: FIRST_SEQUENCE_NUMBER,
            kind: SegmentKind::Begin {
                message_length: None,
                services: planned_services(self.acknowledgment_window),
            },
        }
    }

    // Its octets.
    fn minimum_begin_octets(self) -> usize
        ensures { result ≡ bare_octets (prohibited self.acknowledgment_window) }
    {
        if is_prohibited(self.acknowledgment_window) {
            return HEADER_OCTETS;
        }
        HEADER_OCTETS + OPTIONAL_WORD_OCTETS
    }

    // Whether Begin states the length.
    fn states_length(self) -> bool
        ensures { result ≡ states_length_of self.message_octets self.payload_budget_octets (prohibited self.acknowledgment_window) }
    {
        self.message_octets <= MAX_LENGTH_IE_MESSAGE_OCTETS
            && self.minimum_begin_octets() + OPTIONAL_WORD_OCTETS < self.payload_budget_octets
    }

    // The octets of Begin beside its data.
    fn begin_header(self) -> usize
        ensures { result ≡ begin_header self.message_octets self.payload_budget_octets (prohibited self.acknowledgment_window) }
    {
        if self.states_length() {
            return self.minimum_begin_octets() + OPTIONAL_WORD_OCTETS;
        }
        self.minimum_begin_octets()
    }

    // The data of Begin, whose header the budget holds.
    fn first_capacity(self) -> usize
        requires { bare_octets (prohibited self.acknowledgment_window) ≤ self.payload_budget_octets }
        ensures { result ≡ begin_data self.message_octets self.payload_budget_octets (prohibited self.acknowledgment_window) }
    {
        MAX_SEGMENT_DATA_OCTETS.min(self.payload_budget_octets - self.begin_header())
    }

    // The plan of a message that the budget doesn't hold, from the test for HeaderCapacity on.
    fn plan(self) -> Result<SegmentedMessage, PlanningError>
        requires { self.payload_budget_octets < self.message_octets }
        ensures { cut_by result ≡ first_of (size_rows self.message_octets self.payload_budget_octets self.acknowledgment_window) (segmented (plan_of self.message_octets self.payload_budget_octets self.transaction_id self.acknowledgment_window)) }
    {
        if self.payload_budget_octets < self.minimum_begin_octets()
            || self.payload_budget_octets <= HEADER_OCTETS
        {
            return Err(PlanningError::HeaderCapacity);
        }
        let begin_octets = self.first_capacity();
        let later_capacity = MAX_SEGMENT_DATA_OCTETS.min(
            self.payload_budget_octets - HEADER_OCTETS,
        );
        let following = (self.message_octets - begin_octets).div_ceil(later_capacity);
        if MAX_SEGMENTS <= following {
            return Err(PlanningError::SegmentCount);
        }
        Ok(SegmentedMessage {
            message_octets: self.message_octets,
            payload_budget_octets: self.payload_budget_octets,
            transaction_id: self.transaction_id,
            acknowledgment_window: self.acknowledgment_window,
            begin_octets,
            later_capacity,
            count: 1 + following,
            states_length: self.states_length(),
        })
    }
}

// Plans the segments of a message of any length. The ceiling is the source's MAX_DATA_PAYLOAD_OCTETS.
pub fn plan_message(
    message: &[u8],
    payload_budget_octets: usize,
    transaction_id: u8,
    acknowledgment_window: AcknowledgmentWindow,
    version: u8,
    ceiling: usize,
) -> Result<MessagePlan, PlanningError>
    ensures { planned_by result ≡ plan_message (length message.now) payload_budget_octets transaction_id acknowledgment_window version ceiling }
{
    let request = Request {
        message_octets: message.len(),
        payload_budget_octets,
        transaction_id,
        acknowledgment_window,
    };
    if ceiling < payload_budget_octets {
        return Err(PlanningError::PayloadBudget);
    }
    if request.message_octets <= payload_budget_octets {
        return Ok(MessagePlan::Unsegmented);
    }
    if is_exceptions(acknowledgment_window) {
        return Err(PlanningError::ExceptionsWindow);
    }
    request.bare_begin().validate(0, version)?;
    Ok(MessagePlan::Segmented(request.plan()?))
}

// The plan of plan_message with the octets behind Begin's spread evenly over the later segments, the longer ones first.
pub fn plan_even(
    message: &[u8],
    payload_budget_octets: usize,
    transaction_id: u8,
    acknowledgment_window: AcknowledgmentWindow,
    version: u8,
    ceiling: usize,
) -> Result<MessagePlan, PlanningError>
    ensures { planned_by result ≡ even_message (length message.now) payload_budget_octets transaction_id acknowledgment_window version ceiling }
{
    let plan = plan_message(
        message,
        payload_budget_octets,
        transaction_id,
        acknowledgment_window,
        version,
        ceiling,
    )?;
    match plan {
        MessagePlan::Unsegmented => Ok(plan),
        MessagePlan::Segmented(p) => Ok(MessagePlan::Segmented(p.evened())),
    }
}

impl SegmentedMessage {
    // What each later segment has at least where the octets behind Begin's are spread evenly.
    fn share(self) -> usize
        ensures { result ≡ share_of self }
    {
        let following = self.count.saturating_sub(1);
        let rest = self.message_octets.saturating_sub(self.begin_octets);
        rest.checked_div(following).unwrap_or(0)
    }

    // The same Begin and count, the rest spread evenly.
    pub fn evened(self) -> SegmentedMessage
        ensures { result ≡ evened self }
    {
        SegmentedMessage {
            later_capacity: self.share(),
            ..self
        }
    }

    pub fn message_octets(self) -> usize
        ensures { result ≡ self.message_octets }
    {
        self.message_octets
    }

    pub fn payload_budget_octets(self) -> usize
        ensures { result ≡ self.payload_budget_octets }
    {
        self.payload_budget_octets
    }

    pub fn acknowledgment_window(self) -> AcknowledgmentWindow
        ensures { result ≡ self.acknowledgment_window }
    {
        self.acknowledgment_window
    }

    pub fn segment_count(self) -> usize
        ensures { result ≡ self.count }
    {
        self.count
    }

    // Segment i of any record: none past the count, where the count passes 256 or a capacity that of a segment, or where it would begin past the
    // message.
    pub fn segment(self, index: usize) -> Option<PlannedPart>
        ensures { result ≡ segment_at self index }
    {
        let part = Part::new(self, index)?;
        if MAX_SEGMENT_DATA_OCTETS < self.later_capacity + part.longer().min(1) {
            return None;
        }
        let offset = part.start();
        if self.message_octets < offset {
            return None;
        }
        Some(PlannedPart {
            head: part.head(),
            offset,
        })
    }
}

// Segment `index` of a plan whose count and capacities are those of segments.
#[derive(Clone, Copy)]
struct Part {
    plan: SegmentedMessage,
    index: u8,
    ghost sized: { Sized plan },
}

impl Part {
    // None past the count, or where the count or a capacity is none of segments.
    fn new(plan: SegmentedMessage, index: usize) -> Option<Part>
        ensures some { IfSome result (λ p. (p.plan ≡ plan) × (p.index ≡ index) × (index < plan.count)) }
        ensures none { IsNone result → segment_at plan index ≡ None }
    {
        if plan.count <= index
            || MAX_SEGMENTS < plan.count
            || MAX_SEGMENT_DATA_OCTETS < plan.begin_octets
            || MAX_SEGMENT_DATA_OCTETS < plan.later_capacity
        {
            return None;
        }
        Some(Part {
            plan,
            index: index as u8,
        })
    }

    // How many later segments have one octet more: what the capacities leave of the message.
    fn longer(self) -> usize
        ensures { result ≡ longer self.plan }
    {
        let plan = self.plan;
        let held = plan.begin_octets + (plan.count - 1) * plan.later_capacity;
        plan.message_octets.saturating_sub(held)
    }

    // Where its data begin in the message.
    fn start(self) -> usize
        ensures { result ≡ part_start self.plan self.index }
    {
        if self.index == 0 {
            return 0;
        }
        let before = usize::from(self.index) - 1;
        self.plan.begin_octets + before * self.plan.later_capacity + before.min(self.longer())
    }

    // How many octets it may have.
    fn capacity(self) -> usize
        ensures { result ≡ part_capacity self.plan self.index }
    {
        let index = usize::from(self.index);
        if index == 0 {
            return self.plan.begin_octets;
        }
        if self.longer() < index {
            return self.plan.later_capacity;
        }
        self.plan.later_capacity + 1
    }

    // How many it has: as far as the message goes.
    fn length(self) -> usize
        ensures { result ≡ part_length self.plan self.index }
    {
        let left = self.plan.message_octets.saturating_sub(self.start());
        self.capacity().min(left)
    }

    // The length that Begin states.
    fn message_length(self) -> Option<u16>
        ensures { result ≡ planned_length self.plan }
    {
        let octets = self.plan.message_octets;
        if self.plan.states_length && octets <= MAX_LENGTH_IE_MESSAGE_OCTETS {
            return Some(octets as u16);
        }
        None
    }

    fn kind(self) -> SegmentKind
        ensures { result ≡ planned_kind self.plan self.index }
    {
        if self.index == 0 {
            return SegmentKind::Begin {
                message_length: self.message_length(),
                services: planned_services(self.plan.acknowledgment_window),
            };
        }
        if usize::from(self.index) + 1 == self.plan.count {
            return SegmentKind::End {
                message_length: None,
                crc: None,
            };
        }
        SegmentKind::Continue {
            message_length: None,
        }
    }

    fn head(self) -> SegmentHead
        ensures { result ≡ planned_head self.plan self.index }
    {
        SegmentHead {
            segment: Segment {
                transaction_id: self.plan.transaction_id,
                sequence_number: self.index,
                kind: self.kind(),
            },
            segment_data_length: self.length(),
        }
    }
}
