// The frozen check: try_from_frozen, and the segments of a plan that passed it.
ghost use Rattle.std.specs.Prelude.{◌≡◌, not, ◌&&◌, ◌++◌, ◌+◌, ◌≤◌, ◌<◌, length, ltb};
ghost use Rattle.tsar.specs.Rows.{refusal};
ghost use Rattle.tsar.specs.Writing.{length_in, codec_rows};
ghost use Rattle.segmentation.specs.Cutting.{services_or_default, compresses, selects_crc, plain_kind, states_other};
ghost use Rattle.segmentation.specs.Frozen.{head_at, data_before, placed, place_rows, cuts_here, segments_from, proposed_by, kept_heads, no_plan, try_from_frozen, answer_by, plan_by, checked_by, start_within, frozen_segment_at};

use crate::{
    FIRST_SEQUENCE_NUMBER, FrozenCheck, FrozenMessage, MAX_SEGMENTS, PlannedPart, PlanningError,
};
use tsar::{
    AcknowledgmentWindow, Compression, CrcStatus, OptionalServices, Segment, SegmentHead,
    SegmentKind,
};

// The least number of segments.
const MIN_SEGMENTS: usize = 2;

// The empty head: the zero value of its type.
const NO_HEAD: SegmentHead = SegmentHead {
    segment: Segment {
        transaction_id: 0,
        sequence_number: FIRST_SEQUENCE_NUMBER,
        kind: SegmentKind::Begin {
            message_length: None,
            services: None,
        },
    },
    segment_data_length: 0,
};

fn services_or_default(services: Option<OptionalServices>) -> OptionalServices
    ensures { result ≡ services_or_default services }
{
    services.unwrap_or_default()
}

// Whether services have neither compression nor a CRC.
fn are_plain(services: OptionalServices) -> bool
    ensures { result ≡ (not (compresses services.compression) && not (selects_crc services.crc_status)) }
{
    services.compression == Compression::None && services.crc_status == CrcStatus::None
}

fn is_plain(kind: SegmentKind) -> bool
    ensures { result ≡ plain_kind kind }
{
    match kind {
        SegmentKind::Begin { services, .. } => are_plain(services_or_default(services)),
        SegmentKind::Continue { .. } => true,
        SegmentKind::End { crc, .. } => crc.is_none(),
    }
}

// Whether a kind may stand at a place: Begin, Continues, End.
fn is_placed(kind: SegmentKind, index: usize, count: usize) -> bool
    requires { index < count }
    ensures { result ≡ placed count index kind }
{
    match kind {
        SegmentKind::Begin { .. } => index == 0,
        SegmentKind::Continue { .. } => 0 < index && index + 1 != count,
        SegmentKind::End { .. } => 0 < index && index + 1 == count,
    }
}

// The length that a segment states.
pub fn length_in(kind: SegmentKind) -> Option<u16>
    ensures { result ≡ length_in kind }
{
    kind.message_length()
}

fn states_other(message_length: Option<u16>, message_octets: usize) -> bool
    ensures { result ≡ states_other message_length message_octets }
{
    message_length.is_some_and(|n| usize::from(n) != message_octets)
}

// Where the data begin that come behind those of some heads. Lengths are any numbers, so none is added that passes the limit.
fn data_start(before: &[SegmentHead], limit: usize) -> Option<usize>
    ensures { result ≡ start_within before.now (length before.now) limit }
{
    let mut offset: usize = 0;
    for head in before {
        if limit - offset < head.segment_data_length {
            return None;
        }
        offset += head.segment_data_length;
    }
    Some(offset)
}

// The heads of a plan: these, and behind them empty ones.
fn kept_heads(heads: &[SegmentHead]) -> [SegmentHead; MAX_SEGMENTS]
    requires { length heads.now ≤ 256 }
    ensures { result ≡ kept_heads heads.now (length heads.now) }
{
    let mut kept = [NO_HEAD; MAX_SEGMENTS];
    kept[..heads.len()].copy_from_slice(heads);
    kept
}

// The plan of no segments.
pub fn no_plan() -> FrozenMessage
    ensures { result ≡ no_plan }
{
    FrozenMessage {
        heads: [NO_HEAD; MAX_SEGMENTS],
        count: 0,
        message_octets: 0,
        payload_budget_octets: 0,
        acknowledgment_window: AcknowledgmentWindow::Prohibited,
    }
}

// A train that is proposed: its heads, their data joined, the message, what a segment may have, the version.
#[derive(Clone, Copy)]
struct Proposed<'a> {
    heads: &'a [SegmentHead],
    joined: &'a [u8],
    message: &'a [u8],
    payload_budget_octets: usize,
    version: u8,
}

impl Proposed<'_> {
    // A head that the codec takes, beside its data: its octets, its number, its kind, the length that it states.
    fn check_place(self, index: usize, head: SegmentHead) -> Result<(), PlanningError>
        requires { (index < length self.heads.now) × (head.segment_data_length ≤ 255) }
        ensures { answer_by result ≡ refusal (place_rows self.entry.payload_budget_octets (head_at self.entry.heads.now 0).segment.transaction_id (length self.entry.heads.now) (length self.entry.message.now) head index) }
    {
        let kind = head.segment.kind;
        if self.payload_budget_octets < kind.header_octets() + head.segment_data_length {
            return Err(PlanningError::PayloadBudget);
        }
        if head.segment.transaction_id != self.heads[0].segment.transaction_id
            || usize::from(head.segment.sequence_number) != index
            || !is_placed(kind, index, self.heads.len())
            || !is_plain(kind)
            || states_other(length_in(kind), self.message.len())
        {
            return Err(PlanningError::FrozenPlan);
        }
        Ok(())
    }

    // A head beside its data: codec, then its place.
    fn check_head(self, index: usize, head: SegmentHead) -> Result<(), PlanningError>
        requires { index < length self.heads.now }
        ensures { answer_by result ≡ refusal (codec_rows self.entry.version head.segment head.segment_data_length ++ place_rows self.entry.payload_budget_octets (head_at self.entry.heads.now 0).segment.transaction_id (length self.entry.heads.now) (length self.entry.message.now) head index) }
    {
        head.segment
            .validate(head.segment_data_length, self.version)?;
        self.check_place(index, head)
    }

    // Whether n octets of the joined data are the message's at the same place.
    fn cuts_here(self, offset: usize, n: usize) -> bool
        requires { offset + n ≤ length self.joined.now }
        ensures { result ≡ (not (ltb (length self.entry.message.now) (offset + n)) && cuts_here self.entry.joined.now self.entry.message.now offset n) }
    {
        let end = offset + n;
        if self.message.len() < end {
            return false;
        }
        octets::same(&self.joined[offset..end], &self.message[offset..end])
    }

    // Segment by segment: each head, then its data; at the end no octet of the message is left.
    fn check_segments(self) -> Result<(), PlanningError>
        requires { length self.joined.now ≡ data_before self.heads.now (length self.heads.now) }
        ensures { answer_by result ≡ segments_from (proposed_by self.entry.heads.now self.entry.joined.now self.entry.message.now self.entry.payload_budget_octets self.entry.version) (length self.entry.heads.now) 0 }
    {
        let mut offset: usize = 0;
        for (index, head) in self.heads.iter().enumerate() {
            self.check_head(index, *head)?;
            if !self.cuts_here(offset, head.segment_data_length) {
                return Err(PlanningError::FrozenPlan);
            }
            offset += head.segment_data_length;
        }
        if offset != self.message.len() {
            return Err(PlanningError::FrozenPlan);
        }
        Ok(())
    }

    // The plan of the first heads, or why it is refused.
    fn check(self, count: usize, ceiling: usize) -> Result<FrozenMessage, PlanningError>
        requires { length self.heads.now ≡ 256 }
        ensures { plan_by result ≡ try_from_frozen (record { heads = self.entry.heads.now; count = count; joined = self.entry.joined.now; message = self.entry.message.now; budget = self.entry.payload_budget_octets; version = self.entry.version; ceiling = ceiling }) }
    {
        if ceiling < self.payload_budget_octets {
            return Err(PlanningError::PayloadBudget);
        }
        if count < MIN_SEGMENTS || MAX_SEGMENTS < count {
            return Err(PlanningError::SegmentCount);
        }
        let train = Proposed {
            heads: &self.heads[..count],
            ..self
        };
        if data_start(train.heads, self.joined.len()) != Some(self.joined.len()) {
            return Err(PlanningError::JoinedLength);
        }
        let SegmentKind::Begin { services, .. } = self.heads[0].segment.kind else {
            return Err(PlanningError::FrozenPlan);
        };
        let optional = services_or_default(services);
        if !are_plain(optional) {
            return Err(PlanningError::FrozenPlan);
        }
        train.check_segments()?;
        Ok(FrozenMessage {
            heads: kept_heads(train.heads),
            count,
            message_octets: self.message.len(),
            payload_budget_octets: self.payload_budget_octets,
            acknowledgment_window: optional.acknowledgment_window,
        })
    }
}

// Restores a plan's boundaries as they were proposed, for any heads and data: a true cutting of the message, or a refusal.
pub fn try_from_frozen(
    heads: [SegmentHead; 256],
    count: usize,
    joined: &[u8],
    message: &[u8],
    payload_budget_octets: usize,
    version: u8,
    ceiling: usize,
) -> FrozenCheck
    ensures { checked_by result ≡ try_from_frozen (record { heads = heads; count = count; joined = joined.now; message = message.now; budget = payload_budget_octets; version = version; ceiling = ceiling }) }
{
    let proposed = Proposed {
        heads: &heads,
        joined,
        message,
        payload_budget_octets,
        version,
    };
    FrozenCheck::from(proposed.check(count, ceiling))
}

impl FrozenMessage {
    pub fn message_octets(self) -> usize
        ensures { result ≡ self.message_octets }
    {
        self.message_octets
    }

    pub fn payload_budget_octets(self) -> usize
        ensures { result ≡ self.payload_budget_octets }
    {
        self.payload_budget_octets
    }

    pub fn acknowledgment_window(self) -> AcknowledgmentWindow
        ensures { result ≡ self.acknowledgment_window }
    {
        self.acknowledgment_window
    }

    pub fn segment_count(self) -> usize
        ensures { result ≡ self.count }
    {
        self.count
    }

    // Segment i of any record: none past the count, or where its data pass the message.
    pub fn segment(self, index: usize) -> Option<PlannedPart>
        ensures { result ≡ frozen_segment_at self index }
    {
        if self.count <= index || MAX_SEGMENTS <= index {
            return None;
        }
        let head = self.heads[index];
        let offset = data_start(&self.heads[..index], self.message_octets)?;
        if self.message_octets - offset < head.segment_data_length {
            return None;
        }
        Some(PlannedPart { head, offset })
    }
}
