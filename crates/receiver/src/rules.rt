// What the slots decide on a segment that is neither refused nor late.
ghost use Rattle.std.specs.Prelude.{◌≡◌};
ghost use Rattle.tsar.specs.Rows.{first_of};
ghost use Rattle.receiver.specs.Record.{full_with};
ghost use Rattle.receiver.specs.Receive.{keeps, services_of, stated_of, end_of};
ghost use Rattle.receiver.specs.Steps.{decided, unserved_as, length_rules, kind_rules, rules, staged_at};

use crate::kinds::{compresses, is_begin, is_continue, is_end, selects_crc, services_or_default};
use crate::replies::{Standing, standing_of};
use crate::states::{clash, other_end, past_end, states_above, states_below, states_other};
use crate::{LAST_SEQUENCE, Progress};
use response::Status;
use tsar::{OptionalServices, Segment, SegmentKind};
use words::Words;

// How far a segment was taken before the reception failed: not at all; its services; its length too; or held.
#[derive(Clone, Copy, Debug, PartialEq, Eq)]
pub enum Stage {
    Before,
    Begun,
    Noted,
    Keeping,
}

#[derive(Clone, Copy, Debug, PartialEq, Eq)]
pub enum Decision {
    Fails(Stage, Status),
    Repeats,
    Closes,
    Keeps,
    Finishes,
}

// What the slots say of a segment's place: whether it is held, with how many octets, and whether with this very segment; whether no slot
// past it is held; and whether with it the slots up to the end are.
#[derive(Clone, Copy, Debug, PartialEq, Eq)]
pub struct Place {
    pub held: bool,
    pub octets: usize,
    pub same: bool,
    pub clear: bool,
    pub full: bool,
}

// The octets of the segment, those stored with it, and the most that may be.
#[derive(Clone, Copy, Debug, PartialEq, Eq)]
pub struct Amounts {
    pub octets: usize,
    pub total: usize,
    pub maximum: usize,
}

// The services: a Begin's, or those there are.
pub fn services_of(old: OptionalServices, kind: SegmentKind) -> OptionalServices
    ensures { result ≡ services_of old kind }
{
    match kind {
        SegmentKind::Begin { services, .. } => services_or_default(services),
        _ => old,
    }
}

// The stated length: the segment's, or the one there is.
pub fn stated_of(old: Option<u16>, new: Option<u16>) -> Option<u16>
    ensures { result ≡ stated_of old new }
{
    new.or(old)
}

// The end: an End's sequence, or the one there is.
pub fn end_of(old: Option<u8>, kind: SegmentKind, sequence: u8) -> Option<u8>
    ensures { result ≡ end_of old kind sequence }
{
    match kind {
        SegmentKind::End { .. } => Some(sequence),
        _ => old,
    }
}

// Tried: `is_some_and` with a closure; `search` gave up at one of its limits.
// The slots up to the end are held, counting `sequence` as held.
pub fn full_with(held: Words, sequence: u8, end: Option<u8>) -> bool
    ensures { result ≡ full_with held sequence end }
{
    match end {
        None => false,
        Some(e) => held.with(sequence).full_to(e),
    }
}

// The status of services that are not served: both 13, compression 4, CRC 3.
fn unserved(compression: bool, crc: bool) -> Status
    ensures { result ≡ unserved_as compression crc }
{
    match (compression, crc) {
        (true, true) => Status::MultipleServicesUnsupported,
        (true, false) => Status::CompressionUnsupported,
        (false, _) => Status::CrcSelectionUnsupported,
    }
}

// Lengths: a clash, too long, past the stated length; then held, and whole or not.
fn decide_length(
    old: Option<u16>,
    told: Option<u16>,
    stored: usize,
    amounts: Amounts,
    full: bool,
) -> Decision
    ensures { decided result ≡ first_of (length_rules old told stored amounts full) keeps }
{
    let stated = stated_of(old, told);
    if clash(old, told) {
        return Decision::Fails(Stage::Begun, Status::MessageLengthError);
    }
    let room = amounts.maximum.saturating_sub(stored);
    if states_above(stated, amounts.maximum) || room < amounts.octets {
        return Decision::Fails(Stage::Noted, Status::MessageTooLong);
    }
    if states_below(stated, amounts.total) {
        return Decision::Fails(Stage::Noted, Status::MessageLengthError);
    }
    if full && states_other(stated, amounts.total) {
        return Decision::Fails(Stage::Keeping, Status::MessageLengthError);
    }
    if full {
        return Decision::Finishes;
    }
    Decision::Keeps
}

// A segment for an empty slot of a reception that isn't complete: its kind and its place, then its length.
fn decide_kind(
    progress: Progress,
    segment: Segment,
    clear: bool,
    full: bool,
    amounts: Amounts,
) -> Decision
    ensures { decided result ≡ first_of (kind_rules progress segment clear full amounts) keeps }
{
    let kind = segment.kind;
    let sequence = segment.sequence_number;
    let end = progress.end_sequence;
    let services = services_of(progress.services, kind);
    let compression = compresses(services.compression);
    let crc = selects_crc(services.crc_status);
    if is_continue(kind) && sequence == LAST_SEQUENCE {
        return Decision::Fails(Stage::Before, Status::Aborted);
    }
    if is_begin(kind) && (compression || crc) {
        return Decision::Fails(Stage::Begun, unserved(compression, crc));
    }
    if kind.crc().is_some() {
        return Decision::Fails(Stage::Before, Status::CrcSelectionUnsupported);
    }
    if is_end(kind) && (sequence == 0 || other_end(end, sequence) || !clear) {
        return Decision::Fails(Stage::Before, Status::Aborted);
    }
    if past_end(end, sequence) {
        return Decision::Fails(Stage::Begun, Status::Aborted);
    }
    decide_length(
        progress.message_length,
        kind.message_length(),
        progress.stored_octets,
        amounts,
        full,
    )
}

// A held slot is compared before any other test on the segment.
pub fn decide(progress: Progress, segment: Segment, place: Place, amounts: Amounts) -> Decision
    ensures { decided result ≡ first_of (rules progress segment place amounts) keeps }
{
    if place.held && place.octets != amounts.octets {
        return Decision::Fails(Stage::Before, Status::DuplicateSizeMismatch);
    }
    if place.held && !place.same {
        return Decision::Fails(Stage::Before, Status::Aborted);
    }
    if place.held {
        return Decision::Repeats;
    }
    if progress.state.is_complete() {
        return Decision::Closes;
    }
    decide_kind(progress, segment, place.clear, place.full, amounts)
}

// What a failure at a stage reports and leaves.
pub fn staged(stage: Stage, progress: Progress, held: Words, segment: Segment) -> Standing
    ensures { result ≡ staged_at stage progress held segment }
{
    let kind = segment.kind;
    let before = standing_of(progress, held);
    let begun = Standing {
        services: services_of(progress.services, kind),
        ..before
    };
    let noted = Standing {
        message_length: stated_of(progress.message_length, kind.message_length()),
        ..begun
    };
    match stage {
        Stage::Before => before,
        Stage::Begun => begun,
        Stage::Noted => noted,
        Stage::Keeping => Standing {
            end_sequence: end_of(progress.end_sequence, kind, segment.sequence_number),
            held: held.with(segment.sequence_number),
            ..noted
        },
    }
}
