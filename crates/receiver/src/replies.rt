// The responses that a call asks for.
ghost use Rattle.std.specs.Prelude.{◌≡◌, true};
ghost use Rattle.receiver.specs.Answers.{last_entry, period as period_of, acknowledges as acknowledges_of, periodic as periodic_of, listed as listed_of};
ghost use Rattle.receiver.specs.Steps.{standing_of, reply_of, required_for, required_reply, fail_reply};

use crate::kinds::{is_end, prohibited};
use crate::{Progress, Reported, Terms};
use response::{OptionalServicesSupport, Response, Status, map_of};
use tsar::{AcknowledgmentWindow, OptionalServices, Segment, SegmentKind};
use words::Words;

// The period of each window, by the window's number: 0 where it has none.
const PERIODS: [u16; 6] = [0, 4, 8, 16, 0, 0];

// The lowest version with a support list.
const PV5: u8 = 5;

// What of a receiver its responses and its closing read.
#[derive(Clone, Copy)]
pub struct Standing {
    pub services: OptionalServices,
    pub end_sequence: Option<u8>,
    pub message_length: Option<u16>,
    pub held: Words,
}

pub fn standing_of(progress: Progress, held: Words) -> Standing
    ensures { result ≡ standing_of progress held }
{
    Standing {
        services: progress.services,
        end_sequence: progress.end_sequence,
        message_length: progress.message_length,
        held,
    }
}

// The last entry of a map: the end; or the highest held slot, in a timeout answer the one after it.
pub fn last_entry(next: bool, held: Words, end: Option<u8>) -> u8
    ensures { result ≡ last_entry next held end }
{
    match end {
        Some(e) => e,
        None => {
            let highest = held.highest().unwrap_or(0);
            if next {
                highest.saturating_add(1)
            } else {
                highest
            }
        }
    }
}

// A response under a window that is not Prohibited.
pub fn respond(
    transaction_id: u8,
    standing: Standing,
    status: Status,
    next: bool,
) -> Option<Reported>
    ensures { result ≡ reply_of transaction_id standing status next }
{
    if prohibited(standing.services.acknowledgment_window) {
        return None;
    }
    let held = standing.held;
    let built = map_of(held, last_entry(next, held, standing.end_sequence));
    let response = Response {
        transaction_id,
        status,
        acknowledgments: built.map,
        optional_services_support: None,
    };
    Some(Reported {
        response,
        missing: built.missing,
    })
}

fn period(window: AcknowledgmentWindow) -> u16
    ensures { result ≡ period_of window }
{
    PERIODS[usize::from(u8::from(window))]
}

// The windows that answer segments.
fn acknowledges(window: AcknowledgmentWindow) -> bool
    ensures { result ≡ acknowledges_of window }
{
    window != AcknowledgmentWindow::Prohibited && window != AcknowledgmentWindow::Exceptions
}

fn periodic(window: AcknowledgmentWindow, sequence: u8) -> bool
    ensures { result ≡ periodic_of window sequence }
{
    let n = period(window);
    n != 0 && (u16::from(sequence) + 1) % n == 0
}

// A response is due to a taken segment: at completion, to an End, and by the window's period.
fn required(window: AcknowledgmentWindow, kind: SegmentKind, sequence: u8, status: Status) -> bool
    ensures { result ≡ required_for window kind sequence status }
{
    acknowledges(window)
        && (status == Status::Received || is_end(kind) || periodic(window, sequence))
}

pub fn required_response(
    transaction_id: u8,
    standing: Standing,
    segment: Segment,
    status: Status,
) -> Option<Reported>
    ensures { result ≡ required_reply transaction_id standing segment status }
{
    let window = standing.services.acknowledgment_window;
    if required(window, segment.kind, segment.sequence_number, status) {
        respond(transaction_id, standing, status, false)
    } else {
        None
    }
}

// With the support list: encryption and window.
fn listed(reported: Reported) -> Reported
    ensures { result ≡ listed_of true reported }
{
    let support = OptionalServicesSupport {
        compression: false,
        encryption: true,
        acknowledgment_window: true,
        crc: false,
    };
    Reported {
        response: Response {
            optional_services_support: Some(support),
            ..reported.response
        },
        ..reported
    }
}

// The response to a failure, with the support list only for status 13 and version 5 or more.
pub fn fail_response(terms: Terms, standing: Standing, status: Status) -> Option<Reported>
    ensures { result ≡ fail_reply terms standing status }
{
    let several = status == Status::MultipleServicesUnsupported && PV5 <= terms.version;
    let reply = respond(terms.transaction_id, standing, status, false);
    if several { reply.map(listed) } else { reply }
}
