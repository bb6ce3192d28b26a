// Refusals by the number that a call gave: 256 * n + m is document 01's n/m, of which m is 0 where there is none.
ghost use Rattle.std.specs.Prelude.{◌≡◌};
ghost use Rattle.report.specs.Refusals.{outcome_of};

use std::error::Error;
use std::fmt;

const PARTS: u32 = 256;

#[derive(Clone, Copy, Debug, PartialEq, Eq)]
pub struct Refusal {
    pub number: u32,
    pub part: Option<u32>,
}

impl Refusal {
    ghost use Rattle.report.specs.Refusals.{refusal_of};

    fn of(code: u32) -> Refusal
        ensures { result ≡ refusal_of code }
    {
        let part = code % PARTS;
        Refusal {
            number: code / PARTS,
            part: (part != 0).then_some(part),
        }
    }
}

// The name of a refusal.
const fn name(number: u32) -> Option<&'static str> {
    Some(match number {
        1 => "Version",
        2 => "Truncated",
        3 => "Protocol",
        4 => "MessageType",
        5 => "UnsupportedResponse",
        6 => "Field",
        7 => "Reserved",
        8 => "DuplicateParameter",
        20 => "PayloadBudget",
        21 => "HeaderCapacity",
        22 => "SegmentCount",
        23 => "FrozenPlan",
        24 => "JoinedLength",
        25 => "ExceptionsWindow",
        26 => "OtherPattern",
        28 => "OrderNumber",
        30 => "Identity",
        31 => "Service",
        32 => "TransactionId",
        33 => "ClockRegression",
        34 => "TimeOverflow",
        35 => "UnparsedSegment",
        36 => "BeginRequired",
        37 => "TimerDue",
        38 => "Closed",
        40 => "Plan",
        41 => "CounterOverflow",
        42 => "StaleSubmission",
        43 => "NotSubmitted",
        44 => "ReceiptTime",
        45 => "Peer",
        46 => "ResponsesProhibited",
        47 => "UnparsedResponse",
        48 => "UnsubmittedAcknowledgment",
        49 => "ContradictoryReceipt",
        60 => "Store",
        61 => "Output",
        62 => "ImpossibleState",
        63 => "Tickets",
        64 => "Profile",
        256 => "BufferTooShort",
        257 => "BufferSpellsNone",
        258 => "NumberNamesNone",
        _ => return None,
    })
}

// The name of the field that a refusal is about.
const fn field(part: u32) -> Option<&'static str> {
    Some(match part {
        1 => "TransactionId",
        2 => "SegmentDataLength",
        3 => "BeginSequenceNumber",
        4 => "MessageLength",
        5 => "Crc24",
        6 => "AcknowledgmentMapLength",
        7 => "OptionalServicesSupportStatus",
        _ => return None,
    })
}

impl fmt::Display for Refusal {
    fn fmt<W: fmt::Write>(&self, f: &mut fmt::Formatter<W>) -> fmt::Result {
        write!(f, "{}", self.number)?;
        if let Some(part) = self.part {
            write!(f, "/{part}")?;
        }
        let named = match self.part {
            Some(part) => field(part),
            None => name(self.number),
        };
        match named {
            Some(text) => write!(f, " {text}"),
            None => Ok(()),
        }
    }
}

impl Error for Refusal {}

// What a call answered, by the number that it gave: 0 where it was taken.
pub fn outcome(code: u32) -> Result<(), Refusal>
    ensures { result ≡ outcome_of code }
{
    if code == 0 {
        Ok(())
    } else {
        Err(Refusal::of(code))
    }
}
