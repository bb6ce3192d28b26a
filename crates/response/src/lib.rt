// Responses as records: l3/tsar/response.rs of the source, without its wire codec.
#![tactic(auto)]

ghost use Rattle.std.specs.Prelude.{◌≡◌, suc, ◌≤◌};
ghost use Rattle.words.specs.Marks.{marked};
ghost use Rattle.tsar.specs.Rows.{refusal};
ghost use Rattle.tsar.specs.Numbers.{validated_by};
ghost use Rattle.response.specs.Responses.{status_number, map_length_refused, figures_of, built_of, map_by, new_map, entry_at, response_rows};

use tsar::{Error, ErrorField};
use words::Words;

const MAX_MAP_BITS: u16 = 256;

// What stands for the first missing entry where none is missing.
const NONE_MISSING: u16 = 256;

// The lowest version, and the lowest with a support list.
const PV1: u8 = 1;

const PV5: u8 = 5;

const TRANSACTION_MASK: u8 = 7;

#[derive(Clone, Copy, Debug, PartialEq, Eq)]
pub enum Status {
    Continuing,
    InterSegmentTimeout,
    Aborted,
    CrcSelectionUnsupported,
    CompressionUnsupported,
    EncryptionUnsupported,
    AcknowledgmentWindowUnsupported,
    ProtocolUnsupported,
    MessageLengthError,
    MessageTooLong,
    Received,
    DuplicateSizeMismatch,
    CrcError,
    MultipleServicesUnsupported,
}

// The entries of a map: entry i is mark i of the words, for i below bit_count; marks from there on are not entries.
#[derive(Clone, Copy)]
pub struct AcknowledgmentMap {
    pub received: Words,
    pub bit_count: u16,
}

// How many entries of a map are missing, and the first of them: 256 where there is none.
#[derive(Clone, Copy, Debug, PartialEq, Eq)]
pub struct Missing {
    pub count: u16,
    pub first: u16,
}

// A map with the figures of its missing entries: what every builder of a map gives.
#[derive(Clone, Copy)]
pub struct BuiltMap {
    pub map: AcknowledgmentMap,
    pub missing: Missing,
}

#[derive(Clone, Copy, Debug, PartialEq, Eq)]
pub struct OptionalServicesSupport {
    pub compression: bool,
    pub encryption: bool,
    pub acknowledgment_window: bool,
    pub crc: bool,
}

#[derive(Clone, Copy)]
pub struct Response {
    pub transaction_id: u8,
    pub status: Status,
    pub acknowledgments: AcknowledgmentMap,
    pub optional_services_support: Option<OptionalServicesSupport>,
}

impl From<Status> for u8 {
    ghost from_gives = { λ s n. n ≡ status_number s };

    fn from(status: Status) -> u8 {
        match status {
            Status::Continuing => 0,
            Status::InterSegmentTimeout => 1,
            Status::Aborted => 2,
            Status::CrcSelectionUnsupported => 3,
            Status::CompressionUnsupported => 4,
            Status::EncryptionUnsupported => 5,
            Status::AcknowledgmentWindowUnsupported => 6,
            Status::ProtocolUnsupported => 7,
            Status::MessageLengthError => 8,
            Status::MessageTooLong => 9,
            Status::Received => 10,
            Status::DuplicateSizeMismatch => 11,
            Status::CrcError => 12,
            Status::MultipleServicesUnsupported => 13,
        }
    }
}

// The number of a status: 0 to 13.
pub fn status_number(status: Status) -> u8
    ensures { result ≡ status_number status }
{
    u8::from(status)
}

// The map of the first bit_count marks, with its figures: every map is built by this, but one that is read from octets.
fn first_entries(received: Words, bit_count: u16) -> BuiltMap
    requires { bit_count ≤ 256 }
    ensures { result ≡ built_of (marked received) bit_count }
{
    let map = AcknowledgmentMap {
        received: received.first(bit_count),
        bit_count,
    };
    BuiltMap {
        map,
        missing: map.figures(),
    }
}

// The map of entries 0 to last.
pub fn map_of(received: Words, last: u8) -> BuiltMap
    ensures { result ≡ built_of (marked received) (suc last) }
{
    first_entries(received, u16::from(last) + 1)
}

// A map of 0 or above 256 entries is refused (6/6).
fn map_length_refused(bit_count: u16) -> bool
    ensures { result ≡ map_length_refused bit_count }
{
    bit_count == 0 || MAX_MAP_BITS < bit_count
}

impl AcknowledgmentMap {
    // The figures of a map: those of its entries that are not marked.
    fn figures(self) -> Missing
        requires { self.bit_count ≤ 256 }
        ensures { result ≡ figures_of self }
    {
        let missing = Words::below(self.bit_count).minus(self.received);
        Missing {
            count: missing.ones(),
            first: missing.lowest().map_or(NONE_MISSING, u16::from),
        }
    }

    pub fn try_new(received: Words, bit_count: u16) -> Result<BuiltMap, Error>
        ensures { map_by result ≡ new_map (marked received) bit_count }
    {
        if map_length_refused(bit_count) {
            return Err(Error::Field(ErrorField::AcknowledgmentMapLength));
        }
        Ok(first_entries(received, bit_count))
    }

    pub fn bit_count(self) -> u16
        ensures { result ≡ self.bit_count }
    {
        self.bit_count
    }

    // What the map says of a sequence number.
    pub fn received(self, sequence_number: u8) -> Option<bool>
        ensures { result ≡ entry_at self sequence_number }
    {
        if self.bit_count <= u16::from(sequence_number) {
            return None;
        }
        Some(self.received.has(sequence_number))
    }
}

impl Response {
    // The codec's check: 6/6, 1, 6/1, 1 for a support list below version 5, 6/7 for one with another status.
    pub fn validate(self, version: u8) -> Result<(), Error>
        ensures { validated_by result ≡ refusal (response_rows version self) }
    {
        if map_length_refused(self.acknowledgments.bit_count) {
            return Err(Error::Field(ErrorField::AcknowledgmentMapLength));
        }
        if version < PV1 {
            return Err(Error::Version);
        }
        if TRANSACTION_MASK < self.transaction_id {
            return Err(Error::Field(ErrorField::TransactionId));
        }
        let support = self.optional_services_support.is_some();
        if support && version < PV5 {
            return Err(Error::Version);
        }
        if support && self.status != Status::MultipleServicesUnsupported {
            return Err(Error::Field(ErrorField::OptionalServicesSupportStatus));
        }
        Ok(())
    }
}
