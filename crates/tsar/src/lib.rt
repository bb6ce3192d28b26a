// The TSAR segment codec: l3/tsar.rs of the source. Writing is in encode, reading in decode.
#![tactic(auto)]

ghost use Rattle.std.specs.Prelude.{◌≡◌};
ghost use Rattle.std.specs.Option.{ok_or};
ghost use Rattle.tsar.specs.declared.Error.TheVariants.{Reserved};
ghost use Rattle.tsar.specs.Layout.{compression_number, window_number, status_number, number_of_type, type_of};
ghost use Rattle.tsar.specs.Reading.{compression_of, window_of, status_of, type_numbered, begin_test};
ghost use Rattle.tsar.specs.Writing.{length_in, crc_in};

pub mod decode;
pub mod encode;

// The octets of a segment before its data.
pub const HEADER_OCTETS: usize = 3;

const OPTIONAL_WORD_OCTETS: usize = 2;

const CRC16_IE_OCTETS: usize = 3;

const CRC24_IE_OCTETS: usize = 4;

// The lowest version that this codec serves: Pv1.
const PV1: u8 = 1;

const TRANSACTION_MASK: u8 = 7;

const MAX_SEGMENT_DATA_OCTETS: usize = 255;

const MAX_LENGTH_IE_MESSAGE_OCTETS: u16 = 4095;

const MAX_CRC24: u32 = 16_777_215;

// In octet 0, the place value of the type's lowest bit.
const TYPE_PLACE: u8 = 8;

// In the sixteen bits of the services, the place value of each field.
const COMPRESSION_PLACE: u16 = 512;

const WINDOW_PLACE: u16 = 8;

const CRC_STATUS_PLACE: u16 = 2;

const BEGIN_TYPE: u8 = 0;

const CONTINUE_TYPE: u8 = 1;

const END_TYPE: u8 = 2;

const RESPONSE_TYPE: u8 = 3;

const LENGTH_PARAMETER: u8 = 1;

const SERVICES_PARAMETER: u8 = 2;

const CRC16_PARAMETER: u8 = 2;

const CRC24_PARAMETER: u8 = 3;

#[derive(Clone, Copy, Debug, Default, PartialEq, Eq)]
pub enum Compression {
    #[default]
    None,
    V42Bis,
}

#[derive(Clone, Copy, Debug, Default, PartialEq, Eq)]
pub enum AcknowledgmentWindow {
    #[default]
    Prohibited,
    Every4,
    Every8,
    Every16,
    Last,
    Exceptions,
}

#[derive(Clone, Copy, Debug, Default, PartialEq, Eq)]
pub enum CrcStatus {
    #[default]
    None,
    Crc16,
    Crc24,
}

// The default is what absent services mean.
#[derive(Clone, Copy, Debug, Default, PartialEq, Eq)]
pub struct OptionalServices {
    pub compression: Compression,
    pub acknowledgment_window: AcknowledgmentWindow,
    pub crc_status: CrcStatus,
}

// The CRC of an End: the source's Option<MessageCrc>.
#[derive(Clone, Copy, Debug, PartialEq, Eq)]
pub enum MessageCrc {
    Crc16(u16),
    Crc24(u32),
}

#[derive(Clone, Copy, Debug, PartialEq, Eq)]
pub enum SegmentKind {
    Begin {
        message_length: Option<u16>,
        services: Option<OptionalServices>,
    },
    Continue {
        message_length: Option<u16>,
    },
    End {
        message_length: Option<u16>,
        crc: Option<MessageCrc>,
    },
}

// A segment beside its data, which comes as a slice.
#[derive(Clone, Copy, Debug, PartialEq, Eq)]
pub struct Segment {
    pub transaction_id: u8,
    pub sequence_number: u8,
    pub kind: SegmentKind,
}

// A segment's head: the segment and the number of its data octets.
#[derive(Clone, Copy, Debug, PartialEq, Eq)]
pub struct SegmentHead {
    pub segment: Segment,
    pub segment_data_length: usize,
}

// What reading gives. The data are a part of the octets read: those from HEADER_OCTETS on, as many as the head says.
#[derive(Clone, Copy, Debug, PartialEq, Eq)]
pub struct DecodedSegment {
    pub head: SegmentHead,
    pub unparsed_octets: usize,
}

// The field that Error::Field names: document 01's 6/1 to 6/7.
#[derive(Clone, Copy, Debug, PartialEq, Eq)]
pub enum ErrorField {
    TransactionId,
    SegmentDataLength,
    BeginSequenceNumber,
    MessageLength,
    Crc24,
    AcknowledgmentMapLength,
    OptionalServicesSupportStatus,
}

#[derive(Clone, Copy, Debug, PartialEq, Eq)]
pub enum Error {
    Version,
    Truncated,
    Protocol,
    MessageType,
    UnsupportedResponse,
    Field(ErrorField),
    Reserved,
    DuplicateParameter,
}

// A kind without its parameters.
#[derive(Clone, Copy, Debug, PartialEq, Eq)]
pub enum SegmentType {
    Begin,
    Continue,
    End,
}

// The numbers of the cases in a segment's octets.

impl From<Compression> for u8 {
    ghost from_gives = { λ c n. n ≡ compression_number c };

    fn from(compression: Compression) -> u8 {
        match compression {
            Compression::None => 0,
            Compression::V42Bis => 1,
        }
    }
}

impl TryFrom<u8> for Compression {
    type Error = Error;

    ghost try_from_gives = { λ n r. r ≡ ok_or (compression_of n) Reserved };

    #[tactic(auto, unfolding(crate::specs::Reading::compression_of))]
    fn try_from(number: u8) -> Result<Self, Error> {
        match number {
            0 => Ok(Compression::None),
            1 => Ok(Compression::V42Bis),
            _ => Err(Error::Reserved),
        }
    }
}

impl From<AcknowledgmentWindow> for u8 {
    ghost from_gives = { λ w n. n ≡ window_number w };

    fn from(window: AcknowledgmentWindow) -> u8 {
        match window {
            AcknowledgmentWindow::Prohibited => 0,
            AcknowledgmentWindow::Every4 => 1,
            AcknowledgmentWindow::Every8 => 2,
            AcknowledgmentWindow::Every16 => 3,
            AcknowledgmentWindow::Last => 4,
            AcknowledgmentWindow::Exceptions => 5,
        }
    }
}

impl TryFrom<u8> for AcknowledgmentWindow {
    type Error = Error;

    ghost try_from_gives = { λ n r. r ≡ ok_or (window_of n) Reserved };

    #[tactic(auto, unfolding(crate::specs::Reading::window_of))]
    fn try_from(number: u8) -> Result<Self, Error> {
        match number {
            0 => Ok(AcknowledgmentWindow::Prohibited),
            1 => Ok(AcknowledgmentWindow::Every4),
            2 => Ok(AcknowledgmentWindow::Every8),
            3 => Ok(AcknowledgmentWindow::Every16),
            4 => Ok(AcknowledgmentWindow::Last),
            5 => Ok(AcknowledgmentWindow::Exceptions),
            _ => Err(Error::Reserved),
        }
    }
}

impl From<CrcStatus> for u8 {
    ghost from_gives = { λ s n. n ≡ status_number s };

    fn from(status: CrcStatus) -> u8 {
        match status {
            CrcStatus::None => 0,
            CrcStatus::Crc16 => 1,
            CrcStatus::Crc24 => 2,
        }
    }
}

impl TryFrom<u8> for CrcStatus {
    type Error = Error;

    ghost try_from_gives = { λ n r. r ≡ ok_or (status_of n) Reserved };

    #[tactic(auto, unfolding(crate::specs::Reading::status_of))]
    fn try_from(number: u8) -> Result<Self, Error> {
        match number {
            0 => Ok(CrcStatus::None),
            1 => Ok(CrcStatus::Crc16),
            2 => Ok(CrcStatus::Crc24),
            _ => Err(Error::Reserved),
        }
    }
}

impl From<SegmentType> for u8 {
    ghost from_gives = { λ t n. n ≡ number_of_type t };

    fn from(kind: SegmentType) -> u8 {
        match kind {
            SegmentType::Begin => BEGIN_TYPE,
            SegmentType::Continue => CONTINUE_TYPE,
            SegmentType::End => END_TYPE,
        }
    }
}

impl TryFrom<u8> for SegmentType {
    type Error = Error;

    ghost try_from_gives = { λ n r. r ≡ type_numbered n };

    #[tactic(auto, unfolding(crate::specs::Reading::type_numbered))]
    fn try_from(number: u8) -> Result<Self, Error> {
        match number {
            BEGIN_TYPE => Ok(SegmentType::Begin),
            CONTINUE_TYPE => Ok(SegmentType::Continue),
            END_TYPE => Ok(SegmentType::End),
            RESPONSE_TYPE => Err(Error::UnsupportedResponse),
            _ => Err(Error::MessageType),
        }
    }
}

impl SegmentType {
    // A Begin's sequence is 0.
    fn refuses(self, sequence_number: u8) -> bool
        ensures { result ≡ begin_test self sequence_number }
    {
        self == SegmentType::Begin && sequence_number != 0
    }
}

impl SegmentKind {
    // The kind without its parameters.
    pub fn segment_type(self) -> SegmentType
        ensures { result ≡ type_of self }
    {
        match self {
            SegmentKind::Begin { .. } => SegmentType::Begin,
            SegmentKind::Continue { .. } => SegmentType::Continue,
            SegmentKind::End { .. } => SegmentType::End,
        }
    }

    // The message length that a segment of this kind states.
    pub fn message_length(self) -> Option<u16>
        ensures { result ≡ length_in self }
    {
        match self {
            SegmentKind::Begin { message_length, .. }
            | SegmentKind::Continue { message_length }
            | SegmentKind::End { message_length, .. } => message_length,
        }
    }

    // The CRC of an End.
    pub fn crc(self) -> Option<MessageCrc>
        ensures { result ≡ crc_in self }
    {
        match self {
            SegmentKind::End { crc, .. } => crc,
            _ => None,
        }
    }
}
