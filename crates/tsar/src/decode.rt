// Reading a segment: decode_segment, and the Reader through which its parameters are taken.
ghost use Rattle.std.specs.Prelude.{◌≡◌, ◌≤◌, length, drop};
ghost use Rattle.tsar.specs.Reading.{services_of, length_step, services_step, unreserved, crc16_step, crc24_step, step_of, octets_taken, offset_after, params_of, kind_of, segment_as, segment_of, told_of, told_by};

use crate::{
    AcknowledgmentWindow, COMPRESSION_PLACE, CRC_STATUS_PLACE, CRC16_IE_OCTETS, CRC16_PARAMETER,
    CRC24_IE_OCTETS, CRC24_PARAMETER, Compression, CrcStatus, DecodedSegment, Error, ErrorField,
    HEADER_OCTETS, LENGTH_PARAMETER, MessageCrc, OPTIONAL_WORD_OCTETS, OptionalServices, PV1,
    SERVICES_PARAMETER, Segment, SegmentHead, SegmentKind, SegmentType, TYPE_PLACE, WINDOW_PLACE,
};

// Place values: of the lowest bit of a parameter's name in its octet, and of the protocol bits in a header.
const PARAMETER_PLACE: u8 = 16;

const PROTOCOL_PLACE: u8 = 64;

// In the sixteen bits of the services: the place value of the encryption, and the number of values of each field.
const ENCRYPTION_PLACE: u16 = 64;

const SERVICE_FIELD_VALUES: u16 = 8;

const CRC_STATUS_VALUES: u16 = 4;

const SERVICES_RESERVED_VALUES: u16 = 2;

// The number of values of a length, of a CRC's reserved bits and of a CRC.
const LENGTH_VALUES: u16 = 4096;

const CRC_RESERVED_VALUES: u32 = 16;

const CRC16_VALUES: u32 = 65_536;

const CRC24_VALUES: u32 = 16_777_216;

// The parameters read so far.
#[derive(Clone, Copy, Debug, Default, PartialEq, Eq)]
pub struct Params {
    pub message_length: Option<u16>,
    pub services: Option<OptionalServices>,
    pub crc: Option<MessageCrc>,
}

// One step through the parameters: those read so far with one more, and the octets that it takes; or none.
type Step = Result<Option<(Params, usize)>, Error>;

// The parameters, and the offset at which unparsed octets begin.
#[derive(Clone, Copy, Debug, PartialEq, Eq)]
pub struct Parsed {
    pub params: Params,
    pub at: usize,
}

// The services in the sixteen bits of a parameter.
#[tactic(auto, unfolding(crate::specs::Reading::services_of))]
fn decode_services(field: u16) -> Result<OptionalServices, Error>
    ensures { result ≡ services_of field }
{
    if field % SERVICES_RESERVED_VALUES != 0
        || field / ENCRYPTION_PLACE % SERVICE_FIELD_VALUES != 0
    {
        return Err(Error::Reserved);
    }
    let compression = Compression::try_from(
        (field / COMPRESSION_PLACE % SERVICE_FIELD_VALUES) as u8,
    )?;
    let acknowledgment_window = AcknowledgmentWindow::try_from(
        (field / WINDOW_PLACE % SERVICE_FIELD_VALUES) as u8,
    )?;
    let crc_status = CrcStatus::try_from((field / CRC_STATUS_PLACE % CRC_STATUS_VALUES) as u8)?;
    Ok(OptionalServices {
        compression,
        acknowledgment_window,
        crc_status,
    })
}

// The 12-bit length that a segment states.
fn read_length(s: &[u8], p: Params) -> Step
    ensures { result ≡ length_step p s.now }
{
    if p.message_length.is_some() {
        return Err(Error::DuplicateParameter);
    }
    let &[a, b, ..] = s else {
        return Err(Error::Truncated);
    };
    let value = u16::from_be_bytes([a, b]) % LENGTH_VALUES;
    Ok(Some((
        Params {
            message_length: Some(value),
            ..p
        },
        OPTIONAL_WORD_OCTETS,
    )))
}

// The optional services of a Begin.
fn read_services(s: &[u8], p: Params) -> Step
    ensures { result ≡ services_step p s.now }
{
    if p.services.is_some() {
        return Err(Error::DuplicateParameter);
    }
    let &[a, b, ..] = s else {
        return Err(Error::Truncated);
    };
    let services = decode_services(u16::from_be_bytes([a, b]))?;
    Ok(Some((
        Params {
            services: Some(services),
            ..p
        },
        OPTIONAL_WORD_OCTETS,
    )))
}

// What stands above the reserved bits of a CRC's octets.
fn above_reserved(field: u32) -> Result<u32, Error>
    ensures { result ≡ unreserved field }
{
    if field % CRC_RESERVED_VALUES != 0 {
        return Err(Error::Reserved);
    }
    Ok(field / CRC_RESERVED_VALUES)
}

// The CRC-16 of an End.
fn read_crc16(s: &[u8], p: Params) -> Step
    ensures { result ≡ crc16_step p s.now }
{
    if p.crc.is_some() {
        return Err(Error::DuplicateParameter);
    }
    let &[a, b, c, ..] = s else {
        return Err(Error::Truncated);
    };
    let value = (above_reserved(u32::from_be_bytes([0, a, b, c]))? % CRC16_VALUES) as u16;
    Ok(Some((
        Params {
            crc: Some(MessageCrc::Crc16(value)),
            ..p
        },
        CRC16_IE_OCTETS,
    )))
}

// The CRC-24 of an End. One function over both CRCs is no plainer: it takes the octets, the values and the variant as parameters.
fn read_crc24(s: &[u8], p: Params) -> Step
    ensures { result ≡ crc24_step p s.now }
{
    if p.crc.is_some() {
        return Err(Error::DuplicateParameter);
    }
    let &[a, b, c, d, ..] = s else {
        return Err(Error::Truncated);
    };
    let value = above_reserved(u32::from_be_bytes([a, b, c, d]))? % CRC24_VALUES;
    Ok(Some((
        Params {
            crc: Some(MessageCrc::Crc24(value)),
            ..p
        },
        CRC24_IE_OCTETS,
    )))
}

// One parameter of a segment of a type, at the start of s.
#[tactic(auto, unfolding(crate::specs::Reading::step_of))]
fn read_param(s: &[u8], kind: SegmentType, p: Params) -> Step
    ensures { result ≡ step_of kind p s.now }
{
    let Some(&octet) = s.first() else {
        return Ok(None);
    };
    match (kind, octet / PARAMETER_PLACE) {
        (_, LENGTH_PARAMETER) => read_length(s, p),
        (SegmentType::Begin, SERVICES_PARAMETER) => read_services(s, p),
        (SegmentType::End, CRC16_PARAMETER) => read_crc16(s, p),
        (SegmentType::End, CRC24_PARAMETER) => read_crc24(s, p),
        _ => Ok(None),
    }
}

// The octets of a segment and an offset in them.
#[derive(Clone, Copy)]
pub struct Reader<'a> {
    pub bytes: &'a [u8],
    pub offset: usize,
}

// What a reader takes: a step, and the reader after it, whose offset is past the parameter that was taken.
#[derive(Clone, Copy)]
pub struct Took<'a> {
    pub step: Step,
    pub reader: Reader<'a>,
}

fn octets_taken(step: Step) -> usize
    ensures { result ≡ octets_taken step }
{
    match step {
        Ok(Some((_, n))) => n,
        _ => 0,
    }
}

impl<'a> Reader<'a> {
    // The parameter at the reader's offset, and the reader after it.
    #[tactic(auto, using(crate::proofs::Loop::octets_within), unfolding(crate::specs::Reading::step_of))]
    fn take(self, kind: SegmentType, p: Params) -> Took<'a>
        ensures step { result.step ≡ step_of kind p (drop self.entry.offset self.entry.bytes.now) }
        ensures octets { result.reader.bytes ≡ self.entry.bytes }
        ensures after { result.reader.offset ≡ offset_after result.step self.entry.offset }
    {
        if self.bytes.len() < self.offset {
            return Took {
                step: Ok(None),
                reader: self,
            };
        }
        let step = read_param(&self.bytes[self.offset..], kind, p);
        let offset = self.offset + octets_taken(step);
        Took {
            step,
            reader: Reader { offset, ..self },
        }
    }
}

// The parameters from an offset on, up to the first name that the type doesn't have.
fn read_params(bytes: &[u8], start: usize, kind: SegmentType) -> Result<Parsed, Error>
    requires { start ≤ length bytes.now }
    ensures { result ≡ params_of kind start (drop start bytes.now) }
{
    let mut params = Params::default();
    let mut reader = Reader {
        bytes,
        offset: start,
    };
    let parsed = loop {
        let took = reader.take(kind, params);
        reader = took.reader;
        match took.step? {
            Some((next, _)) => params = next,
            None => break Parsed {
                params,
                at: reader.offset,
            },
        }
    };
    Ok(parsed)
}

impl Params {
    // The kind of a segment of a type with these parameters.
    fn kind(self, segment_type: SegmentType) -> SegmentKind
        ensures { result ≡ kind_of segment_type self }
    {
        let Params {
            message_length,
            services,
            crc,
        } = self;
        match segment_type {
            SegmentType::Begin => SegmentKind::Begin {
                message_length,
                services,
            },
            SegmentType::Continue => SegmentKind::Continue { message_length },
            SegmentType::End => SegmentKind::End {
                message_length,
                crc,
            },
        }
    }
}

// A segment of a type, from the test for three octets on.
#[tactic(auto, unfolding(crate::specs::Reading::segment_as), using(crate::proofs::Loop::params_within))]
fn read_as(bytes: &[u8], kind: SegmentType) -> Result<DecodedSegment, Error>
    ensures { told_by result ≡ told_of (segment_as kind bytes.now) }
{
    let &[header, sequence_number, length, ..] = bytes else {
        return Err(Error::Truncated);
    };
    if kind.refuses(sequence_number) {
        return Err(Error::Field(ErrorField::BeginSequenceNumber));
    }
    let end = HEADER_OCTETS + usize::from(length);
    if bytes.len() < end {
        return Err(Error::Truncated);
    }
    let parsed = read_params(bytes, end, kind)?;
    Ok(DecodedSegment {
        head: SegmentHead {
            segment: Segment {
                transaction_id: header % TYPE_PLACE,
                sequence_number,
                kind: parsed.params.kind(kind),
            },
            segment_data_length: usize::from(length),
        },
        unparsed_octets: bytes.len() - parsed.at,
    })
}

// Reads a segment of any octets under any version. The answer has the head of what is read and the numbers of its data octets and
// of the octets unparsed, by value.
#[tactic(auto, unfolding(crate::specs::Reading::segment_of), using(crate::proofs::Types::by_number))]
pub fn decode_segment(bytes: &[u8], version: u8) -> Result<DecodedSegment, Error>
    ensures { told_by result ≡ told_of (segment_of version bytes.now) }
{
    if version < PV1 {
        return Err(Error::Version);
    }
    let Some(&header) = bytes.first() else {
        return Err(Error::Truncated);
    };
    if PROTOCOL_PLACE <= header {
        return Err(Error::Protocol);
    }
    let kind = SegmentType::try_from(header / TYPE_PLACE)?;
    read_as(bytes, kind)
}
