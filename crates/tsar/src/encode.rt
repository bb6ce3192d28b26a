// Writing a segment: Segment::encode, and the checks that come before it.
ghost use Rattle.std.specs.Prelude.{◌≡◌, false, length};
ghost use Rattle.std.proofs.lemmas.List.Edits.{sets};
ghost use Rattle.tsar.specs.declared.encode.EncodeError.TheVariants.{Codec};
ghost use Rattle.tsar.specs.Rows.{refusal};
ghost use Rattle.tsar.specs.Layout.{length_param, services_param, crc_param, written, whole};
ghost use Rattle.tsar.specs.Octets.{services_field, params_octets};
ghost use Rattle.tsar.specs.Writing.{length_in, crc_in, word_octets, rest_params, too_long, crc_too_large, CrcTyped, codec_rows, validated_by, header_octets, Writable, in_room, leaves, encode_of};

use crate::{
    COMPRESSION_PLACE, CRC_STATUS_PLACE, CRC16_IE_OCTETS, CRC24_IE_OCTETS, Error, ErrorField,
    HEADER_OCTETS, MAX_CRC24, MAX_LENGTH_IE_MESSAGE_OCTETS, MAX_SEGMENT_DATA_OCTETS, MessageCrc,
    OPTIONAL_WORD_OCTETS, OptionalServices, PV1, Segment, SegmentKind, TRANSACTION_MASK,
    TYPE_PLACE, WINDOW_PLACE,
};

// The parameters' names in their places: 1 above 12 bits, 2 above 12, 2 above 20, 3 above 28.
const LENGTH_NAME: u16 = 4096;

const SERVICES_NAME: u16 = 8192;

const CRC16_NAME: u32 = 2_097_152;

const CRC24_NAME: u32 = 805_306_368;

// The place value of a CRC, above its reserved bits.
const CRC_PLACE: u32 = 16;

// Why nothing is written: a refusal of the codec, or 61.
#[derive(Clone, Copy, Debug, PartialEq, Eq)]
pub enum EncodeError {
    Codec(Error),
    Output,
}

impl From<Error> for EncodeError {
    ghost from_gives = { λ e x. x ≡ Codec e };

    fn from(error: Error) -> EncodeError {
        EncodeError::Codec(error)
    }
}

fn too_long(message_length: Option<u16>) -> bool
    ensures { result ≡ too_long message_length }
{
    message_length.is_some_and(|n| MAX_LENGTH_IE_MESSAGE_OCTETS < n)
}

fn crc_too_large(crc: Option<MessageCrc>) -> bool
    ensures { result ≡ crc_too_large crc }
{
    matches!(crc, Some(MessageCrc::Crc24(v)) if MAX_CRC24 < v)
}

// The octets of a length or of services.
fn word_octets<T: Copy>(word: Option<T>) -> usize
    ensures { result ≡ word_octets word }
{
    if word.is_some() {
        OPTIONAL_WORD_OCTETS
    } else {
        0
    }
}

// Beside the size: what the type of a CRC-16 says of it, which a caller that holds the enum doesn't know.
fn crc_octets(crc: Option<MessageCrc>) -> usize
    ensures size { result ≡ length (params_octets (crc_param crc)) }
    ensures typed { CrcTyped crc }
{
    match crc {
        None => 0,
        Some(MessageCrc::Crc16(_v)) => CRC16_IE_OCTETS,
        Some(MessageCrc::Crc24(_)) => CRC24_IE_OCTETS,
    }
}

fn put_length(out: &mut [u8], at: usize, message_length: Option<u16>)
    requires { too_long message_length ≡ false }
    ensures { out.new ≡ sets out.old at (params_octets (length_param message_length)) }
{
    if let Some(n) = message_length {
        octets::put(out, at, &(LENGTH_NAME + n).to_be_bytes());
    }
}

fn services_field(s: OptionalServices) -> u16
    ensures { result ≡ services_field s }
{
    SERVICES_NAME
        + u16::from(u8::from(s.compression)) * COMPRESSION_PLACE
        + u16::from(u8::from(s.acknowledgment_window)) * WINDOW_PLACE
        + u16::from(u8::from(s.crc_status)) * CRC_STATUS_PLACE
}

fn put_services(out: &mut [u8], at: usize, services: Option<OptionalServices>)
    ensures { out.new ≡ sets out.old at (params_octets (services_param services)) }
{
    if let Some(s) = services {
        octets::put(out, at, &services_field(s).to_be_bytes());
    }
}

fn put_crc(out: &mut [u8], at: usize, crc: Option<MessageCrc>)
    requires { crc_too_large crc ≡ false }
    ensures { out.new ≡ sets out.old at (params_octets (crc_param crc)) }
{
    match crc {
        None => {}
        Some(MessageCrc::Crc16(v)) => {
            octets::put(
                out,
                at,
                &(CRC16_NAME + u32::from(v) * CRC_PLACE).to_be_bytes()[1..],
            )
        }
        Some(MessageCrc::Crc24(v)) => {
            octets::put(out, at, &(CRC24_NAME + v * CRC_PLACE).to_be_bytes())
        }
    }
}

// The parameters behind the length.
fn put_rest(out: &mut [u8], at: usize, kind: SegmentKind)
    requires { crc_too_large (crc_in kind) ≡ false }
    ensures { out.new ≡ sets out.old at (params_octets (rest_params kind)) }
{
    match kind {
        SegmentKind::Begin { services, .. } => put_services(out, at, services),
        SegmentKind::Continue { .. } => {}
        SegmentKind::End { crc, .. } => put_crc(out, at, crc),
    }
}

impl SegmentKind {
    fn length_octets(self) -> usize
        ensures { result ≡ length (params_octets (length_param (length_in self))) }
    {
        word_octets(self.message_length())
    }

    // Those of the parameters behind the length.
    fn rest_octets(self) -> usize
        ensures size { result ≡ length (params_octets (rest_params self)) }
        ensures typed { CrcTyped (crc_in self) }
    {
        match self {
            SegmentKind::Begin { services, .. } => word_octets(services),
            SegmentKind::Continue { .. } => 0,
            SegmentKind::End { crc, .. } => crc_octets(crc),
        }
    }

    // The octets of a segment of this kind beside its data.
    #[tactic(auto, using(crate::proofs::Sizes::header_counted, crate::proofs::Sizes::length_octets_le, crate::proofs::Sizes::rest_octets_le))]
    pub fn header_octets(self) -> usize
        ensures { result ≡ header_octets self }
    {
        HEADER_OCTETS + self.length_octets() + self.rest_octets()
    }
}

impl Segment {
    // The tests that a segment with so many data octets passes before it is written.
    pub fn validate(self, segment_data_length: usize, version: u8) -> Result<(), Error>
        ensures { validated_by result ≡ refusal (codec_rows version self segment_data_length) }
    {
        if version < PV1 {
            return Err(Error::Version);
        }
        if TRANSACTION_MASK < self.transaction_id {
            return Err(Error::Field(ErrorField::TransactionId));
        }
        if MAX_SEGMENT_DATA_OCTETS < segment_data_length {
            return Err(Error::Field(ErrorField::SegmentDataLength));
        }
        if self.kind.segment_type().refuses(self.sequence_number) {
            return Err(Error::Field(ErrorField::BeginSequenceNumber));
        }
        if too_long(self.kind.message_length()) {
            return Err(Error::Field(ErrorField::MessageLength));
        }
        if crc_too_large(self.kind.crc()) {
            return Err(Error::Field(ErrorField::Crc24));
        }
        Ok(())
    }

    // Writes a segment that passed the tests, where the output has room.
    fn write(self, data: &[u8], output: &mut [u8]) -> Result<usize, EncodeError>
        requires { Writable self (length «data».now) }
        ensures { leaves result output.new ≡ in_room (written (whole self «data».now)) output.old }
    {
        let kind = self.kind;
        let n = data.len();
        let after = HEADER_OCTETS + n;
        let end = after + kind.length_octets();
        let total = end + kind.rest_octets();
        if output.len() < total {
            return Err(EncodeError::Output);
        }
        output[0] = u8::from(kind.segment_type()) * TYPE_PLACE + self.transaction_id;
        output[1] = self.sequence_number;
        output[2] = n as u8;
        octets::put(output, HEADER_OCTETS, data);
        put_length(output, after, kind.message_length());
        put_rest(output, end, kind);
        Ok(total)
    }

    // Writes a segment into output. A refusal changes no octet, and octets past the encoding stay.
    pub fn encode(self, data: &[u8], version: u8, output: &mut [u8]) -> Result<usize, EncodeError>
        ensures { leaves result output.new ≡ encode_of version self «data».now output.old }
    {
        self.validate(data.len(), version)?;
        self.write(data, output)
    }
}
