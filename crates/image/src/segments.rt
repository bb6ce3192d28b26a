// The layouts KIND, SEGMENT and HEAD: written, and read off the front of octets with the strict test.
ghost use Rattle.std.specs.Prelude.{◌≡◌, ◌+◌, ◌≤◌, length};
ghost use Rattle.std.specs.Bool.{then_some};
ghost use Rattle.std.proofs.lemmas.List.Edits.{sets};
ghost use Rattle.image.specs.Segments.{length_image, length_from, LengthFits, optional_image, optional_from, services_image, services_from, crc_number, crc_value, crc_image, crc_from, CrcFits, services_in, kind_image, kind_from, kind_of, kind_ok, KindFits, segment_image, segment_of, segment_ok, SegmentFits, head_image, head_of, head_ok, HeadFits};

use crate::cases::{compression_of, crc_status_of, window_of};
use crate::numbers::{Number, place, put, read};
use tsar::{MessageCrc, OptionalServices, Segment, SegmentHead, SegmentKind};

pub const KIND_OCTETS: usize = 13;

pub const SEGMENT_OCTETS: usize = 15;

pub const HEAD_OCTETS: usize = 23;

// A stated length.

#[tactic(auto, unfolding(crate::specs::Segments::length_image, crate::specs::Numbers::spell))]
pub fn length_octets(m: Option<u16>) -> [u8; 3]
    ensures { (result ≡ length_image m) × LengthFits m }
{
    let [high, low]: [u8; 2] = m.unwrap_or(0).octets();
    [u8::from(m.is_some()), high, low]
}

pub fn length_of(flag: u8, n: u16) -> Option<u16>
    ensures { result ≡ length_from flag n }
{
    (flag != 0).then_some(n)
}

// Services.

#[tactic(auto, unfolding(crate::specs::Segments::optional_image))]
pub fn optional_octets(s: OptionalServices) -> [u8; 3]
    ensures { result ≡ optional_image s }
{
    [
        u8::from(s.compression),
        u8::from(s.acknowledgment_window),
        u8::from(s.crc_status),
    ]
}

pub fn optional_of(compression: u8, window: u8, status: u8) -> OptionalServices
    ensures { result ≡ optional_from compression window status }
{
    OptionalServices {
        compression: compression_of(compression),
        acknowledgment_window: window_of(window),
        crc_status: crc_status_of(status),
    }
}

#[tactic(auto, unfolding(crate::specs::Segments::services_image, crate::specs::Segments::optional_image))]
pub fn services_octets(s: Option<OptionalServices>) -> [u8; 4]
    ensures { result ≡ services_image s }
{
    let Some(services) = s else {
        return [0, 0, 0, 0];
    };
    let [compression, window, status] = optional_octets(services);
    [1, compression, window, status]
}

pub fn services_of(flag: u8, s: OptionalServices) -> Option<OptionalServices>
    ensures { result ≡ services_from flag s }
{
    (flag != 0).then_some(s)
}

// A CRC.

// The numbers are the layout's (the C interface), and an impl of From for a type of another crate cannot stand here.
fn crc_number(c: Option<MessageCrc>) -> u8
    ensures { result ≡ crc_number c }
{
    match c {
        None => 0,
        Some(MessageCrc::Crc16(_)) => 1,
        Some(MessageCrc::Crc24(_)) => 2,
    }
}

// Beside the value: what the type of a CRC says of it, which a caller that holds the enum doesn't know.
fn crc_value(c: Option<MessageCrc>) -> u32
    ensures { (result ≡ crc_value c) × CrcFits c }
{
    match c {
        None => 0,
        Some(MessageCrc::Crc16(v)) => u32::from(v),
        Some(MessageCrc::Crc24(v)) => v,
    }
}

#[tactic(auto, unfolding(crate::specs::Segments::crc_image, crate::specs::Numbers::spell))]
pub fn crc_octets(c: Option<MessageCrc>) -> [u8; 5]
    ensures { (result ≡ crc_image c) × CrcFits c }
{
    let [v3, v2, v1, v0]: [u8; 4] = crc_value(c).octets();
    [crc_number(c), v3, v2, v1, v0]
}

pub fn crc_of(number: u8, crc16: u16, crc24: u32) -> Option<MessageCrc>
    ensures { result ≡ crc_from number crc16 crc24 }
{
    match number {
        0 => None,
        1 => Some(MessageCrc::Crc16(crc16)),
        _ => Some(MessageCrc::Crc24(crc24)),
    }
}

// KIND.

fn services_in(kind: SegmentKind) -> Option<OptionalServices>
    ensures { result ≡ services_in kind }
{
    match kind {
        SegmentKind::Begin { services, .. } => services,
        _ => None,
    }
}

pub fn kind_octets(kind: SegmentKind) -> [u8; 13]
    ensures { (result ≡ kind_image kind) × KindFits kind }
{
    let m = length_octets(kind.message_length());
    let s = services_octets(services_in(kind));
    let c = crc_octets(kind.crc());
    [
        u8::from(kind.segment_type()),
        m[0],
        m[1],
        m[2],
        s[0],
        s[1],
        s[2],
        s[3],
        c[0],
        c[1],
        c[2],
        c[3],
        c[4],
    ]
}

fn kind_of(
    number: u8,
    message_length: Option<u16>,
    services: Option<OptionalServices>,
    crc: Option<MessageCrc>,
) -> SegmentKind
    ensures { result ≡ kind_from number message_length services crc }
{
    match number {
        0 => SegmentKind::Begin {
            message_length,
            services,
        },
        1 => SegmentKind::Continue { message_length },
        _ => SegmentKind::End {
            message_length,
            crc,
        },
    }
}

// The kind that octets spell.
pub fn read_kind(l: &[u8]) -> SegmentKind
    requires { 13 ≤ length l.now }
    ensures { result ≡ kind_of l.now }
{
    kind_of(
        l[0],
        length_of(l[1], read(l, 2)),
        services_of(l[4], optional_of(l[5], l[6], l[7])),
        crc_of(l[8], read(l, 11), read(l, 9)),
    )
}

// The same, where the octets are those of the kind. Compiled in: a call gives each of a record's 256 kinds back by way of memory (docs/SPEED.md).
#[inline(always)]
pub fn get_kind(l: &[u8]) -> Option<SegmentKind>
    requires { 13 ≤ length l.now }
    ensures { result ≡ then_some (kind_ok l.now) (kind_of l.now) }
{
    let kind = read_kind(l);
    octets::same(&kind_octets(kind), &l[..KIND_OCTETS]).then_some(kind)
}

// Compiled in, as get_kind is.
#[inline(always)]
pub fn put_kind(dst: &mut [u8], at: usize, kind: SegmentKind)
    ensures { (dst.new ≡ sets dst.old at (kind_image kind)) × KindFits kind }
{
    if KIND_OCTETS <= dst.len() && at <= dst.len() - KIND_OCTETS {
        place(dst, at, &kind_octets(kind));
    } else {
        octets::put(dst, at, &kind_octets(kind));
    }
}

// SEGMENT.

// The segment that octets spell.
#[tactic(auto, unfolding(crate::specs::Segments::segment_of), using(crate::specs::Spelling::rest_of))]
pub fn read_segment(l: &[u8]) -> Segment
    requires { 15 ≤ length l.now }
    ensures { result ≡ segment_of l.now }
{
    Segment {
        transaction_id: l[0],
        sequence_number: l[1],
        kind: read_kind(&l[2..]),
    }
}

// The same, where the octets are those of the segment.
pub fn get_segment(l: &[u8]) -> Option<Segment>
    requires { 15 ≤ length l.now }
    ensures { result ≡ then_some (segment_ok l.now) (segment_of l.now) }
{
    let kind = get_kind(&l[2..])?;
    Some(Segment {
        transaction_id: l[0],
        sequence_number: l[1],
        kind,
    })
}

pub fn put_segment(dst: &mut [u8], at: usize, segment: Segment)
    requires { at + 15 ≤ length dst.old }
    ensures { (dst.new ≡ sets dst.old at (segment_image segment)) × SegmentFits segment }
{
    dst[at] = segment.transaction_id;
    dst[at + 1] = segment.sequence_number;
    put_kind(dst, at + 2, segment.kind);
}

// HEAD.

// The head that octets spell.
#[tactic(auto, unfolding(crate::specs::Segments::head_of))]
pub fn read_head(l: &[u8]) -> SegmentHead
    requires { 23 ≤ length l.now }
    ensures { result ≡ head_of l.now }
{
    let length: u64 = read(l, SEGMENT_OCTETS);
    SegmentHead {
        segment: read_segment(l),
        segment_data_length: length as usize,
    }
}

// The same, where the octets are those of the head.
pub fn get_head(l: &[u8]) -> Option<SegmentHead>
    requires { 23 ≤ length l.now }
    ensures { result ≡ then_some (head_ok l.now) (head_of l.now) }
{
    let n: u64 = read(l, SEGMENT_OCTETS);
    let segment = get_segment(l)?;
    Some(SegmentHead {
        segment,
        segment_data_length: n as usize,
    })
}

pub fn put_head(dst: &mut [u8], at: usize, head: SegmentHead)
    requires { at + 23 ≤ length dst.old }
    ensures { (dst.new ≡ sets dst.old at (head_image head)) × HeadFits head }
{
    put_segment(dst, at, head.segment);
    put(dst, at + SEGMENT_OCTETS, head.segment_data_length as u64);
}
