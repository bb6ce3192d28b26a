// The layouts of what both machines hold: peers, protocols, marks and responses. Internal to the exports, as the crate image is.
#![tactic(auto)]

ghost use Rattle.std.specs.Prelude.{◌≡◌, true, ◌+◌, ◌≤◌, length};
ghost use Rattle.std.specs.Bool.{then_some};
ghost use Rattle.std.proofs.lemmas.List.Edits.{sets};
ghost use Rattle.image.specs.Spelling.{spells};
ghost use Rattle.image_link.specs.Peers.{peer_image, peer_of, PeerFits, protocol_image, protocol_in};
ghost use Rattle.image_link.specs.Marks.{marks_image, marks_of, MarksFit};
ghost use Rattle.image_link.specs.Deadlines.{deadline_image, deadline_from, DeadlineFits};
ghost use Rattle.image_link.specs.Responses.{support_image, support_from, response_image, response_of, response_ok, ResponseFits};

use image::cases::{protocol_number, protocol_octet, protocol_of, status_of};
use image::numbers::{self, Number};
use link::{HigherLayerProtocol, MobileIdentity};
use response::{AcknowledgmentMap, OptionalServicesSupport, Response};
use words::Words;

pub const RESPONSE_OCTETS: usize = 41;

// A peer: kind, width, value.

#[tactic(auto, unfolding(crate::specs::Peers::peer_image, image::specs::Numbers::spell))]
pub fn peer_octets(p: MobileIdentity) -> [u8; 10]
    ensures { (result ≡ peer_image p) × PeerFits p }
{
    let v: [u8; 8] = p.value.octets();
    [
        p.kind, p.width, v[0], v[1], v[2], v[3], v[4], v[5], v[6], v[7],
    ]
}

// Octets always spell a peer.
pub fn get_peer(l: &[u8]) -> MobileIdentity
    requires { 10 ≤ length l.now }
    ensures { (result ≡ peer_of l.now) × (spells peer_image peer_of 10 l.now ≡ true) }
{
    MobileIdentity {
        kind: l[0],
        width: l[1],
        value: numbers::read(l, 2),
    }
}

// A protocol: number, octet.

#[tactic(auto, unfolding(crate::specs::Peers::protocol_image))]
pub fn protocol_octets(p: HigherLayerProtocol) -> [u8; 2]
    ensures { result ≡ protocol_image p }
{
    [protocol_number(p), protocol_octet(p)]
}

// The protocol that octets spell.
#[tactic(auto, unfolding(crate::specs::Peers::protocol_in))]
pub fn read_protocol(l: &[u8]) -> HigherLayerProtocol
    requires { 2 ≤ length l.now }
    ensures { result ≡ protocol_in l.now }
{
    protocol_of(l[0], l[1])
}

// Four words of marks.

pub fn put_marks(dst: &mut [u8], at: usize, w: Words)
    requires { at + 32 ≤ length dst.old }
    ensures { (dst.new ≡ sets dst.old at (marks_image w)) × MarksFit w }
{
    let [a, b, c, d] = w.words;
    numbers::put(dst, at, a);
    numbers::put(dst, at + 8, b);
    numbers::put(dst, at + 16, c);
    numbers::put(dst, at + 24, d);
}

// Octets always spell marks.
pub fn get_marks(l: &[u8]) -> Words
    requires { 32 ≤ length l.now }
    ensures { (result ≡ marks_of l.now) × (spells marks_image marks_of 32 l.now ≡ true) }
{
    Words {
        words: [
            numbers::read(l, 0),
            numbers::read(l, 8),
            numbers::read(l, 16),
            numbers::read(l, 24),
        ],
    }
}

// A deadline: flag, reading.

#[tactic(auto, unfolding(crate::specs::Deadlines::deadline_image, image::specs::Numbers::spell))]
pub fn deadline_octets(d: Option<u64>) -> [u8; 9]
    ensures { (result ≡ deadline_image d) × DeadlineFits d }
{
    let n: [u8; 8] = d.unwrap_or(0).octets();
    [
        u8::from(d.is_some()),
        n[0],
        n[1],
        n[2],
        n[3],
        n[4],
        n[5],
        n[6],
        n[7],
    ]
}

pub fn deadline_of(flag: u8, t: u64) -> Option<u64>
    ensures { result ≡ deadline_from flag t }
{
    (flag != 0).then_some(t)
}

// RESPONSE.

#[tactic(auto, unfolding(crate::specs::Responses::support_image))]
pub fn support_octets(s: Option<OptionalServicesSupport>) -> [u8; 5]
    ensures { result ≡ support_image s }
{
    match s {
        None => [0, 0, 0, 0, 0],
        Some(o) => [
            1,
            u8::from(o.compression),
            u8::from(o.encryption),
            u8::from(o.acknowledgment_window),
            u8::from(o.crc),
        ],
    }
}

fn support_of(number: u8, a: u8, b: u8, c: u8, d: u8) -> Option<OptionalServicesSupport>
    ensures { result ≡ support_from number a b c d }
{
    (number != 0).then_some(OptionalServicesSupport {
        compression: a == 1,
        encryption: b == 1,
        acknowledgment_window: c == 1,
        crc: d == 1,
    })
}

pub fn put_response(dst: &mut [u8], at: usize, r: Response)
    requires { at + 41 ≤ length dst.old }
    ensures { (dst.new ≡ sets dst.old at (response_image r)) × ResponseFits r }
{
    let [high, low]: [u8; 2] = r.acknowledgments.bit_count.octets();
    octets::put(dst, at, &[r.transaction_id, u8::from(r.status), high, low]);
    put_marks(dst, at + 4, r.acknowledgments.received);
    octets::put(dst, at + 36, &support_octets(r.optional_services_support));
}

// The response that octets spell.
pub fn read_response(l: &[u8]) -> Response
    requires { 41 ≤ length l.now }
    ensures { result ≡ response_of l.now }
{
    Response {
        transaction_id: l[0],
        status: status_of(l[1]),
        acknowledgments: AcknowledgmentMap {
            received: get_marks(&l[4..]),
            bit_count: numbers::read(l, 2),
        },
        optional_services_support: support_of(l[36], l[37], l[38], l[39], l[40]),
    }
}

// The same, where the octets are those of the response.
pub fn get_response(l: &[u8]) -> Option<Response>
    requires { 41 ≤ length l.now }
    ensures { result ≡ then_some (response_ok l.now) (response_of l.now) }
{
    let response = read_response(l);
    let mut again = [0u8; RESPONSE_OCTETS];
    put_response(&mut again, 0, response);
    octets::same(&again, &l[..RESPONSE_OCTETS]).then_some(response)
}
