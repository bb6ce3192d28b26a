// What stands before the slots: layout version, terms, progress, held marks.
ghost use Rattle.std.specs.Prelude.{◌≡◌, ◌+◌, ◌≤◌, ◌<◌, length};
ghost use Rattle.std.specs.Bool.{then_some};
ghost use Rattle.std.proofs.lemmas.List.Edits.{sets};
ghost use Rattle.image.specs.Spelling.{spells};
ghost use Rattle.image.specs.Segments.{LengthFits};
ghost use Rattle.receiver_image.specs.Heads.{terms_image, terms_of, TermsFit, standing_image, times_image, TimesFit, progress_image, progress_of, ProgressFits, head_image, head_of, HeadFits};

use crate::parts::{end_octets, end_of, state_octets, state_of};
use crate::slots::LENGTHS;
use crate::{Head, LAYOUT_VERSION};
use image::numbers;
use image::segments::{length_octets, length_of, optional_octets, optional_of};
use image_link::{
    deadline_octets, deadline_of, get_marks, get_peer, peer_octets, protocol_octets, put_marks,
    read_protocol,
};
use receiver::{Progress, Terms};

pub fn put_terms(dst: &mut [u8], at: usize, t: Terms)
    requires { at + 23 ≤ length dst.old }
    ensures { (dst.new ≡ sets dst.old at (terms_image t)) × TermsFit t }
{
    let [number, octet] = protocol_octets(t.protocol);
    let b = [number, octet, t.transaction_id, t.version, t.profile];
    octets::put(dst, at, &peer_octets(t.peer));
    octets::put(dst, at + 10, &b);
    numbers::put(dst, at + 15, t.maximum_message_octets as u64);
}

// State, services, end and stated length.
fn put_standing(dst: &mut [u8], at: usize, p: Progress)
    requires { at + 10 ≤ length dst.old }
    ensures { (dst.new ≡ sets dst.old at (standing_image p)) × LengthFits p.message_length }
{
    octets::put(dst, at, &state_octets(p.state));
    octets::put(dst, at + 2, &optional_octets(p.services));
    octets::put(dst, at + 5, &end_octets(p.end_sequence));
    octets::put(dst, at + 7, &length_octets(p.message_length));
}

// Stored octets, deadline and last reading.
fn put_times(dst: &mut [u8], at: usize, p: Progress)
    requires { at + 25 ≤ length dst.old }
    ensures { (dst.new ≡ sets dst.old at (times_image p)) × TimesFit p }
{
    numbers::put(dst, at, p.stored_octets as u64);
    octets::put(dst, at + 8, &deadline_octets(p.deadline_monotonic_ms));
    numbers::put(dst, at + 17, p.last_monotonic_ms);
}

pub fn put_progress(dst: &mut [u8], at: usize, p: Progress)
    requires { at + 35 ≤ length dst.old }
    ensures { (dst.new ≡ sets dst.old at (progress_image p)) × ProgressFits p }
{
    put_standing(dst, at, p);
    put_times(dst, at + 10, p);
}

pub fn put_head(dst: &mut [u8], h: Head)
    requires { 91 ≤ length dst.old }
    ensures { (dst.new ≡ sets dst.old 0 (head_image h)) × HeadFits h }
{
    octets::put(dst, 0, &[LAYOUT_VERSION]);
    put_terms(dst, 1, h.terms);
    put_progress(dst, 24, h.progress);
    put_marks(dst, 59, h.held);
}

pub fn read_terms(l: &[u8]) -> Terms
    requires { 23 ≤ length l.now }
    ensures { result ≡ terms_of l.now }
{
    let maximum: u64 = numbers::read(l, 15);
    Terms {
        peer: get_peer(l),
        protocol: read_protocol(&l[10..]),
        transaction_id: l[12],
        version: l[13],
        profile: l[14],
        maximum_message_octets: maximum as usize,
    }
}

pub fn read_progress(l: &[u8]) -> Progress
    requires { 35 ≤ length l.now }
    ensures { result ≡ progress_of l.now }
{
    let stored: u64 = numbers::read(l, 10);
    Progress {
        state: state_of(l[0], l[1]),
        services: optional_of(l[2], l[3], l[4]),
        end_sequence: end_of(l[5], l[6]),
        message_length: length_of(l[7], numbers::read(l, 8)),
        stored_octets: stored as usize,
        deadline_monotonic_ms: deadline_of(l[18], numbers::read(l, 19)),
        last_monotonic_ms: numbers::read(l, 27),
    }
}

pub fn read_head(l: &[u8]) -> Head
    requires { 91 ≤ length l.now }
    ensures { result ≡ head_of l.now }
{
    Head {
        terms: read_terms(&l[1..]),
        progress: read_progress(&l[24..]),
        held: get_marks(&l[59..]),
    }
}

// The same, where the octets are those of the head.
pub fn get_head(l: &[u8]) -> Option<Head>
    requires { 91 ≤ length l.now }
    ensures { result ≡ then_some (spells head_image head_of 91 l.now) (head_of l.now) }
{
    let head = read_head(l);
    let mut again = [0u8; LENGTHS];
    put_head(&mut again, head);
    octets::same(&again, &l[..LENGTHS]).then_some(head)
}
