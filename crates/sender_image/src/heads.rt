// What stands before the plan: layout version, terms, progress.
ghost use Rattle.std.specs.Prelude.{◌≡◌, ◌+◌, ◌≤◌, length};
ghost use Rattle.std.specs.Bool.{then_some};
ghost use Rattle.std.proofs.lemmas.List.Edits.{sets};
ghost use Rattle.sender_image.specs.Heads.{terms_image, terms_of, TermsFit, standing_image, StandingFits, marked_image, MarkedFit, times_image, TimesFit, progress_image, progress_of, ProgressFits, head_image, head_of, head_ok, HeadFits};

use crate::parts::{put_current, read_current};
use crate::states::{state_octets, state_of};
use crate::{Head, LAYOUT_VERSION, PLAN};
use image::numbers;
use image_link::{
    deadline_octets, deadline_of, get_marks, get_peer, peer_octets, protocol_octets, put_marks,
    read_protocol,
};
use sender::{Progress, Terms};

pub fn put_terms(dst: &mut [u8], at: usize, t: Terms)
    requires { at + 22 ≤ length dst.old }
    ensures { (dst.new ≡ sets dst.old at (terms_image t)) × TermsFit t }
{
    let [number, octet] = protocol_octets(t.protocol);
    octets::put(dst, at, &peer_octets(t.peer));
    octets::put(dst, at + 10, &[number, octet, t.version, t.profile]);
    numbers::put(dst, at + 14, t.number);
}

// State, submission and last ticket.
fn put_standing(dst: &mut [u8], at: usize, p: Progress)
    requires { at + 30 ≤ length dst.old }
    ensures { (dst.new ≡ sets dst.old at (standing_image p)) × StandingFits p }
{
    octets::put(dst, at, &state_octets(p.state));
    put_current(dst, at + 4, p.current);
    numbers::put(dst, at + 22, p.last_ticket);
}

// What was submitted, is to be sent again, was received.
fn put_marked(dst: &mut [u8], at: usize, p: Progress)
    requires { at + 96 ≤ length dst.old }
    ensures { (dst.new ≡ sets dst.old at (marked_image p)) × MarkedFit p }
{
    put_marks(dst, at, p.submitted);
    put_marks(dst, at + 32, p.retry);
    put_marks(dst, at + 64, p.received);
}

// Deadline, last reading and number of submissions.
fn put_times(dst: &mut [u8], at: usize, p: Progress)
    requires { at + 25 ≤ length dst.old }
    ensures { (dst.new ≡ sets dst.old at (times_image p)) × TimesFit p }
{
    octets::put(dst, at, &deadline_octets(p.deadline_monotonic_ms));
    numbers::put(dst, at + 9, p.last_monotonic_ms);
    numbers::put(dst, at + 17, p.layer3_submissions);
}

pub fn put_progress(dst: &mut [u8], at: usize, p: Progress)
    requires { at + 151 ≤ length dst.old }
    ensures { (dst.new ≡ sets dst.old at (progress_image p)) × ProgressFits p }
{
    put_standing(dst, at, p);
    put_marked(dst, at + 30, p);
    put_times(dst, at + 126, p);
}

pub fn put_head(dst: &mut [u8], h: Head)
    requires { 174 ≤ length dst.old }
    ensures { (dst.new ≡ sets dst.old 0 (head_image h)) × HeadFits h }
{
    octets::put(dst, 0, &[LAYOUT_VERSION]);
    put_terms(dst, 1, h.terms);
    put_progress(dst, 23, h.progress);
}

pub fn read_terms(l: &[u8]) -> Terms
    requires { 22 ≤ length l.now }
    ensures { result ≡ terms_of l.now }
{
    Terms {
        peer: get_peer(l),
        protocol: read_protocol(&l[10..]),
        version: l[12],
        profile: l[13],
        number: numbers::read(l, 14),
    }
}

pub fn read_progress(l: &[u8]) -> Progress
    requires { 151 ≤ length l.now }
    ensures { result ≡ progress_of l.now }
{
    Progress {
        state: state_of(l[0], l[1], l[2], l[3]),
        current: read_current(&l[4..]),
        last_ticket: numbers::read(l, 22),
        submitted: get_marks(&l[30..]),
        retry: get_marks(&l[62..]),
        received: get_marks(&l[94..]),
        deadline_monotonic_ms: deadline_of(l[126], numbers::read(l, 127)),
        last_monotonic_ms: numbers::read(l, 135),
        layer3_submissions: numbers::read(l, 143),
    }
}

pub fn read_head(l: &[u8]) -> Head
    requires { 174 ≤ length l.now }
    ensures { result ≡ head_of l.now }
{
    Head {
        terms: read_terms(&l[1..]),
        progress: read_progress(&l[23..]),
    }
}

// The same, where the octets are those of the head.
pub fn get_head(l: &[u8]) -> Option<Head>
    requires { 174 ≤ length l.now }
    ensures { result ≡ then_some (head_ok l.now) (head_of l.now) }
{
    let head = read_head(l);
    let mut again = [0u8; PLAN];
    put_head(&mut again, head);
    octets::same(&again, &l[..PLAN]).then_some(head)
}
