// The layout RECEIVER: a receiver's record in 3,931 octets, put and got with the strict test. Internal to the exports, as the crate image is.
#![tactic(auto)]

ghost use Rattle.std.specs.Prelude.{◌≡◌, ◌≤◌, length};
ghost use Rattle.std.specs.Bool.{then_some};
ghost use Rattle.std.proofs.lemmas.List.Edits.{sets};
ghost use Rattle.receiver_image.specs.Images.{image_of, record_of, image_ok, ReceiverFits};

use crate::heads::{get_head, put_head, read_head};
use crate::slots::{LENGTHS, SLOTS, get_lengths, get_slots, put_lengths, put_slots, read_slots};
use receiver::{Progress, Receiver, Terms};
use words::Words;

pub mod heads;
pub mod parts;
pub mod slots;

pub const RECEIVER_OCTETS: usize = 3931;

// The number that a receiver's octets begin with.
const LAYOUT_VERSION: u8 = 2;

// All of a receiver but the slots.
#[derive(Clone, Copy)]
pub struct Head {
    pub terms: Terms,
    pub progress: Progress,
    pub held: Words,
}

// A receiver at the front of octets, which then spell it.
pub fn put_receiver(dst: &mut [u8], r: Receiver)
    requires { 3931 ≤ length dst.old }
    ensures { (dst.new ≡ sets dst.old 0 (image_of r)) × ReceiverFits r }
{
    put_head(
        dst,
        Head {
            terms: r.terms,
            progress: r.progress,
            held: r.held,
        },
    );
    put_lengths(dst, r.lengths);
    put_slots(dst, r.slots);
}

// The receiver that octets spell.
pub fn read_receiver(l: &[u8]) -> Receiver
    requires { 3931 ≤ length l.now }
    ensures { result ≡ record_of l.now }
{
    let head = read_head(l);
    Receiver {
        terms: head.terms,
        progress: head.progress,
        held: head.held,
        lengths: get_lengths(&l[LENGTHS..]),
        slots: read_slots(&l[SLOTS..]),
    }
}

// The same, where they are the octets of that. Compiled in, as get_slots and the kinds are: a call gives the record back in an Option by way of
// memory that is zeroed and then copied, layer by layer (docs/SPEED.md).
#[inline(always)]
pub fn get_receiver(l: &[u8]) -> Option<Receiver>
    requires { 3931 ≤ length l.now }
    ensures { result ≡ then_some (image_ok l.now) (record_of l.now) }
{
    let lengths = get_lengths(&l[LENGTHS..]);
    let head = get_head(l)?;
    let slots = get_slots(&l[SLOTS..])?;
    Some(Receiver {
        terms: head.terms,
        progress: head.progress,
        held: head.held,
        lengths,
        slots,
    })
}
