// The data lengths and the slots, one after another. Reading and writing them looks alike, and like plan_image's heads: one pair for all would be over a
// trait of image, and an impl of it for another crate's type (`Slot`, `SegmentHead`) cannot stand here.
ghost use Rattle.std.specs.Prelude.{◌≡◌, true, ◌≤◌, length};
ghost use Rattle.std.specs.Bool.{then_some};
ghost use Rattle.std.proofs.lemmas.List.Edits.{sets};
ghost use Rattle.receiver.specs.Record.{no_slot};
ghost use Rattle.image.specs.Spelling.{spells};
ghost use Rattle.image.specs.Numbers.{spell};
ghost use Rattle.image.specs.Segments.{kind_ok};
ghost use Rattle.image.specs.Many.{spell_all, all_pass, AllFit};
ghost use Rattle.receiver_image.specs.Images.{slot_image, lengths_of, slots_of, LengthFits, SlotFits};

use image::numbers;
use image::segments::{KIND_OCTETS, get_kind, put_kind, read_kind};
use receiver::Slot;
use tsar::SegmentKind;

// Where they begin.
pub const LENGTHS: usize = 91;

pub const SLOTS: usize = 603;

const LENGTH_OCTETS: usize = 2;

const NO_SLOT: Slot = Slot {
    kind: SegmentKind::Begin {
        message_length: None,
        services: None,
    },
};

pub fn put_lengths(dst: &mut [u8], lengths: [u16; 256])
    requires { 603 ≤ length dst.old }
    ensures { (dst.new ≡ sets dst.old 91 (spell_all (spell 2) lengths)) × AllFit LengthFits 256 0 lengths }
{
    for (i, n) in lengths.iter().enumerate() {
        numbers::put(dst, LENGTHS + LENGTH_OCTETS * i, *n);
    }
}

// Octets always spell lengths.
pub fn get_lengths(l: &[u8]) -> [u16; 256]
    requires { 512 ≤ length l.now }
    ensures { (result ≡ lengths_of l.now) × (spells (spell_all (spell 2)) lengths_of 512 l.now ≡ true) }
{
    let mut lengths = [0u16; 256];
    for (i, n) in lengths.iter_mut().enumerate() {
        *n = numbers::read(l, LENGTH_OCTETS * i);
    }
    lengths
}

pub fn put_slots(dst: &mut [u8], slots: [Slot; 256])
    requires { 3931 ≤ length dst.old }
    ensures { (dst.new ≡ sets dst.old 603 (spell_all slot_image slots)) × AllFit SlotFits 256 no_slot slots }
{
    for (i, slot) in slots.iter().enumerate() {
        put_kind(dst, SLOTS + KIND_OCTETS * i, slot.kind);
    }
}

// The slots that octets spell.
pub fn read_slots(l: &[u8]) -> [Slot; 256]
    requires { 3328 ≤ length l.now }
    ensures { result ≡ slots_of l.now }
{
    let mut slots = [NO_SLOT; 256];
    for (i, slot) in slots.iter_mut().enumerate() {
        slot.kind = read_kind(&l[KIND_OCTETS * i..]);
    }
    slots
}

// The same, where the octets are those of the slots.
#[inline(always)]
pub fn get_slots(l: &[u8]) -> Option<[Slot; 256]>
    requires { 3328 ≤ length l.now }
    ensures { result ≡ then_some (all_pass kind_ok 13 256 l.now) (slots_of l.now) }
{
    let mut slots = [NO_SLOT; 256];
    for (i, slot) in slots.iter_mut().enumerate() {
        slot.kind = get_kind(&l[KIND_OCTETS * i..])?;
    }
    Some(slots)
}
