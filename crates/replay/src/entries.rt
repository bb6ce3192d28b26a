// The heads of a frozen plan: entries of an input, and the heads of the call.
use crate::number::{be16, from, front};
use image::segments::{HEAD_OCTETS, SEGMENT_OCTETS, get_segment};

// An entry is a head and its data length in 2 octets. In the call's heads the length has 8.
const ENTRY_OCTETS: usize = 17;

const LENGTH: usize = 21;

const MAX_ENTRIES: usize = 256;

const HEADS_OCTETS: usize = 5888;

// Whether octets begin with a head.
pub fn is_head(s: &[u8]) -> bool {
    SEGMENT_OCTETS <= s.len() && get_segment(s).is_some()
}

// Whether there are as many entries as an input says.
pub fn has_entries(input: &[u8], entries: &[u8]) -> bool {
    let n = (be16(input, 0) as usize).min(MAX_ENTRIES);
    entries.len() == n * ENTRY_OCTETS && entries.chunks_exact(ENTRY_OCTETS).all(is_head)
}

// The entries as the call has them. Those that are missing are 0.
pub fn heads_of(entries: &[u8]) -> [u8; HEADS_OCTETS] {
    let mut heads = [0u8; HEADS_OCTETS];
    let places = heads.chunks_exact_mut(HEAD_OCTETS);
    for (entry, head) in entries.chunks_exact(ENTRY_OCTETS).zip(places) {
        octets::put(head, 0, front(entry, SEGMENT_OCTETS));
        octets::put(head, LENGTH, from(entry, SEGMENT_OCTETS));
    }
    heads
}
