// 62: the impossible states.
ghost use Rattle.std.specs.Prelude.{◌≡◌, cond, not, ◌&&◌, ◌+◌, ◌*◌, ◌<◌, ◌≤◌, get_or};
ghost use Rattle.words.specs.Marks.{bit, words_list, marked, all_below};
ghost use Rattle.tsar.specs.Rows.{any_of};
ghost use Rattle.receiver.specs.Record.{past_end, gap as gap_of, impossible};
ghost use Rattle.receiver.specs.Steps.{Added, more, word_length, Upto, length_faults, state_faults};

use crate::kinds::is_begin;
use crate::{Progress, Receiver, SLOT_OCTETS};
use link::profiles::known_profile;
use tsar::SegmentKind;
use words::Words;

const WORDS: usize = 4;

const WORD_MARKS: usize = 64;

// What a scan of the held lengths has found: their sum, and whether one passes 255.
#[derive(Clone, Copy, Debug, PartialEq, Eq)]
pub struct HeldLengths {
    pub sum: usize,
    pub over: bool,
}

impl HeldLengths {
    // With one length more.
    fn with(self, n: usize) -> HeldLengths
        requires { self.sum + n < 18446744073709551616 }
        ensures { result ≡ more self n }
    {
        HeldLengths {
            sum: self.sum + n,
            over: self.over | (SLOT_OCTETS < n),
        }
    }
}

// Word k of the four.
#[tactic(auto, using(words::specs::Laws::word_at))]
fn word(held: Words, k: usize) -> u64
    requires { k < 4 }
    ensures { result ≡ get_or (words_list held) k 0 }
{
    held.words[k]
}

// The length of a slot that counts: n where bit j of the word is set, else 0.
fn held_length(marks: u64, j: usize, n: u16) -> usize
    requires { j < 64 }
    ensures { (result ≡ cond (bit marks j) n 0) × (result ≤ 65535) }
{
    usize::from(n) * ((marks >> j) % 2) as usize
}

// Two scans, since a full word is summed without its marks (docs/SPEED.md); a found length is no value that may be missing.
// With the 64 lengths from `from` on, all of them held.
fn scan_all(from: usize, lengths: &[u16; 256], found: HeldLengths) -> HeldLengths
    requires { (from ≤ 192) × (found.sum ≤ 65535 * from) }
    ensures { Added (λ j. get_or lengths.now (from + j) 0) 64 found result }
{
    let mut all = found;
    for j in 0..WORD_MARKS {
        all = all.with(usize::from(lengths[from + j]));
    }
    all
}

// With those of the 64 lengths from `from` on that the word marks: a length that isn't held counts as 0, and no turn depends on a mark.
fn scan_some(marks: u64, from: usize, lengths: &[u16; 256], found: HeldLengths) -> HeldLengths
    requires { (from ≤ 192) × (found.sum ≤ 65535 * from) }
    ensures { Added (word_length marks lengths.now from) 64 found result }
{
    let mut all = found;
    for j in 0..WORD_MARKS {
        all = all.with(held_length(marks, j, lengths[from + j]));
    }
    all
}

// With the held lengths that word k marks.
fn scan_word(held: Words, k: usize, lengths: &[u16; 256], found: HeldLengths) -> HeldLengths
    requires { (k < 4) × Upto held lengths.now (64 * k) found }
    ensures { Upto held lengths.now (64 * k + 64) result }
{
    let marks = word(held, k);
    if marks == 0 {
        return found;
    }
    let from = WORD_MARKS * k;
    if marks == u64::MAX {
        return scan_all(from, lengths, found);
    }
    scan_some(marks, from, lengths, found)
}

// The one pass over the slots: words that hold nothing are skipped.
fn scan(held: Words, lengths: &[u16; 256]) -> HeldLengths
    ensures { Upto held lengths.now 256 result }
{
    let mut found = HeldLengths {
        sum: 0,
        over: false,
    };
    for k in 0..WORDS {
        found = scan_word(held, k, lengths, found);
    }
    found
}

// A held length passes 255; the count isn't their sum or passes the maximum.
fn lengths_impossible(held: Words, lengths: &[u16; 256], stored: usize, maximum: usize) -> bool
    ensures { result ≡ any_of (length_faults held lengths.now stored maximum) }
{
    let found = scan(held, lengths);
    found.over || stored != found.sum || maximum < stored
}

// Tried: `is_none_or` with a closure; `search` gave up at one of its limits.
// No slot past the end is held.
fn clear_past_end(held: Words, end: Option<u8>) -> bool
    ensures { result ≡ all_below 256 (λ t. not (past_end end t && marked held t)) }
{
    match end {
        None => true,
        Some(e) => held.none_past(e),
    }
}

// No end, or a gap before it.
#[tactic(auto, unfolding(words::specs::Marks::all_below))]
fn gap(held: Words, end: Option<u8>) -> bool
    ensures { result ≡ gap_of held end }
{
    match end {
        None => true,
        Some(0) => false,
        Some(e) => !held.full_to(e - 1),
    }
}

// The state, the marks, the end and the deadline contradict one another. `first` is the kind of slot 0.
fn state_impossible(progress: Progress, held: Words, first: SegmentKind) -> bool
    ensures { result ≡ any_of (state_faults progress held first) }
{
    let state = progress.state;
    let end = progress.end_sequence;
    let taken = state.is_receiving() || state.is_complete();
    (!taken && !held.is_none())
        || (taken && !(held.has(0) && is_begin(first)))
        || !clear_past_end(held, end)
        || (!state.is_receiving() && progress.deadline_monotonic_ms.is_some())
        || (state.is_complete() && gap(held, end))
}

impl Receiver {
    // 62: document 01's list, of the lengths and of the state, and a profile that is neither.
    #[tactic(auto, unfolding(crate::specs::Record::impossible))]
    pub fn is_impossible(&self) -> bool
        ensures { result ≡ impossible self.now }
    {
        lengths_impossible(
            self.held,
            &self.lengths,
            self.progress.stored_octets,
            self.terms.maximum_message_octets,
        ) || state_impossible(self.progress, self.held, self.slots[0].kind)
            || !known_profile(self.terms.profile)
    }
}
