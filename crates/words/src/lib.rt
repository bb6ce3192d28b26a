// 256 marks in four 64-bit words: mark i is bit i % 64 of word i / 64.
#![tactic(auto)]

ghost use Rattle.std.specs.Prelude.{◌≡◌, ◌||◌, ◌&&◌, not, suc, ◌<◌, eqb, ltb};
ghost use Rattle.words.specs.Marks.{bit, marked, word_from, words_of, no_marks, highest_of, lowest_of, all_below, count_below};
ghost use Rattle.words.specs.Search.{IsHighest, IsLowest};

use std::array::from_fn;

#[derive(Clone, Copy)]
pub struct Words {
    pub words: [u64; 4],
}

// The marks below n among the 64 from `from` on, as a word.
fn front_in(n: u16, from: u16) -> u64
    ensures { result ≡ word_from (λ j. ltb j n) from }
{
    let k = n.saturating_sub(from);
    if 64 <= k {
        return u64::MAX;
    }
    (1u64 << k) - 1
}

// The highest set bit of a word that has one.
fn top(word: u64) -> u8
    requires { 0 < word }
    ensures { IsHighest (bit word) 64 result }
{
    63 - word.leading_zeros() as u8
}

// The lowest set bit of a word that has one.
fn bottom(word: u64) -> u8
    requires { 0 < word }
    ensures { IsLowest (bit word) 64 result }
{
    word.trailing_zeros() as u8
}

// How many bits of a word are set.
fn ones_in(word: u64) -> u16
    ensures { result ≡ count_below 64 (bit word) }
{
    word.count_ones() as u16
}

impl Words {
    // No mark.
    pub fn none() -> Words
        ensures { result ≡ no_marks }
    {
        Words { words: [0; 4] }
    }

    // Mark i alone.
    pub fn one(i: u8) -> Words
        ensures { result ≡ words_of (λ j. eqb j i) }
    {
        let mut words = [0; 4];
        words[(i / 64) as usize] = 1 << (i % 64);
        Words { words }
    }

    // Every mark below n.
    pub fn below(n: u16) -> Words
        ensures { result ≡ words_of (λ j. ltb j n) }
    {
        Words {
            words: [
                front_in(n, 0),
                front_in(n, 64),
                front_in(n, 128),
                front_in(n, 192),
            ],
        }
    }

    // Whether mark i is set.
    pub fn has(self, i: u8) -> bool
        ensures { result ≡ marked self i }
    {
        let word = self.words[(i / 64) as usize];
        (word >> (i % 64)) % 2 == 1
    }

    // The marks of both.
    pub fn or(self, w: Words) -> Words
        ensures { result ≡ words_of (λ j. marked self j || marked w j) }
    {
        Words {
            words: from_fn(|k| self.words[k] | w.words[k]),
        }
    }

    // The marks that are in both.
    pub fn and(self, w: Words) -> Words
        ensures { result ≡ words_of (λ j. marked self j && marked w j) }
    {
        Words {
            words: from_fn(|k| self.words[k] & w.words[k]),
        }
    }

    // The marks that are not in w.
    pub fn minus(self, w: Words) -> Words
        ensures { result ≡ words_of (λ j. marked self j && not (marked w j)) }
    {
        Words {
            words: from_fn(|k| self.words[k] & !w.words[k]),
        }
    }

    // With mark i set.
    pub fn with(self, i: u8) -> Words
        ensures { result ≡ words_of (λ j. eqb j i || marked self j) }
    {
        Words::one(i).or(self)
    }

    // With mark i clear.
    pub fn without(self, i: u8) -> Words
        ensures { result ≡ words_of (λ j. not (eqb j i) && marked self j) }
    {
        self.minus(Words::one(i))
    }

    // The marks below n.
    pub fn first(self, n: u16) -> Words
        ensures { result ≡ words_of (λ j. ltb j n && marked self j) }
    {
        Words::below(n).and(self)
    }

    // Whether no mark is set.
    pub fn is_none(self) -> bool
        ensures { result ≡ all_below 256 (λ j. not (marked self j)) }
    {
        self.words == [0; 4]
    }

    // Whether marks 0 to e are all set.
    pub fn full_to(self, e: u8) -> bool
        ensures { result ≡ all_below (suc e) (marked self) }
    {
        Words::below(e as u16 + 1).minus(self).is_none()
    }

    // Whether no mark past e is set.
    pub fn none_past(self, e: u8) -> bool
        ensures { result ≡ all_below 256 (λ j. not (ltb e j && marked self j)) }
    {
        self.minus(Words::below(e as u16 + 1)).is_none()
    }

    // The highest mark.
    pub fn highest(self) -> Option<u8>
        ensures { result ≡ highest_of (marked self) 256 }
    {
        for k in (0..4).rev() {
            if self.words[k] != 0 {
                return Some(64 * k as u8 + top(self.words[k]));
            }
        }
        None
    }

    // The lowest mark.
    pub fn lowest(self) -> Option<u8>
        ensures { result ≡ lowest_of (marked self) 256 }
    {
        for k in 0..4 {
            if self.words[k] != 0 {
                return Some(64 * k as u8 + bottom(self.words[k]));
            }
        }
        None
    }

    // How many marks are set.
    pub fn ones(self) -> u16
        ensures { result ≡ count_below 256 (marked self) }
    {
        let low = ones_in(self.words[0]) + ones_in(self.words[1]);
        let high = ones_in(self.words[2]) + ones_in(self.words[3]);
        low + high
    }
}
