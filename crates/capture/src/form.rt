// The words that a line is written with, and what may stand at each place of a line of words.
ghost use Rattle.std.specs.Prelude.{◌≡◌, codes, Some};
ghost use Rattle.octets.specs.Octets.{same_octets};
ghost use Rattle.capture.specs.Decimal.{number_of};
ghost use Rattle.capture.specs.Hexadecimal.{octet_of};
ghost use Rattle.capture.specs.Forms.{spelling, forms, passed_if, up_to, is_protocol, word_check, check_of, end_check, words_check};
ghost use Rattle.capture.specs.Text.{word as word_of};

use crate::number::{NumberFault, number_of};
use crate::octet::octet_of;
use crate::text::{after, word};
use std::error::Error;
use std::fmt;

const MAX_SMALL: u64 = 255;

// Where a receiver line says its profile, and the words that this takes.
pub const PROFILE_PLACE: usize = 12;

pub const PROFILE_WORDS: usize = 2;

// What stands at each place of a receiver line without a profile, of one with a profile, of an advance and of a cancel.
const RECEIVER: [Form; 16] = [
    Form::Word(Keyword::Receiver),
    Form::Word(Keyword::Peer),
    Form::Small,
    Form::Small,
    Form::Number,
    Form::Word(Keyword::Protocol),
    Form::Protocol,
    Form::Octet,
    Form::Word(Keyword::Transaction),
    Form::Small,
    Form::Word(Keyword::Version),
    Form::Small,
    Form::Word(Keyword::Maximum),
    Form::Number,
    Form::Word(Keyword::At),
    Form::Number,
];

const RECEIVER_PROFILE: [Form; 18] = [
    Form::Word(Keyword::Receiver),
    Form::Word(Keyword::Peer),
    Form::Small,
    Form::Small,
    Form::Number,
    Form::Word(Keyword::Protocol),
    Form::Protocol,
    Form::Octet,
    Form::Word(Keyword::Transaction),
    Form::Small,
    Form::Word(Keyword::Version),
    Form::Small,
    Form::Word(Keyword::Profile),
    Form::Small,
    Form::Word(Keyword::Maximum),
    Form::Number,
    Form::Word(Keyword::At),
    Form::Number,
];

const ADVANCE: [Form; 2] = [Form::Word(Keyword::Advance), Form::Number];

const CANCEL: [Form; 2] = [Form::Word(Keyword::Cancel), Form::Number];

#[derive(Clone, Copy, Debug, PartialEq, Eq)]
pub enum Keyword {
    Receiver,
    Peer,
    Protocol,
    Segmented,
    Carrier,
    Other,
    Transaction,
    Version,
    Profile,
    Maximum,
    At,
    Advance,
    Cancel,
}

// What may stand at a place: a word, a number up to 255, a number of 64 bits, the name of a protocol, an octet.
#[derive(Clone, Copy, Debug, PartialEq, Eq)]
pub enum Form {
    Word(Keyword),
    Small,
    Number,
    Protocol,
    Octet,
}

// The lines of words; a receiver line has two, without a profile and with one.
#[derive(Clone, Copy)]
pub enum Sentence {
    Receiver,
    ReceiverProfile,
    Advance,
    Cancel,
}

// What is wrong with a word: there is none; it has not the form that stands there; it is a number, and too large; it is one too many; no
// line starts so.
#[derive(Clone, Copy, Debug, PartialEq, Eq)]
pub enum WordFault {
    Missing(Form),
    Wrong(Form),
    TooLarge(Form),
    Extra,
    Start,
}

// The first word of a line that is wrong, counted from 0.
#[derive(Clone, Copy, Debug, PartialEq, Eq)]
pub struct BadWord {
    pub fault: WordFault,
    pub at: usize,
}

impl Keyword {
    const fn as_str(self) -> &'static str
        ensures { result.now ≡ spelling self }
    {
        match self {
            Keyword::Receiver => "receiver",
            Keyword::Peer => "peer",
            Keyword::Protocol => "protocol",
            Keyword::Segmented => "segmented",
            Keyword::Carrier => "carrier",
            Keyword::Other => "other",
            Keyword::Transaction => "transaction",
            Keyword::Version => "version",
            Keyword::Profile => "profile",
            Keyword::Maximum => "maximum",
            Keyword::At => "at",
            Keyword::Advance => "advance",
            Keyword::Cancel => "cancel",
        }
    }
}

impl fmt::Display for Form {
    ghost use Rattle.capture.specs.Messages.{form_text};

    ghost output = { λ form. Some (form_text form) };

    fn fmt<W: fmt::Write>(&self, f: &mut fmt::Formatter<W>) -> fmt::Result {
        match self {
            Form::Word(k) => write!(f, "the word {}", k.as_str()),
            Form::Small => write!(f, "a number from 0 to {}", u8::MAX),
            Form::Number => write!(f, "a number from 0 to {}", u64::MAX),
            Form::Protocol => f.write_str("segmented, carrier or other"),
            Form::Octet => f.write_str("an octet of two hexadecimal digits"),
        }
    }
}

// A word is counted from 1 here.
impl fmt::Display for BadWord {
    ghost use Rattle.capture.specs.Messages.{word_text};

    ghost output = { λ fault. Some (word_text fault) };

    fn fmt<W: fmt::Write>(&self, f: &mut fmt::Formatter<W>) -> fmt::Result {
        let n = self.at.saturating_add(1);
        match self.fault {
            WordFault::Missing(form) => write!(f, "word {n} is missing: it should be {form}"),
            WordFault::Wrong(form) => write!(f, "word {n} should be {form}"),
            WordFault::TooLarge(form) => write!(f, "word {n} is too large: it should be {form}"),
            WordFault::Extra => write!(f, "word {n} is one too many"),
            WordFault::Start => write!(
                f,
                "word {n} is no clock reading and not receiver, advance or cancel"
            ),
        }
    }
}

impl Error for BadWord {}

impl Sentence {
    // What stands at each place.
    fn forms(self) -> &'static [Form]
        ensures { result.now ≡ forms self }
    {
        match self {
            Sentence::Receiver => &RECEIVER,
            Sentence::ReceiverProfile => &RECEIVER_PROFILE,
            Sentence::Advance => &ADVANCE,
            Sentence::Cancel => &CANCEL,
        }
    }
}

pub fn is_keyword(k: Keyword, w: &[u8]) -> bool
    ensures { result ≡ same_octets w.now (spelling k) }
{
    octets::same(w, k.as_str().as_bytes())
}

fn passed_if(good: bool, form: Form) -> Result<(), WordFault>
    ensures { result ≡ passed_if good form }
{
    if good {
        Ok(())
    } else {
        Err(WordFault::Wrong(form))
    }
}

fn is_protocol(w: &[u8]) -> bool
    ensures { result ≡ is_protocol w.now }
{
    is_keyword(Keyword::Segmented, w)
        || is_keyword(Keyword::Carrier, w)
        || is_keyword(Keyword::Other, w)
}

// A number that goes up to most.
fn up_to(most: u64, form: Form, w: &[u8]) -> Result<(), WordFault>
    ensures { result ≡ up_to most form (number_of w.now) }
{
    match number_of(w) {
        Err(NumberFault::NoNumber) => Err(WordFault::Wrong(form)),
        Err(NumberFault::TooLarge) => Err(WordFault::TooLarge(form)),
        Ok(n) if most < n => Err(WordFault::TooLarge(form)),
        Ok(_) => Ok(()),
    }
}

// A word that is there, against a form.
fn check_word(form: Form, w: &[u8]) -> Result<(), WordFault>
    ensures { result ≡ word_check form w.now }
{
    match form {
        Form::Word(k) => passed_if(is_keyword(k, w), form),
        Form::Small => up_to(MAX_SMALL, form, w),
        Form::Number => up_to(u64::MAX, form, w),
        Form::Protocol => passed_if(is_protocol(w), form),
        Form::Octet => passed_if(octet_of(w).is_some(), form),
    }
}

// The first word of t against a form.
fn check_first(form: Form, t: &[u8]) -> Result<(), WordFault>
    ensures { result ≡ check_of form (word_of t.now) }
{
    let w = word(t);
    if w.is_empty() {
        return Err(WordFault::Missing(form));
    }
    check_word(form, w)
}

// No word may stand in t, which would be word at.
fn check_end(t: &[u8], at: usize) -> Result<(), BadWord>
    ensures { result ≡ end_check t.now at }
{
    if word(t).is_empty() {
        Ok(())
    } else {
        Err(BadWord {
            fault: WordFault::Extra,
            at,
        })
    }
}

// The words of a line, up to the first that is wrong.
#[tactic(auto, using(crate::specs::FormLaws::words_at, crate::specs::FormLaws::words_end))]
pub fn check_words(sentence: Sentence, s: &[u8]) -> Result<(), BadWord>
    ensures { result ≡ words_check (forms sentence) 0 s.now }
{
    let forms = sentence.forms();
    let mut t = s;
    for (at, form) in forms.iter().enumerate() {
        check_first(*form, t).map_err(|fault| BadWord { fault, at })?;
        t = after(t);
    }
    check_end(t, forms.len())
}
