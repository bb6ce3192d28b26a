// What a line of a capture says.
ghost use Rattle.std.specs.Prelude.{◌≡◌, ◌≤◌, Some};
ghost use Rattle.capture.specs.Lines.{protocol_of, peer_of, header_of, header_line, receiver_line, start_fault, segment_line, text_line, line_of, opening, read};

use crate::form::{
    BadWord, Form, Keyword, PROFILE_PLACE, PROFILE_WORDS, Sentence, WordFault, check_words,
    is_keyword,
};
use crate::number::{NumberFault, number_of, small_or_zero, value_or_zero};
use crate::octet::{BadOctets, octet_or_zero, spelled};
use crate::text::{Class, front, run, word, word_at, word_end};
use link::{HigherLayerProtocol, MobileIdentity};
use std::error::Error;
use std::fmt;

// The profile of a receiver line that says none.
const UNSAID_PROFILE: u8 = 1;

// What a receiver is made with.
#[derive(Clone, Copy)]
pub struct Header {
    pub peer: MobileIdentity,
    pub protocol: HigherLayerProtocol,
    pub transaction_id: u8,
    pub version: u8,
    pub profile: u8,
    pub maximum: u64,
    pub at: u64,
}

// A line: nothing; a receiver; an advance or a cancel at a reading; a segment at a reading, with the number of its octets.
#[derive(Clone, Copy)]
pub enum Line {
    Nothing,
    Receiver(Header),
    Advance(u64),
    Cancel(u64),
    Segment(u64, usize),
}

// What is wrong with a line: a word, or the octets of a segment, at a character of the line.
#[derive(Clone, Copy, Debug, PartialEq, Eq)]
pub enum LineFault {
    Word(BadWord),
    Octets(BadOctets),
}

impl From<BadWord> for LineFault {
    ghost use Rattle.capture.specs.declared.line.LineFault.TheVariants.{Word};

    ghost from_gives = { λ f r. r ≡ Word f };

    fn from(f: BadWord) -> LineFault {
        LineFault::Word(f)
    }
}

impl From<BadOctets> for LineFault {
    ghost use Rattle.capture.specs.declared.line.LineFault.TheVariants.{Octets};

    ghost from_gives = { λ f r. r ≡ Octets f };

    fn from(f: BadOctets) -> LineFault {
        LineFault::Octets(f)
    }
}

impl fmt::Display for LineFault {
    ghost use Rattle.capture.specs.Messages.{fault_text};

    ghost output = { λ fault. Some (fault_text fault) };

    fn fmt<W: fmt::Write>(&self, f: &mut fmt::Formatter<W>) -> fmt::Result {
        match self {
            LineFault::Word(fault) => write!(f, "{fault}"),
            LineFault::Octets(fault) => write!(f, "{fault}"),
        }
    }
}

impl Error for LineFault {}

fn protocol_of(name: &[u8], octet: u8) -> HigherLayerProtocol
    ensures { result ≡ protocol_of name.now octet }
{
    if is_keyword(Keyword::Segmented, name) {
        HigherLayerProtocol::Segmented(octet)
    } else if is_keyword(Keyword::Carrier, name) {
        HigherLayerProtocol::CarrierSpecific(octet)
    } else {
        HigherLayerProtocol::Other(octet)
    }
}

fn peer_of(t: &[u8]) -> MobileIdentity
    ensures { result ≡ peer_of t.now }
{
    MobileIdentity {
        kind: small_or_zero(word_at(t, 2)),
        width: small_or_zero(word_at(t, 3)),
        value: value_or_zero(word_at(t, 4)),
    }
}

// The values of a receiver line whose words are right, with its profile and the place of its word maximum.
fn header_of(profile: u8, place: usize, t: &[u8]) -> Header
    requires { place ≤ 14 }
    ensures { result ≡ header_of profile place t.now }
{
    let peer = peer_of(t);
    let protocol = protocol_of(word_at(t, 6), octet_or_zero(word_at(t, 7)));
    Header {
        peer,
        protocol,
        transaction_id: small_or_zero(word_at(t, 9)),
        version: small_or_zero(word_at(t, 11)),
        profile,
        maximum: value_or_zero(word_at(t, place + 1)),
        at: value_or_zero(word_at(t, place + 3)),
    }
}

#[tactic(auto, unfolding(crate::specs::Lines::header_line))]
fn header_line(sentence: Sentence, profile: u8, place: usize, t: &[u8]) -> Result<Line, LineFault>
    requires { place ≤ 14 }
    ensures { result ≡ header_line sentence profile place t.now }
{
    check_words(sentence, t)?;
    Ok(Line::Receiver(header_of(profile, place, t)))
}

// The word behind the version tells whether the line says a profile.
#[tactic(auto, unfolding(crate::specs::Lines::receiver_line))]
fn receiver_line(t: &[u8]) -> Result<Line, LineFault>
    ensures { result ≡ receiver_line t.now }
{
    if is_keyword(Keyword::Profile, word_at(t, PROFILE_PLACE)) {
        let profile = small_or_zero(word_at(t, PROFILE_PLACE + 1));
        return header_line(
            Sentence::ReceiverProfile,
            profile,
            PROFILE_PLACE + PROFILE_WORDS,
            t,
        );
    }
    header_line(Sentence::Receiver, UNSAID_PROFILE, PROFILE_PLACE, t)
}

// Why a line starts with no reading.
fn start_fault(f: NumberFault) -> WordFault
    ensures { result ≡ start_fault f }
{
    match f {
        NumberFault::NoNumber => WordFault::Start,
        NumberFault::TooLarge => WordFault::TooLarge(Form::Number),
    }
}

// A segment: a reading, and octets.
#[tactic(auto, unfolding(crate::specs::Lines::segment_line, crate::specs::Lines::octets_after, crate::specs::Text::after))]
fn segment_line(t: &[u8], out: &mut [u8]) -> Result<Line, LineFault>
    ensures { read result out.new ≡ segment_line t.now out.old }
{
    let reading = number_of(word(t)).map_err(|f| BadWord {
        fault: start_fault(f),
        at: 0,
    })?;
    let n = spelled(t, word_end(t), out)?;
    Ok(Line::Segment(reading, n))
}

// What a line's text, without its comment, says.
#[tactic(auto, unfolding(crate::specs::Lines::text_line, crate::specs::Lines::advance_line, crate::specs::Lines::cancel_line))]
fn text_line(t: &[u8], out: &mut [u8]) -> Result<Line, LineFault>
    ensures { read result out.new ≡ text_line t.now out.old }
{
    let first = word(t);
    if first.is_empty() {
        Ok(Line::Nothing)
    } else if is_keyword(Keyword::Receiver, first) {
        receiver_line(t)
    } else if is_keyword(Keyword::Advance, first) {
        check_words(Sentence::Advance, t)?;
        Ok(Line::Advance(value_or_zero(word_at(t, 1))))
    } else if is_keyword(Keyword::Cancel, first) {
        check_words(Sentence::Cancel, t)?;
        Ok(Line::Cancel(value_or_zero(word_at(t, 1))))
    } else {
        segment_line(t, out)
    }
}

// What a line, without its line feed, says. The octets of a segment go to the start of out.
pub fn read_line(s: &[u8], out: &mut [u8]) -> Result<Line, LineFault>
    ensures { read result out.new ≡ line_of s.now out.old }
{
    text_line(front(s, run(Class::Text, s)), out)
}

// Whether a line opens a section of a capture: its first word is receiver, whatever follows it.
pub fn opens(s: &[u8]) -> bool
    ensures { result ≡ opening s.now }
{
    is_keyword(Keyword::Receiver, word(front(s, run(Class::Text, s))))
}
