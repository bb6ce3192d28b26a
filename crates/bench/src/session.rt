// The receiver of a section, and what the calls of its lines do.
ghost use Rattle.std.specs.Prelude.{◌≡◌, not, []};
ghost use Rattle.receiver.specs.Record.{taking};
ghost use Rattle.receiver_image.specs.Parts.{state_from};
ghost use Rattle.receiver_c.specs.Calls.{call};
ghost use Rattle.bench.specs.Closing.{close_call};

use crate::input::MAX_LINE;
use capture::line::{Header, LineFault};
use capture::text::{from, front};
use codec_c::catkhize_decode;
use codec_c::codes::DONE;
use image::cases::{protocol_number, protocol_octet};
use receiver_c::{
    catkhize_receiver_advance, catkhize_receiver_cancel, catkhize_receiver_new,
    catkhize_receiver_receive, catkhize_receiver_release,
};
use report::answer::{say_answer, say_names, say_reception, say_refused_segment, say_segment};
use report::layout;
use report::layout::{CANCELED, EXPIRED, FAILED, number_at, octet};
use report::marks::{MARKS_OCTETS, top};
use report::outcome::{Event, Told, call_event};
use report::reason::{Failure, reason_of};
use report::refusal::{Refusal, outcome};
use report::say::Counted;
use std::{fmt, io};
use tsar::HEADER_OCTETS;

// Every octet of the store and of the output before the first call.
pub const FILL: u8 = 0xA5;

// The most octets of a store and of an output.
pub const STORE: usize = 65280;

pub type Store = [u8; STORE];

// RECEPTION, whose front is REPLY; DECODED; RECEIVER (docs/EXPORTS.md).
type Answer = [u8; layout::RECEPTION_OCTETS];

type Decoded = [u8; layout::DECODED_OCTETS];

type Receiver = [u8; layout::RECEIVER_OCTETS];

// What is kept of a section: whether a receiver line opened it; that line, where it could be read; RECEIVER, whose first octet is 0 before it
// is made; the marks that were last held; the reading of the last segment that was taken; why the reception failed.
#[derive(Clone, Copy)]
pub struct Section {
    pub opened: bool,
    pub header: Option<Header>,
    pub receiver: Receiver,
    pub last_held: [u8; MARKS_OCTETS],
    pub last_at: Option<u64>,
    pub failure: Option<Failure>,
}

impl Section {
    pub fn new(opened: bool) -> Section {
        Section {
            opened,
            header: None,
            receiver: [0; layout::RECEIVER_OCTETS],
            last_held: [0; MARKS_OCTETS],
            last_at: None,
            failure: None,
        }
    }
}

// What is counted: of a capture its lines, the calls taken and refused, the lines refused, the sections and those rebuilt.
#[derive(Clone, Copy, Default)]
pub struct CaptureCounts {
    pub lines: u64,
    pub calls_taken: u64,
    pub calls_refused: u64,
    pub lines_refused: u64,
    pub sections: u64,
    pub rebuilt: u64,
}

// And of all captures how many there are, their sections and those rebuilt; and of the section the calls refused.
#[derive(Clone, Copy, Default)]
pub struct Counts {
    pub capture: CaptureCounts,
    pub captures: u64,
    pub sections: u64,
    pub rebuilt: u64,
    pub section_refused: u64,
}

// Why a line is refused: what it says is wrong, it is too long, or there is no receiver for it.
#[derive(Clone, Copy)]
pub enum LineRefusal {
    Wrong(LineFault),
    TooLong,
    Misplaced,
}

impl fmt::Display for LineRefusal {
    fn fmt<W: fmt::Write>(&self, f: &mut fmt::Formatter<W>) -> fmt::Result {
        match self {
            LineRefusal::Wrong(fault) => write!(f, "{fault}"),
            LineRefusal::TooLong => write!(f, "it has more than {MAX_LINE} characters"),
            LineRefusal::Misplaced => f.write_str("it belongs to no receiver"),
        }
    }
}

// The run through a capture: what has been told, the counts, the section, and the store and the output of its receiver.
#[derive(Drop)]
pub struct Bench {
    pub told: Told,
    pub counts: Counts,
    pub section: Section,
    pub store: Store,
    pub output: Store,
}

impl Bench {
    fn is_made(&self) -> bool {
        self.section.receiver[0] != 0
    }

    // A line that is refused.
    pub fn refuse(&mut self, rt: &impl Print, why: LineRefusal) -> io::Result<Event>
        ensures { self.new ≡ record self.old { counts = self.new.counts } }
    {
        println!(rt; "line {} refused: {why}", self.counts.capture.lines)?;
        let counts = &mut self.counts.capture;
        counts.lines_refused = counts.lines_refused.saturating_add(1);
        Ok(Event::BadLine)
    }

    fn count_call(&mut self, taken: Result<(), Refusal>)
        ensures { self.new ≡ record self.old { counts = self.new.counts } }
    {
        let counts = &mut self.counts;
        if taken.is_ok() {
            counts.capture.calls_taken = counts.capture.calls_taken.saturating_add(1);
        } else {
            counts.capture.calls_refused = counts.capture.calls_refused.saturating_add(1);
            counts.section_refused = counts.section_refused.saturating_add(1);
        }
    }

    // Keeps the marks that are held, unless there are none.
    fn keep_held(&mut self)
        ensures { self.new ≡ record self.old { section = self.new.section } }
    {
        let mut held = [0u8; MARKS_OCTETS];
        octets::put(&mut held, 0, from(&self.section.receiver, layout::HELD));
        if top(&held).is_some() {
            self.section.last_held = held;
        }
    }

    // Ends the line of a call, and keeps what is to be kept.
    fn called(
        &mut self,
        rt: &impl Print,
        taken: Result<(), Refusal>,
        answer: &Answer,
    ) -> io::Result<Event>
        ensures told { self.new.told ≡ self.old.told }
        ensures store { self.new.store ≡ self.old.store }
        ensures output { self.new.output ≡ self.old.output }
    {
        println!(rt)?;
        self.count_call(taken);
        self.keep_held();
        Ok(call_event(answer, &self.section.receiver))
    }

    // ---- the receiver line

    pub fn open(&mut self, rt: &impl Print, h: Header) -> io::Result<Event>
        ensures told { self.new.told ≡ self.old.told }
        ensures store { self.new.store ≡ self.old.store }
        ensures output { self.new.output ≡ self.old.output }
    {
        let taken = outcome(make(h, &mut self.section.receiver));
        self.section.header = Some(h);
        print!(rt;
            "line {} at {}: receiver of",
            self.counts.capture.lines, h.at
        )?;
        say_names(rt, h)?;
        print!(rt;
            ", version {}, profile {}, maximum {}",
            h.version, h.profile, h.maximum
        )?;
        match taken {
            Ok(()) => print!(rt; ": made")?,
            Err(refusal) => print!(rt; ": refused {refusal}")?,
        }
        let answer = [0u8; layout::RECEPTION_OCTETS];
        self.called(rt, taken, &answer)
    }

    // ---- advance and cancel

    fn advanced(&mut self, rt: &impl Print, reading: u64) -> io::Result<Event>
        ensures told { self.new.told ≡ self.old.told }
        ensures output { self.new.output ≡ self.old.output }
    {
        let before = self.section.receiver[layout::STATE];
        let mut answer = [0u8; layout::RECEPTION_OCTETS];
        let code = catkhize_receiver_advance(
            &mut self.section.receiver,
            &mut self.store,
            reading,
            &mut answer,
        );
        let taken = outcome(code);
        say_answer(rt, taken, &answer, before, &self.section.receiver)?;
        self.called(rt, taken, &answer)
    }

    pub fn advance(&mut self, rt: &impl Print, reading: u64) -> io::Result<Event>
        ensures told { self.new.told ≡ self.old.told }
        ensures output { self.new.output ≡ self.old.output }
    {
        if !self.is_made() {
            return self.refuse(rt, LineRefusal::Misplaced);
        }
        print!(rt; "line {} at {reading}: advance", self.counts.capture.lines)?;
        self.advanced(rt, reading)
    }

    pub fn cancel(&mut self, rt: &impl Print, reading: u64) -> io::Result<Event>
        ensures told { self.new.told ≡ self.old.told }
        ensures output { self.new.output ≡ self.old.output }
    {
        if !self.is_made() {
            return self.refuse(rt, LineRefusal::Misplaced);
        }
        print!(rt; "line {} at {reading}: cancel", self.counts.capture.lines)?;
        let before = self.section.receiver[layout::STATE];
        let answer = [0u8; layout::RECEPTION_OCTETS];
        let code = catkhize_receiver_cancel(&mut self.section.receiver, &mut self.store, reading);
        let taken = outcome(code);
        say_answer(rt, taken, &answer, before, &self.section.receiver)?;
        self.called(rt, taken, &answer)
    }

    // The advance at the deadline that a bench makes before a segment that comes past it.
    pub fn wait(&mut self, rt: &impl Print) -> io::Result<Event>
        ensures told { self.new.told ≡ self.old.told }
        ensures output { self.new.output ≡ self.old.output }
    {
        let deadline = number_at(&self.section.receiver, layout::DEADLINE + 1);
        let line = self.counts.capture.lines;
        print!(rt; "bench: advance at {deadline}, before line {line}")?;
        self.advanced(rt, deadline)
    }

    // ---- segments

    // A receive from the receiver's peer and by its protocol.
    fn receive(&mut self, reading: u64, decoded: &Decoded, data: &[u8], answer: &mut Answer) -> u32
        ensures { self.new.told ≡ self.old.told }
    {
        let receiver = &mut self.section.receiver;
        let kind = receiver[layout::PEER_KIND];
        let width = receiver[layout::PEER_WIDTH];
        let value = number_at(receiver, layout::PEER_VALUE);
        let protocol = receiver[layout::PROTOCOL];
        let protocol_octet = receiver[layout::PROTOCOL_OCTET];
        let unparsed = number_at(decoded, layout::UNPARSED);
        catkhize_receiver_receive(
            receiver,
            &mut self.store,
            &mut self.output,
            kind,
            width,
            value,
            protocol,
            protocol_octet,
            decoded,
            data,
            unparsed,
            reading,
            answer,
        )
    }

    // The time since the last segment that was taken.
    fn say_since(&self, rt: &impl Print, reading: u64) -> io::Result<()> {
        match self.section.last_at {
            None => Ok(()),
            Some(last) if reading < last => {
                print!(rt; ", {} ms before the last", last - reading)
            }
            Some(last) => print!(rt; ", {} ms after the last", reading.saturating_sub(last)),
        }
    }

    // Keeps the reading of a segment that was taken, and why it failed the reception, if it did.
    fn keep(&mut self, reading: u64, before: &Receiver, decoded: &Decoded)
        ensures told { self.new.told ≡ self.old.told }
        ensures store { self.new.store ≡ self.old.store }
        ensures output { self.new.output ≡ self.old.output }
    {
        self.section.last_at = Some(reading);
        let receiver = &self.section.receiver;
        if receiver[layout::STATE] == FAILED {
            self.section.failure = Some(Failure {
                reason: reason_of(before, decoded, receiver[layout::STATE + 1]),
                line: self.counts.capture.lines,
            });
        }
    }

    // A segment that was decoded.
    fn arrived(
        &mut self,
        rt: &impl Print,
        reading: u64,
        decoded: &Decoded,
        segment: &[u8],
    ) -> io::Result<Event>
        ensures { self.new.told ≡ self.old.told }
    {
        say_segment(rt, decoded)?;
        let before = self.section.receiver;
        let n = number_at(decoded, layout::DATA_LENGTH);
        let data = front(from(segment, HEADER_OCTETS), n as usize);
        let mut answer = [0u8; layout::RECEPTION_OCTETS];
        let taken = outcome(self.receive(reading, decoded, data, &mut answer));
        say_reception(
            rt,
            taken,
            &answer,
            &before,
            decoded,
            &self.section.receiver,
            segment,
        )?;
        if taken.is_ok() {
            self.keep(reading, &before, decoded);
        }
        self.called(rt, taken, &answer)
    }

    // A segment that was not.
    fn not_decoded(
        &mut self,
        rt: &impl Print,
        refusal: Refusal,
        segment: &[u8],
    ) -> io::Result<Event>
        ensures { self.new.told ≡ self.old.told }
    {
        print!(rt; "segment of {}", Counted(segment.len() as u64, "octet"))?;
        let receiver = &self.section.receiver;
        say_refused_segment(rt, refusal, receiver[layout::STATE], receiver, segment)?;
        let answer = [0u8; layout::RECEPTION_OCTETS];
        self.called(rt, Err(refusal), &answer)
    }

    pub fn segment(&mut self, rt: &impl Print, reading: u64, segment: &[u8]) -> io::Result<Event>
        ensures { self.new.told ≡ self.old.told }
    {
        if !self.is_made() {
            return self.refuse(rt, LineRefusal::Misplaced);
        }
        print!(rt; "line {} at {reading}", self.counts.capture.lines)?;
        self.say_since(rt, reading)?;
        print!(rt; ": ")?;
        let mut decoded = [0u8; layout::DECODED_OCTETS];
        let version = self.section.receiver[layout::VERSION];
        match outcome(catkhize_decode(segment, version, &mut decoded)) {
            Ok(()) => self.arrived(rt, reading, &decoded, segment),
            Err(refusal) => self.not_decoded(rt, refusal, segment),
        }
    }
}

fn make(h: Header, receiver: &mut Receiver) -> u32 {
    let peer = h.peer;
    catkhize_receiver_new(
        receiver,
        peer.kind,
        peer.width,
        peer.value,
        protocol_number(h.protocol),
        protocol_octet(h.protocol),
        h.transaction_id,
        h.version,
        h.profile,
        h.maximum,
        h.at,
    )
}

// ---- between sections

// Whether the state of a number takes no segments.
fn is_closed(state: u8) -> bool
    ensures { result ≡ not (taking (state_from state 0)) }
{
    matches!(state, FAILED | EXPIRED | CANCELED)
}

// Closes the receiver of a section that has ended, at its own last reading: the next line's may be lower. One that is Complete is released,
// one that still waits for segments is canceled.
#[tactic(auto, using(crate::proofs::ByOctets::none_made, crate::proofs::ByOctets::when_complete, crate::proofs::ByOctets::when_closed, crate::proofs::ByOctets::when_open))]
pub fn close_receiver(memory: &mut [u8], store: &mut [u8]) -> u32
    ensures { call result memory.new store.new [] [] ≡ close_call memory.old store.old }
{
    if octet(memory, 0) == 0 {
        return DONE;
    }
    let last = number_at(memory, layout::LAST_READING);
    let state = octet(memory, layout::STATE);
    if state == layout::COMPLETE {
        return catkhize_receiver_release(memory, store, last);
    }
    if is_closed(state) {
        return DONE;
    }
    catkhize_receiver_cancel(memory, store, last)
}
