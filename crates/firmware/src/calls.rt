// Receptions, each a list of lent calls.
use crate::says::{Advanced, Canceled, Received};
use lent::LentReceiver;
use link::{HigherLayerProtocol, MobileIdentity};
use receiver::Receiver;
use std::io;
use tsar::{AcknowledgmentWindow, Compression, CrcStatus, OptionalServices, Segment, SegmentKind};

const VERSION: u8 = 5;

// Bench profiles: how long a receiver waits. A record can have any number there, and one of neither is refused.
const PROFILE_1: u8 = 1;

const PROFILE_2: u8 = 2;

const NEITHER: u8 = 3;

// What a message may have, and what this one has.
const MAXIMUM_OCTETS: usize = 700;

const MESSAGE_OCTETS: u16 = 600;

// The slots of the store; the store itself is longer.
const SLOTS_OCTETS: usize = 65_280;

const STORE_OCTETS: usize = 65_290;

const FILL: u8 = 0xA5;

// Where the data of the second segment and of the third stand in the message.
const SECOND_AT: usize = 255;

const THIRD_AT: usize = 510;

fn peer() -> MobileIdentity {
    MobileIdentity {
        kind: 1,
        width: 34,
        value: 0x2_1234_5678,
    }
}

fn protocol() -> HigherLayerProtocol {
    HigherLayerProtocol::Segmented(0)
}

// A receiver that stands in one place, with the store and the output that are lent to its calls.
#[derive(Drop)]
struct Reception {
    lent: LentReceiver,
    store: [u8; STORE_OCTETS],
    output: [u8; MAXIMUM_OCTETS],
}

impl Reception {
    // A receiver of a transaction in a profile, made at reading 0.
    fn new(transaction_id: u8, profile: u8) -> Reception {
        let made = Receiver::try_new(
            peer(),
            protocol(),
            transaction_id,
            VERSION,
            profile,
            MAXIMUM_OCTETS,
            0,
        );
        Reception {
            lent: LentReceiver {
                receiver: made.receiver,
            },
            store: [FILL; STORE_OCTETS],
            output: [FILL; MAXIMUM_OCTETS],
        }
    }

    fn receive(
        &mut self,
        rt: &impl Print,
        sequence_number: u8,
        kind: SegmentKind,
        data: &[u8],
        reading: u64,
    ) -> io::Result<()> {
        let segment = Segment {
            transaction_id: self.lent.receiver.terms.transaction_id,
            sequence_number,
            kind,
        };
        let answer = self.lent.receive(
            peer(),
            protocol(),
            segment,
            data,
            0,
            reading,
            &mut self.store,
            &mut self.output,
        );
        let said = Received(answer);
        println!(rt; "  receive, segment {sequence_number} at {reading} ms: {said}")
    }

    // The first segment, with a response asked for at the last one.
    fn begin(&mut self, rt: &impl Print, data: &[u8], reading: u64) -> io::Result<()> {
        let services = OptionalServices {
            compression: Compression::None,
            acknowledgment_window: AcknowledgmentWindow::Last,
            crc_status: CrcStatus::None,
        };
        let kind = SegmentKind::Begin {
            message_length: Some(MESSAGE_OCTETS),
            services: Some(services),
        };
        self.receive(rt, 0, kind, data, reading)
    }

    fn middle(&mut self, rt: &impl Print, data: &[u8], reading: u64) -> io::Result<()> {
        let kind = SegmentKind::Continue {
            message_length: None,
        };
        self.receive(rt, 1, kind, data, reading)
    }

    fn end(&mut self, rt: &impl Print, data: &[u8], reading: u64) -> io::Result<()> {
        let kind = SegmentKind::End {
            message_length: None,
            crc: None,
        };
        self.receive(rt, 2, kind, data, reading)
    }

    fn advance(&mut self, rt: &impl Print, reading: u64) -> io::Result<()> {
        let said = Advanced(self.lent.advance(reading, &mut self.store));
        println!(rt; "  advance at {reading} ms: {said}")
    }

    fn cancel(&mut self, rt: &impl Print, reading: u64) -> io::Result<()> {
        let said = Canceled(self.lent.cancel(reading, &mut self.store));
        println!(rt; "  cancel at {reading} ms: {said}")
    }

    fn release(&mut self, rt: &impl Print, reading: u64) -> io::Result<()> {
        let said = Canceled(self.lent.release(reading, &mut self.store));
        println!(rt; "  release at {reading} ms: {said}")
    }

    fn say_wiped(&self, rt: &impl Print) -> io::Result<()> {
        let slots = &self.store[..SLOTS_OCTETS];
        say(
            rt,
            "slots of the store all 0",
            slots.iter().all(|&x| x == 0),
        )
    }

    // The message of three segments in the output, and what lies after it.
    fn say_message(
        &self,
        rt: &impl Print,
        first: &[u8],
        second: &[u8],
        third: &[u8],
    ) -> io::Result<()> {
        let (message, rest) = self.output.split_at(MESSAGE_OCTETS as usize);
        let (one, others) = message.split_at(SECOND_AT);
        let (two, three) = others.split_at(THIRD_AT - SECOND_AT);
        say(rt, "segment 0 in the output", one == first)?;
        say(rt, "segment 1 in the output", two == second)?;
        say(rt, "segment 2 in the output", three == third)?;
        say(rt, "output after the message as it was", is_filled(rest))
    }

    fn say_past_slots(&self, rt: &impl Print) -> io::Result<()> {
        let rest = &self.store[SLOTS_OCTETS..];
        say(rt, "store past its slots as it was", is_filled(rest))
    }
}

// Whether octets are as they were at the start.
fn is_filled(octets: &[u8]) -> bool {
    octets.iter().all(|&x| x == FILL)
}

// A line that says whether something holds.
fn say(rt: &impl Print, what: &str, holds: bool) -> io::Result<()> {
    let answer = if holds { "yes" } else { "NO" };
    println!(rt; "  {what}: {answer}")
}

// A message of three segments: the second comes last, after the deadline asked for it. Then the receiver is released.
pub fn rebuilt(rt: &impl Print) -> io::Result<()> {
    let first = [0x41u8; 255];
    let second = [0x42u8; 255];
    let third = [0x43u8; 90];
    println!(rt; "a message of 600 octets in three segments")?;
    let mut r = Reception::new(1, PROFILE_1);
    r.advance(rt, 900)?;
    r.begin(rt, &first, 1_000)?;
    r.end(rt, &third, 2_000)?;
    r.begin(rt, &first, 3_000)?;
    r.advance(rt, 302_999)?;
    r.advance(rt, 303_000)?;
    r.release(rt, 303_500)?;
    r.middle(rt, &second, 304_000)?;
    r.cancel(rt, 305_000)?;
    r.release(rt, 306_000)?;
    r.middle(rt, &second, 307_000)?;
    r.release(rt, 308_000)?;
    r.say_wiped(rt)?;
    r.say_message(rt, &first, &second, &third)?;
    r.say_past_slots(rt)
}

// A reception that is canceled after its first segment, and a segment that comes too late for it.
pub fn broken_off(rt: &impl Print) -> io::Result<()> {
    let first = [0x44u8; 255];
    let second = [0x45u8; 255];
    println!(rt; "a reception that is canceled")?;
    let mut r = Reception::new(2, PROFILE_1);
    r.middle(rt, &second, 500)?;
    r.begin(rt, &first, 1_000)?;
    r.cancel(rt, 999)?;
    r.cancel(rt, 2_000)?;
    r.middle(rt, &second, 3_000)?;
    r.advance(rt, 4_000)?;
    r.say_wiped(rt)?;
    r.say_past_slots(rt)
}

// A receiver of profile 2, whose deadline comes 120 s after a segment.
pub fn shorter(rt: &impl Print) -> io::Result<()> {
    let first = [0x46u8; 255];
    println!(rt; "a reception in profile 2")?;
    let mut r = Reception::new(3, PROFILE_2);
    r.begin(rt, &first, 1_000)?;
    r.advance(rt, 120_999)?;
    r.advance(rt, 121_000)?;
    r.say_past_slots(rt)
}

// A record of neither profile, which no call leaves and every call refuses.
pub fn neither(rt: &impl Print) -> io::Result<()> {
    let first = [0x47u8; 255];
    println!(rt; "a record of neither profile")?;
    let mut r = Reception::new(4, PROFILE_2);
    r.lent.receiver.terms.profile = NEITHER;
    r.begin(rt, &first, 1_000)?;
    r.advance(rt, 1_000)?;
    r.cancel(rt, 1_000)?;
    r.release(rt, 1_000)?;
    r.say_past_slots(rt)
}
