// What a segment does: refused, late, or what the slots decide.
ghost use Rattle.std.specs.Prelude.{◌≡◌, [], suc, ◌+◌, ◌*◌, ◌<◌, length, take, drop, Ok, Err};
ghost use Rattle.std.proofs.lemmas.List.Edits.{sets};
ghost use Rattle.tsar.specs.Kinds.{prohibited as prohibited_of};
ghost use Rattle.receiver.specs.Record.{joined, interval_of, wiped};
ghost use Rattle.receiver.specs.Answers.{required_response as required_response_of};
ghost use Rattle.receiver.specs.Receive.{repeats, keeps, finishes, kept, settle as settle_of, receive_of};
ghost use Rattle.receiver.specs.Says.{received};
ghost use Rattle.receiver.specs.Steps.{arrived, arrival_of, closed_progress, closed_as, failed, too_late, kept_progress, repeat_found, place_of, Fits, settled_of};

use crate::checks::Brought;
use crate::kinds::{prohibited, same_kind};
use crate::machine::{empty_lengths, empty_slots};
use crate::replies::{Standing, fail_response, last_entry, required_response, standing_of};
use crate::rules::{
    Amounts, Decision, Place, decide, end_of, full_with, services_of, staged, stated_of,
};
use crate::states::late;
use crate::{
    Progress, ReceiveError, Receiver, ReceiverState, Reception, Reported, SLOT_OCTETS,
    STORE_OCTETS, Slot,
};
use link::profiles::receiver_interval;
use octets::Compared;
use response::Status;
use tsar::{Segment, SegmentKind};
use words::Words;

// With nothing held, of these services, end and stated length.
pub fn closed_progress(standing: Standing, state: ReceiverState, reading: u64) -> Progress
    ensures { result ≡ closed_progress standing state reading }
{
    Progress {
        state,
        services: standing.services,
        end_sequence: standing.end_sequence,
        message_length: standing.message_length,
        stored_octets: 0,
        deadline_monotonic_ms: None,
        last_monotonic_ms: reading,
    }
}

// n octets of the store from `from` on, as far as it goes.
fn part(store: &[u8], from: usize, n: usize) -> &[u8]
    ensures { result.now ≡ take n (drop from store.now) }
{
    let start = from.min(store.len());
    let until = start + n.min(store.len() - start);
    &store[start..until]
}

// The data of slots 0 to last, in order, to the front of the output; their number.
fn join(lengths: &[u16; 256], store: &[u8], last: u8, output: &mut [u8]) -> usize
    ensures { (result ≡ length (joined lengths.now store.now (suc last))) × (output.new ≡ sets output.old 0 (joined lengths.now store.now (suc last))) }
{
    let mut at = 0;
    for t in 0..usize::from(last) + 1 {
        let piece = part(store, SLOT_OCTETS * t, usize::from(lengths[t]));
        octets::put(output, at, piece);
        at += piece.len();
    }
    at
}

// The progress with a segment of n octets held.
fn kept_progress(
    old: Progress,
    segment: Segment,
    n: usize,
    state: ReceiverState,
    deadline: Option<u64>,
    reading: u64,
) -> Progress
    requires { old.stored_octets + n < 65536 }
    ensures { result ≡ kept_progress old segment n state deadline reading }
{
    let kind = segment.kind;
    Progress {
        state,
        services: services_of(old.services, kind),
        end_sequence: end_of(old.end_sequence, kind, segment.sequence_number),
        message_length: stated_of(old.message_length, kind.message_length()),
        stored_octets: old.stored_octets + n,
        deadline_monotonic_ms: deadline,
        last_monotonic_ms: reading,
    }
}

impl Receiver {
    // The store is wiped, and nothing is held any more; services, end and stated length are those of the standing.
    pub fn close_as(
        &mut self,
        standing: Standing,
        state: ReceiverState,
        reading: u64,
        store: &mut [u8],
    )
        ensures record { self.new ≡ closed_as self.old.terms standing state reading }
        ensures store { store.new ≡ wiped store.old }
    {
        octets::wipe(store, STORE_OCTETS);
        self.progress = closed_progress(standing, state, reading);
        self.held = Words::none();
        self.lengths = empty_lengths();
        self.slots = empty_slots();
    }

    // The response to a segment that was taken, where one is due.
    fn response_to(&self, segment: Segment, status: Status) -> Option<Reported>
        ensures { result ≡ required_response_of self.now segment status }
    {
        let standing = standing_of(self.progress, self.held);
        required_response(self.terms.transaction_id, standing, segment, status)
    }

    // A reception fails: the response to it, and the store wiped.
    fn fail(
        &mut self,
        standing: Standing,
        status: Status,
        reading: u64,
        store: &mut [u8],
    ) -> Reception
        ensures { received (record { answer = Ok result; receiver = self.new }) store.new [] ≡ failed self.old.terms standing status reading store.old }
    {
        let response = fail_response(self.terms, standing, status);
        self.close_as(standing, ReceiverState::Failed(status), reading, store);
        Reception {
            response,
            message: None,
        }
    }

    // Late: under Prohibited the reception expires, with 38, else 37.
    fn too_late(&mut self, reading: u64, store: &mut [u8]) -> ReceiveError
        ensures { received (record { answer = Err result; receiver = self.new }) store.new [] ≡ too_late (prohibited_of self.old.progress.services.acknowledgment_window) self.old reading store.old }
    {
        let standing = standing_of(self.progress, self.held);
        if !prohibited(standing.services.acknowledgment_window) {
            return ReceiveError::TimerDue;
        }
        self.close_as(standing, ReceiverState::Expired, reading, store);
        ReceiveError::Closed
    }

    // The same segment again: while receiving it sets a new deadline.
    fn repeat(&mut self, segment: Segment, reading: u64) -> Reception
        requires { reading + interval_of self.old < 18446744073709551616 }
        ensures { received (record { answer = Ok result; receiver = self.new }) [] [] ≡ settle_of (interval_of self.old) repeats self.old (arrived segment [] reading) [] [] }
    {
        let status = if self.progress.state.is_complete() {
            Status::Received
        } else {
            Status::Continuing
        };
        let response = self.response_to(segment, status);
        if self.progress.state.is_receiving() {
            let interval = receiver_interval(self.terms.profile);
            self.progress.deadline_monotonic_ms = Some(reading + interval);
        }
        self.progress.last_monotonic_ms = reading;
        Reception {
            response,
            message: None,
        }
    }

    // The segment is held, and its data are in its slot.
    fn hold(
        &mut self,
        segment: Segment,
        data: &[u8],
        state: ReceiverState,
        deadline: Option<u64>,
        reading: u64,
        store: &mut [u8],
    )
        requires { Fits self.old (length «data».now) reading }
        ensures record { self.new ≡ kept self.old (arrived segment «data».now reading) state deadline }
        ensures store { store.new ≡ sets store.old (255 * segment.sequence_number) «data».now }
    {
        let sequence = segment.sequence_number;
        let at = usize::from(sequence);
        let kind = segment.kind;
        octets::put(store, SLOT_OCTETS * at, data);
        self.progress = kept_progress(self.progress, segment, data.len(), state, deadline, reading);
        self.held = self.held.with(sequence);
        self.lengths[at] = data.len() as u16;
        self.slots[at] = Slot { kind };
    }

    // A segment that leaves the message incomplete.
    fn keep(&mut self, segment: Segment, data: &[u8], reading: u64, store: &mut [u8]) -> Reception
        requires { Fits self.old (length «data».now) reading }
        ensures { received (record { answer = Ok result; receiver = self.new }) store.new [] ≡ settle_of (interval_of self.old) keeps self.old (arrived segment «data».now reading) store.old [] }
    {
        let deadline = Some(reading + receiver_interval(self.terms.profile));
        self.hold(
            segment,
            data,
            ReceiverState::Receiving,
            deadline,
            reading,
            store,
        );
        Reception {
            response: self.response_to(segment, Status::Continuing),
            message: None,
        }
    }

    // A segment that completes the message, which goes to the output.
    fn finish(
        &mut self,
        segment: Segment,
        data: &[u8],
        reading: u64,
        store: &mut [u8],
        output: &mut [u8],
    ) -> Reception
        requires { Fits self.old (length «data».now) reading }
        ensures { received (record { answer = Ok result; receiver = self.new }) store.new output.new ≡ settle_of (interval_of self.old) finishes self.old (arrived segment «data».now reading) store.old output.old }
    {
        self.hold(segment, data, ReceiverState::Complete, None, reading, store);
        let last = last_entry(false, self.held, self.progress.end_sequence);
        let count = join(&self.lengths, store, last, output);
        Reception {
            response: self.response_to(segment, Status::Received),
            message: Some(count),
        }
    }

    // Whether the slot of a sequence number holds this very segment, and how many octets were looked at: none where the slot isn't held or holds
    // another kind; else the slot's own octets are compared with the data. The number goes into no answer.
    fn same_slot(&self, sequence: u8, kind: SegmentKind, data: &[u8], store: &[u8]) -> Compared
        ensures { result ≡ repeat_found self.now sequence kind «data».now store.now }
    {
        let at = usize::from(sequence);
        if !self.held.has(sequence) || !same_kind(self.slots[at].kind, kind) {
            return Compared {
                same: false,
                looked: 0,
            };
        }
        let own = part(store, SLOT_OCTETS * at, usize::from(self.lengths[at]));
        octets::compare(own, data)
    }

    // What the slots say of a segment's place.
    fn place(&self, segment: Segment, data: &[u8], store: &[u8]) -> Place
        ensures { result ≡ place_of self.now (arrived segment «data».now 0) store.now }
    {
        let sequence = segment.sequence_number;
        let end = end_of(self.progress.end_sequence, segment.kind, sequence);
        Place {
            held: self.held.has(sequence),
            octets: usize::from(self.lengths[usize::from(sequence)]),
            same: self.same_slot(sequence, segment.kind, data, store).same,
            clear: self.held.none_past(sequence),
            full: full_with(self.held, sequence, end),
        }
    }

    // What the slots decide, and what is done.
    fn settle(
        &mut self,
        segment: Segment,
        data: &[u8],
        reading: u64,
        store: &mut [u8],
        output: &mut [u8],
    ) -> Result<Reception, ReceiveError>
        requires { Fits self.old (length «data».now) reading }
        ensures { received (record { answer = result; receiver = self.new }) store.new output.new ≡ settled_of self.old (arrived segment «data».now reading) store.old output.old }
    {
        let place = self.place(segment, data, store);
        let amounts = Amounts {
            octets: data.len(),
            total: self.progress.stored_octets + data.len(),
            maximum: self.terms.maximum_message_octets,
        };
        match decide(self.progress, segment, place, amounts) {
            Decision::Fails(stage, status) => {
                let standing = staged(stage, self.progress, self.held, segment);
                Ok(self.fail(standing, status, reading, store))
            }
            Decision::Repeats => Ok(self.repeat(segment, reading)),
            // A segment for an empty slot of a complete reception: the reading is taken.
            Decision::Closes => {
                self.progress.last_monotonic_ms = reading;
                Err(ReceiveError::Closed)
            }
            Decision::Keeps => Ok(self.keep(segment, data, reading, store)),
            Decision::Finishes => Ok(self.finish(segment, data, reading, store, output)),
        }
    }

    // The refusals; then late, or what the slots decide.
    pub(crate) fn take(
        &mut self,
        brought: Brought,
        data: &[u8],
        store: &mut [u8],
        output: &mut [u8],
    ) -> Result<Reception, ReceiveError>
        requires { brought.octets ≡ length «data».now }
        ensures { received (record { answer = result; receiver = self.new }) store.new output.new ≡ receive_of (interval_of self.old) self.old (arrival_of brought «data».now) store.old output.old }
    {
        self.arrival_check(brought, store, output)?;
        if late(self.progress.deadline_monotonic_ms, brought.reading) {
            return Err(self.too_late(brought.reading, store));
        }
        self.settle(brought.segment, data, brought.reading, store, output)
    }
}
