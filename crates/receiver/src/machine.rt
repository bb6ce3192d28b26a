// The calls: try_new, receive, advance, cancel and release.
ghost use Rattle.std.specs.Prelude.{◌≡◌, Ok};
ghost use Rattle.tsar.specs.Rows.{refusal};
ghost use Rattle.tsar.specs.Kinds.{prohibited as prohibited_of};
ghost use Rattle.receiver.specs.Record.{interval_of, empty_slots, empty_lengths, due as due_of};
ghost use Rattle.receiver.specs.Receive.{receive_of};
ghost use Rattle.receiver.specs.Advance.{empty as empty_of, try_new_rows, fires, try_new_of, advance_of, cancel_of, release_of};
ghost use Rattle.receiver.specs.Says.{made, received, advanced, canceled};
ghost use Rattle.receiver.specs.Steps.{check_says, no_terms, closing_of};

use crate::checks::Brought;
use crate::kinds::{prohibited, services_or_default};
use crate::replies::{Standing, respond, standing_of};
use crate::states::due;
use crate::turns::closed_progress;
use crate::{Call, ReceiveError, Receiver, ReceiverState, Reception, Reported, Slot, Terms};
use link::profiles::known_profile;
use link::{HigherLayerProtocol, MobileIdentity};
use response::Status;
use tsar::{Segment, SegmentKind};
use words::Words;

pub(crate) fn empty_slots() -> [Slot; 256]
    ensures { result ≡ empty_slots }
{
    let slot = Slot {
        kind: SegmentKind::Begin {
            message_length: None,
            services: None,
        },
    };
    [slot; 256]
}

pub(crate) fn empty_lengths() -> [u16; 256]
    ensures { result ≡ empty_lengths }
{
    [0u16; 256]
}

// A receiver as try_new makes it, in a state.
fn empty(terms: Terms, state: ReceiverState, reading: u64) -> Receiver
    ensures { result ≡ empty_of terms state reading }
{
    let standing = Standing {
        services: services_or_default(None),
        end_sequence: None,
        message_length: None,
        held: Words::none(),
    };
    Receiver {
        terms,
        progress: closed_progress(standing, state, reading),
        held: Words::none(),
        lengths: empty_lengths(),
        slots: empty_slots(),
    }
}

// 30, 31, 64, codec.
fn terms_check(terms: Terms) -> Result<(), ReceiveError>
    ensures { check_says result ≡ refusal (try_new_rows terms) }
{
    if terms.peer.refused() {
        return Err(ReceiveError::Identity);
    }
    if !terms.protocol.served() {
        return Err(ReceiveError::Service);
    }
    if !known_profile(terms.profile) {
        return Err(ReceiveError::Profile);
    }
    let begin = Segment {
        transaction_id: terms.transaction_id,
        sequence_number: 0,
        kind: SegmentKind::Begin {
            message_length: None,
            services: None,
        },
    };
    begin.validate(0, terms.version)?;
    Ok(())
}

// The terms of no receiver, beside a refusal.
fn no_terms() -> Terms
    ensures { result ≡ no_terms }
{
    Terms {
        peer: MobileIdentity {
            kind: 0,
            width: 0,
            value: 0,
        },
        protocol: HigherLayerProtocol::Segmented(0),
        transaction_id: 0,
        version: 0,
        profile: 1,
        maximum_message_octets: 0,
    }
}

impl Receiver {
    #[tactic(auto, unfolding(crate::specs::Advance::try_new_of))]
    pub fn try_new(
        peer: MobileIdentity,
        protocol: HigherLayerProtocol,
        transaction_id: u8,
        version: u8,
        profile: u8,
        maximum_message_octets: usize,
        monotonic_ms: u64,
    ) -> Call<()>
        ensures { made result ≡ try_new_of (record { peer = peer; protocol = protocol; transaction_id = transaction_id; version = version; profile = profile; maximum_message_octets = maximum_message_octets }) monotonic_ms }
    {
        let terms = Terms {
            peer,
            protocol,
            transaction_id,
            version,
            profile,
            maximum_message_octets,
        };
        match terms_check(terms) {
            Err(e) => Call {
                answer: Err(e),
                receiver: empty(no_terms(), ReceiverState::Canceled, 0),
            },
            Ok(()) => Call {
                answer: Ok(()),
                receiver: empty(terms, ReceiverState::AwaitingBegin, monotonic_ms),
            },
        }
    }

    // What a due deadline does: under Prohibited the reception expires, else the answer asks for what is missing.
    fn fire(&mut self, reading: u64, store: &mut [u8]) -> Option<Reported>
        ensures { advanced (record { answer = Ok result; receiver = self.new }) store.new ≡ fires (due_of self.old.progress.deadline_monotonic_ms reading) (prohibited_of self.old.progress.services.acknowledgment_window) self.old store.old reading }
    {
        if !due(self.progress.deadline_monotonic_ms, reading) {
            self.progress.last_monotonic_ms = reading;
            return None;
        }
        let standing = standing_of(self.progress, self.held);
        if prohibited(standing.services.acknowledgment_window) {
            self.close_as(standing, ReceiverState::Expired, reading, store);
            return None;
        }
        self.progress.deadline_monotonic_ms = None;
        self.progress.last_monotonic_ms = reading;
        respond(
            self.terms.transaction_id,
            standing,
            Status::InterSegmentTimeout,
            true,
        )
    }

    // The refusals, then what the deadline does.
    #[tactic(auto, unfolding(crate::specs::Advance::advance_of))]
    fn tick(
        &mut self,
        monotonic_ms: u64,
        store: &mut [u8],
    ) -> Result<Option<Reported>, ReceiveError>
        ensures { advanced (record { answer = result; receiver = self.new }) store.new ≡ advance_of self.old store.old monotonic_ms }
    {
        self.clock_check(store, monotonic_ms)?;
        Ok(self.fire(monotonic_ms, store))
    }

    pub fn advance(mut self, monotonic_ms: u64, store: &mut [u8]) -> Call<Option<Reported>>
        ensures { advanced result store.new ≡ advance_of self store.old monotonic_ms }
    {
        let answer = self.tick(monotonic_ms, store);
        Call {
            answer,
            receiver: self,
        }
    }

    // What cancel and release do, where the state allows it: wipe the store, and close with nothing held.
    #[tactic(auto, unfolding(crate::specs::Steps::closing_of))]
    fn close(
        &mut self,
        allowed: bool,
        monotonic_ms: u64,
        store: &mut [u8],
    ) -> Result<(), ReceiveError>
        ensures { canceled (record { answer = result; receiver = self.new }) store.new ≡ closing_of allowed self.old store.old monotonic_ms }
    {
        self.clock_check(store, monotonic_ms)?;
        if !allowed {
            return Err(ReceiveError::Closed);
        }
        let standing = standing_of(self.progress, self.held);
        self.close_as(standing, ReceiverState::Canceled, monotonic_ms, store);
        Ok(())
    }

    // Only an open reception can be canceled.
    #[tactic(auto, unfolding(crate::specs::Steps::closing_of, crate::specs::Advance::cancel_of))]
    pub fn cancel(mut self, monotonic_ms: u64, store: &mut [u8]) -> Call<()>
        ensures { canceled result store.new ≡ cancel_of self store.old monotonic_ms }
    {
        let state = self.progress.state;
        let allowed = state.is_awaiting() || state.is_receiving();
        let answer = self.close(allowed, monotonic_ms, store);
        Call {
            answer,
            receiver: self,
        }
    }

    // Only a complete one can be released.
    #[tactic(auto, unfolding(crate::specs::Steps::closing_of, crate::specs::Advance::release_of))]
    pub fn release(mut self, monotonic_ms: u64, store: &mut [u8]) -> Call<()>
        ensures { canceled result store.new ≡ release_of self store.old monotonic_ms }
    {
        let allowed = self.progress.state.is_complete();
        let answer = self.close(allowed, monotonic_ms, store);
        Call {
            answer,
            receiver: self,
        }
    }

    pub fn receive(
        mut self,
        peer: MobileIdentity,
        protocol: HigherLayerProtocol,
        segment: Segment,
        data: &[u8],
        unparsed_octets: usize,
        monotonic_ms: u64,
        store: &mut [u8],
        output: &mut [u8],
    ) -> Call<Reception>
        ensures { received result store.new output.new ≡ receive_of (interval_of self) self (record { peer = peer; protocol = protocol; segment = segment; octets = «data».now; unparsed = unparsed_octets; reading = monotonic_ms }) store.old output.old }
    {
        let brought = Brought {
            peer,
            protocol,
            segment,
            octets: data.len(),
            unparsed: unparsed_octets,
            reading: monotonic_ms,
        };
        let answer = self.take(brought, data, store, output);
        Call {
            answer,
            receiver: self,
        }
    }
}
