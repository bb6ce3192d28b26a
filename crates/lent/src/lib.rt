// The receiver as the firmware calls it: lent by `&mut`, with receive, advance and cancel as the source names them, and release. Each takes
// what is lent apart, makes the call of the same name by value, stores what that hands back, and answers.
//
// The contracts cite the definitions of the calls by value, receive_of, advance_of, cancel_of and release_of, at the record, the store and the
// output on entry and on exit. These are the step function step_of (crates/delivery, specs/Calls) of which demand 3 is proved (proofs/Theorem,
// demand3): a list of lent calls goes through the steps that demand 3 speaks of, so its statement is carried over to the lent calls as it
// stands.
// They look alike, as document 01's form has them: thin functions that take what is lent apart.
#![tactic(auto)]

ghost use Rattle.std.specs.Prelude.{◌≡◌};
ghost use Rattle.receiver.specs.Record.{interval_of};
ghost use Rattle.receiver.specs.Receive.{receive_of};
ghost use Rattle.receiver.specs.Advance.{advance_of, cancel_of, release_of};
ghost use Rattle.receiver.specs.Says.{received, advanced, canceled};

use link::{HigherLayerProtocol, MobileIdentity};
use receiver::{ReceiveError, Receiver, Reception, Reported};
use tsar::Segment;

// A receiver that the firmware keeps in one place and lends to each call.
#[derive(Clone, Copy)]
pub struct LentReceiver {
    pub receiver: Receiver,
}

impl LentReceiver {
    pub fn receive(
        &mut self,
        peer: MobileIdentity,
        protocol: HigherLayerProtocol,
        segment: Segment,
        data: &[u8],
        unparsed_octets: usize,
        monotonic_ms: u64,
        store: &mut [u8],
        output: &mut [u8],
    ) -> Result<Reception, ReceiveError>
        ensures { received (record { answer = result; receiver = self.new.receiver }) store.new output.new ≡ receive_of (interval_of self.old.receiver) self.old.receiver (record { peer = peer; protocol = protocol; segment = segment; octets = «data».now; unparsed = unparsed_octets; reading = monotonic_ms }) store.old output.old }
    {
        let receiver = self.receiver;
        let out = receiver.receive(
            peer,
            protocol,
            segment,
            data,
            unparsed_octets,
            monotonic_ms,
            store,
            output,
        );
        self.receiver = out.receiver;
        out.answer
    }

    pub fn advance(
        &mut self,
        monotonic_ms: u64,
        store: &mut [u8],
    ) -> Result<Option<Reported>, ReceiveError>
        ensures { advanced (record { answer = result; receiver = self.new.receiver }) store.new ≡ advance_of self.old.receiver store.old monotonic_ms }
    {
        let receiver = self.receiver;
        let out = receiver.advance(monotonic_ms, store);
        self.receiver = out.receiver;
        out.answer
    }

    pub fn cancel(&mut self, monotonic_ms: u64, store: &mut [u8]) -> Result<(), ReceiveError>
        ensures { canceled (record { answer = result; receiver = self.new.receiver }) store.new ≡ cancel_of self.old.receiver store.old monotonic_ms }
    {
        let receiver = self.receiver;
        let out = receiver.cancel(monotonic_ms, store);
        self.receiver = out.receiver;
        out.answer
    }

    pub fn release(&mut self, monotonic_ms: u64, store: &mut [u8]) -> Result<(), ReceiveError>
        ensures { canceled (record { answer = result; receiver = self.new.receiver }) store.new ≡ release_of self.old.receiver store.old monotonic_ms }
    {
        let receiver = self.receiver;
        let out = receiver.release(monotonic_ms, store);
        self.receiver = out.receiver;
        out.answer
    }
}
