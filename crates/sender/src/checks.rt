// The refusals of the calls, in document 01's order.
ghost use Rattle.std.specs.Prelude.{◌≡◌, IfOk};
ghost use Rattle.tsar.specs.Rows.{refusal};
ghost use Rattle.sender.specs.Record.{impossible};
ghost use Rattle.sender.specs.Calls.{clock_rows, submitted_rows, word_rows, awaits_word, arrival_rows, entry_rows, response_rows_of};
ghost use Rattle.sender.specs.TryNew.{try_new_rows};
ghost use Rattle.sender.specs.Says.{checked_by};

use crate::course::Course;
use crate::state::Token;
use crate::{Arrival, Outline, PV1, Plan, Progress, SenderError, Terms};
use link::profiles::known_profile;
use response::{Response, Status};
use tsar::Error;

impl Terms {
    // 30, 31, 64, 40; of the codec only the version is left.
    pub(crate) fn check(self, plan: Plan, message: &[u8]) -> Result<(), SenderError>
        ensures { checked_by result ≡ refusal (try_new_rows self plan message.now) }
    {
        if self.peer.refused() {
            return Err(SenderError::Identity);
        }
        if !self.protocol.served() {
            return Err(SenderError::Service);
        }
        if !known_profile(self.profile) {
            return Err(SenderError::Profile);
        }
        if !plan.is_given(message) {
            return Err(SenderError::Plan);
        }
        if self.version < PV1 {
            return Err(SenderError::Codec(Error::Version));
        }
        Ok(())
    }
}

impl Progress {
    // 62: what no call leaves, in a sender of such a plan.
    #[tactic(auto, unfolding(crate::specs::Record::impossible))]
    fn is_impossible(self, course: Course) -> bool
        ensures { result ≡ impossible course.outline.count self }
    {
        let open = self.state.is_prepared() || self.state.awaits_accept();
        if self.current.is_some() != open {
            return true;
        }
        if self
            .current
            .is_some_and(|x| course.outline.count <= usize::from(x.index))
        {
            return true;
        }
        if course.mark_past(self.submitted)
            || course.mark_past(self.retry)
            || course.mark_past(self.received)
        {
            return true;
        }
        self.state.is_closed() && self.deadline_monotonic_ms.is_some()
    }

    // 62, 33.
    #[tactic(auto, unfolding(crate::specs::Record::impossible))]
    pub(crate) fn check_clock(
        self,
        outline: Outline,
        monotonic_ms: u64,
    ) -> Result<Course, SenderError>
        ensures rows { checked_by result ≡ refusal (clock_rows outline self monotonic_ms) }
        ensures course { IfOk result (λ course. course.outline ≡ outline) }
    {
        let course = Course::of(outline).ok_or(SenderError::ImpossibleState)?;
        if self.is_impossible(course) || !known_profile(outline.profile) {
            return Err(SenderError::ImpossibleState);
        }
        if monotonic_ms < self.last_monotonic_ms {
            return Err(SenderError::ClockRegression);
        }
        Ok(course)
    }

    // 62, 33, 38, 42, 44.
    pub(crate) fn check_submitted(
        self,
        token: Token,
        outline: Outline,
        queued_monotonic_ms: u64,
        observed_monotonic_ms: u64,
    ) -> Result<Course, SenderError>
        ensures rows { checked_by result ≡ refusal (submitted_rows token.own outline self token.number token.ticket queued_monotonic_ms observed_monotonic_ms) }
        ensures course { IfOk result (λ course. course.outline ≡ outline) }
    {
        let course = self.check_clock(outline, observed_monotonic_ms)?;
        if self.state.is_closed() {
            return Err(SenderError::Closed);
        }
        if !(self.state.is_prepared() && self.owns(token)) {
            return Err(SenderError::StaleSubmission);
        }
        if queued_monotonic_ms < self.prepared_at() || observed_monotonic_ms < queued_monotonic_ms {
            return Err(SenderError::ReceiptTime);
        }
        Ok(course)
    }

    // The lower layer's word on the submission is awaited.
    pub(crate) fn awaits_word(self, token: Token) -> bool
        ensures { result ≡ awaits_word token.own self token.number token.ticket }
    {
        self.state.awaits_accept() && self.owns(token)
    }

    // 62, 33, 38, 42.
    pub(crate) fn check_word(
        self,
        token: Token,
        outline: Outline,
        monotonic_ms: u64,
    ) -> Result<Course, SenderError>
        ensures rows { checked_by result ≡ refusal (word_rows token.own outline self token.number token.ticket monotonic_ms) }
        ensures course { IfOk result (λ course. course.outline ≡ outline) }
    {
        let course = self.check_clock(outline, monotonic_ms)?;
        if self.state.is_closed() {
            return Err(SenderError::Closed);
        }
        if !self.awaits_word(token) {
            return Err(SenderError::StaleSubmission);
        }
        Ok(course)
    }

    // 38, 45, 31, 47.
    fn check_arrival(self, terms: Terms, arrival: Arrival) -> Result<(), SenderError>
        ensures { checked_by result ≡ refusal (arrival_rows terms self arrival) }
    {
        if self.state.is_closed() {
            return Err(SenderError::Closed);
        }
        if arrival.peer != terms.peer {
            return Err(SenderError::Peer);
        }
        if arrival.protocol != terms.protocol {
            return Err(SenderError::Service);
        }
        if arrival.unparsed != 0 {
            return Err(SenderError::UnparsedResponse);
        }
        Ok(())
    }

    // 32, 46, 43, 48, 49.
    fn check_entries(self, course: Course, response: Response) -> Result<(), SenderError>
        ensures { checked_by result ≡ refusal (entry_rows course.outline self response) }
    {
        let map = response.acknowledgments;
        if response.transaction_id != course.outline.transaction_id {
            return Err(SenderError::TransactionId);
        }
        if course.is_prohibited() {
            return Err(SenderError::ResponsesProhibited);
        }
        if self.none_submitted(course) {
            return Err(SenderError::NotSubmitted);
        }
        if self.acknowledges_unsubmitted(course, map) {
            return Err(SenderError::UnsubmittedAcknowledgment);
        }
        if response.status == Status::Received && self.is_gap(course, map) {
            return Err(SenderError::ContradictoryReceipt);
        }
        Ok(())
    }

    // 62, 33, 38, 45, 31, 47, codec, 32, 46, 43, 48, 49.
    pub(crate) fn check_response(
        self,
        terms: Terms,
        outline: Outline,
        arrival: Arrival,
    ) -> Result<Course, SenderError>
        ensures rows { checked_by result ≡ refusal (response_rows_of terms outline self arrival) }
        ensures course { IfOk result (λ course. course.outline ≡ outline) }
    {
        let course = self.check_clock(outline, arrival.reading)?;
        self.check_arrival(terms, arrival)?;
        arrival.response.validate(terms.version)?;
        self.check_entries(course, arrival.response)?;
        Ok(course)
    }
}
