// The calls on the progress alone: refusals, then the step, then 63.
ghost use Rattle.std.specs.Prelude.{◌≡◌};
ghost use Rattle.link.specs.Profile.{sender_interval};
ghost use Rattle.sender.specs.Numbers.{sender_number};
ghost use Rattle.sender.specs.Calls.{refuses, left, or_tickets, counting, advance_in, cancel_in, submitted_in, accepted_in, lower_failed_in, reacted, late_first, receive_response_in};
ghost use Rattle.sender.specs.Tickets.{within};
ghost use Rattle.sender.specs.Says.{turned, turned_by};

use crate::course::Course;
use crate::state::Token;
use crate::{
    Arrival, LowerLayerFailure, Outline, Progress, SenderError, SenderFailure, SenderState, Terms,
    Turned,
};
use link::profiles::sender_interval;

impl Progress {
    // A refusal after a step has acted.
    fn refused(self, e: SenderError) -> Turned
        ensures { turned result ≡ refuses (sender_number e) self }
    {
        Turned {
            answer: Err(e),
            progress: self,
        }
    }

    // The answer is the state that a step left.
    fn left(self) -> Turned
        ensures { turned result ≡ left self }
    {
        Turned {
            answer: Ok(self.state),
            progress: self,
        }
    }

    #[tactic(auto, unfolding(crate::specs::Calls::advance_in))]
    pub(crate) fn advance(self, outline: Outline, monotonic_ms: u64) -> Result<Turned, SenderError>
        ensures { turned_by self result ≡ advance_in outline self monotonic_ms }
    {
        let course = self.check_clock(outline, monotonic_ms)?;
        let advanced = self
            .advanced(course, monotonic_ms)
            .ok_or(SenderError::Tickets)?;
        Ok(advanced.left())
    }

    #[tactic(auto, using(crate::proofs::Stepping::cancelled_ticket), unfolding(crate::specs::Calls::cancel_in))]
    pub(crate) fn cancel(self, outline: Outline, monotonic_ms: u64) -> Result<Turned, SenderError>
        ensures { turned_by self result ≡ cancel_in outline self monotonic_ms }
    {
        let course = self.check_clock(outline, monotonic_ms)?;
        let advanced = self
            .advanced(course, monotonic_ms)
            .ok_or(SenderError::Tickets)?;
        Ok(advanced.cancelled().left())
    }

    // The submission is counted, and time goes on to the observed reading.
    fn count(
        self,
        interval: u64,
        course: Course,
        queued_monotonic_ms: u64,
        observed_monotonic_ms: u64,
    ) -> Result<Turned, SenderError>
        ensures { turned_by self result ≡ or_tickets self (counting interval course.outline.count course.outline.acknowledgment_window self queued_monotonic_ms observed_monotonic_ms) }
    {
        let sets = self.sets_deadline(course);
        let counted = self.counted(interval, sets, queued_monotonic_ms)?;
        let advanced = counted
            .advanced(course, observed_monotonic_ms)
            .ok_or(SenderError::Tickets)?;
        Ok(advanced.left())
    }

    #[tactic(auto, unfolding(crate::specs::Calls::submitted_in))]
    pub(crate) fn submitted(
        self,
        token: Token,
        outline: Outline,
        queued_monotonic_ms: u64,
        observed_monotonic_ms: u64,
    ) -> Result<Turned, SenderError>
        ensures { turned_by self result ≡ submitted_in (sender_interval outline.profile) token.own outline self token.number token.ticket queued_monotonic_ms observed_monotonic_ms }
    {
        let course = self.check_submitted(
            token,
            outline,
            queued_monotonic_ms,
            observed_monotonic_ms,
        )?;
        if course.is_prohibited() && self.is_due(queued_monotonic_ms) {
            let late = self
                .advanced(course, observed_monotonic_ms)
                .ok_or(SenderError::Tickets)?;
            return Ok(late.refused(SenderError::ReceiptTime));
        }
        self.count(
            sender_interval(outline.profile),
            course,
            queued_monotonic_ms,
            observed_monotonic_ms,
        )
    }

    #[tactic(auto, unfolding(crate::specs::Calls::accepted_in))]
    pub(crate) fn accepted(
        self,
        token: Token,
        outline: Outline,
        monotonic_ms: u64,
    ) -> Result<Turned, SenderError>
        ensures { turned_by self result ≡ accepted_in token.own outline self token.number token.ticket monotonic_ms }
    {
        let course = self.check_word(token, outline, monotonic_ms)?;
        let advanced = self
            .advanced(course, monotonic_ms)
            .ok_or(SenderError::Tickets)?;
        if !advanced.awaits_word(token) {
            return Ok(advanced.refused(SenderError::StaleSubmission));
        }
        let next = advanced
            .accepted_next(course, monotonic_ms)
            .ok_or(SenderError::Tickets)?;
        Ok(next.left())
    }

    #[tactic(auto, unfolding(crate::specs::Calls::lower_failed_in))]
    pub(crate) fn lower_failed(
        self,
        token: Token,
        outline: Outline,
        failure: LowerLayerFailure,
        monotonic_ms: u64,
    ) -> Result<Turned, SenderError>
        ensures { turned_by self result ≡ lower_failed_in token.own outline self token.number token.ticket failure monotonic_ms }
    {
        let course = self.check_word(token, outline, monotonic_ms)?;
        let advanced = self
            .advanced(course, monotonic_ms)
            .ok_or(SenderError::Tickets)?;
        if !advanced.awaits_word(token) {
            return Ok(advanced.refused(SenderError::StaleSubmission));
        }
        let failed = SenderState::Failed(SenderFailure::LowerLayer(failure));
        Ok(advanced.finish(failed).left())
    }

    // The reaction to a response that passed the checks, and the closing advance.
    #[tactic(auto, using(crate::specs::Tickets::no_ticket, crate::proofs::Stepping::advanced_grows))]
    fn reacted(self, course: Course, arrival: Arrival) -> Option<Progress>
        ensures { result ≡ within (reacted course.outline self arrival) }
    {
        self.react(course, arrival.response, arrival.reading)?
            .advanced(course, arrival.reading)
    }

    // Late: advance acts first; where that closes the sender, 38.
    #[tactic(auto, using(crate::proofs::Stepping::reacted_grows))]
    fn late_first(self, course: Course, arrival: Arrival) -> Result<Turned, SenderError>
        ensures { turned_by self result ≡ or_tickets self (late_first course.outline self arrival) }
    {
        if !self.is_late(arrival.reading) {
            let reacted = self.reacted(course, arrival).ok_or(SenderError::Tickets)?;
            return Ok(reacted.left());
        }
        let advanced = self
            .advanced(course, arrival.reading)
            .ok_or(SenderError::Tickets)?;
        if advanced.state.is_closed() {
            return Ok(advanced.refused(SenderError::Closed));
        }
        let reacted = advanced
            .reacted(course, arrival)
            .ok_or(SenderError::Tickets)?;
        Ok(reacted.left())
    }

    #[tactic(auto, unfolding(crate::specs::Calls::receive_response_in))]
    pub(crate) fn receive_response(
        self,
        terms: Terms,
        outline: Outline,
        arrival: Arrival,
    ) -> Result<Turned, SenderError>
        ensures { turned_by self result ≡ receive_response_in terms outline self arrival }
    {
        let course = self.check_response(terms, outline, arrival)?;
        self.late_first(course, arrival)
    }
}
