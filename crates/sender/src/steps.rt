// The steps that the calls are made of: preparing, finishing, advancing, counting a submission and reacting to a response.
ghost use Rattle.std.specs.Prelude.{◌≡◌, Some, IfOk};
ghost use Rattle.tsar.specs.Rows.{refusal};
ghost use Rattle.words.specs.Marks.{no_marks};
ghost use Rattle.sender.specs.Steps.{resent, marking, prepare_for, prepare, finish, again, fire, read, sets_deadline, counted_as, accepted_next, cancelled, reaction, last_if, reprepare, react_by, react};
ghost use Rattle.sender.specs.Calls.{advanced_to, count_rows};
ghost use Rattle.sender.specs.Tickets.{within};
ghost use Rattle.sender.specs.Says.{checked_by};

use crate::course::Course;
use crate::{
    Completion, Progress, REACTIONS, Reaction, SenderError, SenderFailure, SenderState, Submission,
};
use response::{Response, Status};
use words::Words;

// The reaction to a status, from the table.
fn reaction_to(status: Status) -> Reaction
    ensures { result ≡ reaction status }
{
    REACTIONS[usize::from(u8::from(status))]
}

impl Progress {
    // The segment at the index is offered; an offer of it that stands keeps its ticket and its reading.
    fn offer(self, i: u8, monotonic_ms: u64) -> Option<Progress>
        ensures { result ≡ within (prepare_for (Some i) self monotonic_ms) }
    {
        if self.state.is_prepared() && self.is_at(i) {
            return Some(self);
        }
        let ticket = self.last_ticket.checked_add(1)?;
        Some(Progress {
            state: SenderState::Prepared,
            current: Some(Submission {
                ticket,
                index: i,
                prepared_monotonic_ms: monotonic_ms,
            }),
            last_ticket: ticket,
            ..self
        })
    }

    // The lowest pending segment is offered, or a response awaited.
    pub(crate) fn prepare(self, course: Course, monotonic_ms: u64) -> Option<Progress>
        ensures { result ≡ within (prepare course.outline.count self monotonic_ms) }
    {
        match self.next_pending(course) {
            None => Some(Progress {
                state: SenderState::AwaitingResponse,
                current: None,
                ..self
            }),
            Some(i) => self.offer(i, monotonic_ms),
        }
    }

    // Closed: no submission, no deadline.
    pub(crate) fn finish(self, state: SenderState) -> Progress
        ensures { result ≡ finish self state }
    {
        Progress {
            state,
            current: None,
            deadline_monotonic_ms: None,
            ..self
        }
    }

    // What is sent again at a due deadline.
    fn again(self, course: Course) -> Words
        ensures { result ≡ again course.outline.count self self.current }
    {
        match self.current {
            Some(x) => self.retry.with(x.index),
            None => {
                let retry = self.unreceived(course);
                Progress { retry, ..self }.or_last(course)
            }
        }
    }

    // What a due deadline does.
    fn fire(self, course: Course, monotonic_ms: u64) -> Option<Progress>
        ensures { result ≡ within (fire course.outline.count course.outline.acknowledgment_window self monotonic_ms) }
    {
        if course.is_prohibited() {
            return Some(self.finish(SenderState::Failed(SenderFailure::SegmentInterval)));
        }
        if course.is_exceptions() && self.state.awaits_response() && !self.has_pending(course) {
            return Some(self.finish(SenderState::Complete(Completion::ExceptionIntervalElapsed)));
        }
        Progress {
            retry: self.again(course),
            deadline_monotonic_ms: None,
            ..self
        }
        .prepare(course, monotonic_ms)
    }

    fn read(self, monotonic_ms: u64) -> Progress
        ensures { result ≡ read self monotonic_ms }
    {
        Progress {
            last_monotonic_ms: monotonic_ms,
            ..self
        }
    }

    #[tactic(auto, unfolding(crate::specs::Steps::advanced))]
    pub(crate) fn advanced(self, course: Course, monotonic_ms: u64) -> Option<Progress>
        ensures { result ≡ within (advanced_to course.outline self monotonic_ms) }
    {
        if !self.state.is_closed() && self.is_due(monotonic_ms) {
            return Some(self.fire(course, monotonic_ms)?.read(monotonic_ms));
        }
        Some(self.read(monotonic_ms))
    }

    // Whether a submission sets a deadline: not the last segment under Prohibited.
    pub(crate) fn sets_deadline(self, course: Course) -> bool
        ensures { result ≡ sets_deadline course.outline.count course.outline.acknowledgment_window self }
    {
        !(self.none_but(course, self.index()) && course.is_prohibited())
    }

    // 34, 41: the submission is counted, and its deadline set or not.
    pub(crate) fn counted(
        self,
        interval: u64,
        sets: bool,
        queued_monotonic_ms: u64,
    ) -> Result<Progress, SenderError>
        ensures rows { checked_by result ≡ refusal (count_rows interval sets self queued_monotonic_ms) }
        ensures counted { IfOk result (λ p. p ≡ counted_as interval sets self queued_monotonic_ms) }
    {
        let deadline = queued_monotonic_ms.checked_add(interval);
        if sets && deadline.is_none() {
            return Err(SenderError::TimeOverflow);
        }
        let layer3_submissions = self
            .layer3_submissions
            .checked_add(1)
            .ok_or(SenderError::CounterOverflow)?;
        Ok(Progress {
            state: SenderState::AwaitingAccept,
            submitted: self.submitted.with(self.index()),
            retry: self.retry.without(self.index()),
            deadline_monotonic_ms: if sets { deadline } else { None },
            layer3_submissions,
            ..self
        })
    }

    // The next segment is offered; after the last one under Prohibited the sender is complete.
    pub(crate) fn accepted_next(self, course: Course, monotonic_ms: u64) -> Option<Progress>
        ensures { result ≡ within (accepted_next course.outline.count course.outline.acknowledgment_window self monotonic_ms) }
    {
        let taken = Progress {
            current: None,
            ..self
        };
        let next = taken.prepare(course, monotonic_ms)?;
        if next.state.awaits_response() && course.is_prohibited() {
            return Some(next.finish(SenderState::Complete(Completion::LowerLayerAccepted)));
        }
        Some(next)
    }

    pub(crate) fn cancelled(self) -> Progress
        ensures { result ≡ cancelled self }
    {
        if self.state.is_closed() {
            self
        } else {
            self.finish(SenderState::Cancelled)
        }
    }

    // A new offer, unless the lower layer's word is awaited.
    fn reprepare(self, course: Course, monotonic_ms: u64) -> Option<Progress>
        ensures { result ≡ within (reprepare course.outline.count self monotonic_ms) }
    {
        if self.state.awaits_accept() {
            Some(self)
        } else {
            self.prepare(course, monotonic_ms)
        }
    }

    // The last segment is asked for again where nothing is pending and `asks` holds.
    fn last_if(self, asks: bool, course: Course) -> Words
        ensures { result ≡ last_if asks course.outline.count self.submitted self.retry }
    {
        if asks {
            self.or_last(course)
        } else {
            self.retry
        }
    }

    // Continuing and InterSegmentTimeout.
    fn mark(self, course: Course, response: Response, monotonic_ms: u64) -> Option<Progress>
        ensures { result ≡ within (react_by Reaction.Marks course.outline.count self response monotonic_ms) }
    {
        let map = response.acknowledgments;
        let timeout = response.status == Status::InterSegmentTimeout;
        let asks = timeout || self.deadline_monotonic_ms.is_none();
        let told = Progress {
            retry: self.marked_retry(course, map, timeout),
            received: course.marked_received(map),
            ..self
        };
        Progress {
            retry: told.last_if(asks, course),
            ..told
        }
        .reprepare(course, monotonic_ms)
    }

    // CrcError.
    fn resend(self, course: Course, monotonic_ms: u64) -> Option<Progress>
        ensures { result ≡ within (reprepare course.outline.count (marking self (resent course.outline.count self.submitted self.retry) no_marks) monotonic_ms) }
    {
        Progress {
            retry: self.resent(course),
            received: Words::none(),
            ..self
        }
        .reprepare(course, monotonic_ms)
    }

    // The reaction to a response.
    pub(crate) fn react(
        self,
        course: Course,
        response: Response,
        monotonic_ms: u64,
    ) -> Option<Progress>
        ensures { result ≡ within (react course.outline.count self response monotonic_ms) }
    {
        match reaction_to(response.status) {
            Reaction::Completes => Some(self.finish(SenderState::Complete(
                Completion::PeerReceived,
            ))),
            Reaction::Marks => self.mark(course, response, monotonic_ms),
            Reaction::Resends => self.resend(course, monotonic_ms),
            Reaction::Fails => Some(self.finish(SenderState::Failed(SenderFailure::Peer(
                response.status,
            )))),
        }
    }
}
