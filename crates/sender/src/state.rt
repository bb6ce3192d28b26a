// What states, deadlines and the present submission say.
ghost use Rattle.std.specs.Prelude.{◌≡◌};
ghost use Rattle.sender.specs.Record.{is_prepared, awaits_accept, awaits_response, is_closed, late, due};
ghost use Rattle.sender.specs.Steps.{is_at, index_of};
ghost use Rattle.sender.specs.Calls.{owns, prepared_at};

use crate::{Progress, SenderState};

// The token that the lower layer gives, a sender's number and a ticket, beside the number of this sender.
#[derive(Clone, Copy, Debug, PartialEq, Eq)]
pub(crate) struct Token {
    pub(crate) own: u64,
    pub(crate) number: u64,
    pub(crate) ticket: u64,
}

impl SenderState {
    pub(crate) fn is_prepared(self) -> bool
        ensures { result ≡ is_prepared self }
    {
        matches!(self, SenderState::Prepared)
    }

    pub(crate) fn awaits_accept(self) -> bool
        ensures { result ≡ awaits_accept self }
    {
        matches!(self, SenderState::AwaitingAccept)
    }

    pub(crate) fn awaits_response(self) -> bool
        ensures { result ≡ awaits_response self }
    {
        matches!(self, SenderState::AwaitingResponse)
    }

    pub(crate) fn is_closed(self) -> bool
        ensures { result ≡ is_closed self }
    {
        matches!(
            self,
            SenderState::Complete(_) | SenderState::Failed(_) | SenderState::Cancelled
        )
    }
}

impl Progress {
    // The reading is past the deadline.
    pub(crate) fn is_late(self, monotonic_ms: u64) -> bool
        ensures { result ≡ late self.deadline_monotonic_ms monotonic_ms }
    {
        self.deadline_monotonic_ms.is_some_and(|d| d < monotonic_ms)
    }

    // The reading is at or past the deadline.
    pub(crate) fn is_due(self, monotonic_ms: u64) -> bool
        ensures { result ≡ due self.deadline_monotonic_ms monotonic_ms }
    {
        self.deadline_monotonic_ms
            .is_some_and(|d| d <= monotonic_ms)
    }

    // The present submission is of segment i.
    pub(crate) fn is_at(self, i: u8) -> bool
        ensures { result ≡ is_at self.current i }
    {
        self.current.is_some_and(|x| x.index == i)
    }

    pub(crate) fn index(self) -> u8
        ensures { result ≡ index_of self.current }
    {
        self.current.map_or(0, |x| x.index)
    }

    pub(crate) fn prepared_at(self) -> u64
        ensures { result ≡ prepared_at self.current }
    {
        self.current.map_or(0, |x| x.prepared_monotonic_ms)
    }

    // The token is that of the present submission.
    pub(crate) fn owns(self, token: Token) -> bool
        ensures { result ≡ owns token.own self.current token.number token.ticket }
    {
        self.current
            .is_some_and(|x| token.own == token.number && x.ticket == token.ticket)
    }
}
