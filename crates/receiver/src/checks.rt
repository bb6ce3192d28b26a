// The refusals of the calls, in document 01's order.
ghost use Rattle.std.specs.Prelude.{◌≡◌};
ghost use Rattle.tsar.specs.Rows.{refusal};
ghost use Rattle.receiver.specs.Advance.{clock_rows};
ghost use Rattle.receiver.specs.Steps.{check_says, address_rows, segment_rows, arrival_rows};

use crate::kinds::is_begin;
use crate::{MAX_READING_MS, ReceiveError, Receiver, STORE_OCTETS};
use link::profiles::receiver_interval;
use link::{HigherLayerProtocol, MobileIdentity};
use tsar::Segment;

// What a receive brings, with the number of its data octets.
#[derive(Clone, Copy, Debug, PartialEq, Eq)]
pub struct Brought {
    pub peer: MobileIdentity,
    pub protocol: HigherLayerProtocol,
    pub segment: Segment,
    pub octets: usize,
    pub unparsed: usize,
    pub reading: u64,
}

impl Receiver {
    // 60, 62, 33.
    pub fn clock_check(&self, store: &[u8], reading: u64) -> Result<(), ReceiveError>
        ensures { check_says result ≡ refusal (clock_rows self.now store.now reading) }
    {
        if store.len() < STORE_OCTETS {
            return Err(ReceiveError::Store);
        }
        if self.is_impossible() {
            return Err(ReceiveError::ImpossibleState);
        }
        if reading < self.progress.last_monotonic_ms {
            return Err(ReceiveError::ClockRegression);
        }
        Ok(())
    }

    // 60, 61, 62, 33, 30, 31, 32.
    fn address_check(
        &self,
        brought: Brought,
        store: &[u8],
        output: &[u8],
    ) -> Result<(), ReceiveError>
        ensures { check_says result ≡ refusal (address_rows self.now brought store.now output.now) }
    {
        if store.len() < STORE_OCTETS {
            return Err(ReceiveError::Store);
        }
        if output.len() < self.terms.maximum_message_octets.min(STORE_OCTETS) {
            return Err(ReceiveError::Output);
        }
        if self.is_impossible() {
            return Err(ReceiveError::ImpossibleState);
        }
        if brought.reading < self.progress.last_monotonic_ms {
            return Err(ReceiveError::ClockRegression);
        }
        if brought.peer != self.terms.peer {
            return Err(ReceiveError::Identity);
        }
        if brought.protocol != self.terms.protocol {
            return Err(ReceiveError::Service);
        }
        if brought.segment.transaction_id != self.terms.transaction_id {
            return Err(ReceiveError::TransactionId);
        }
        Ok(())
    }

    // Codec, 35, 38, 36, 34.
    fn segment_check(&self, brought: Brought) -> Result<(), ReceiveError>
        ensures { check_says result ≡ refusal (segment_rows self.now brought) }
    {
        let segment = brought.segment;
        segment.validate(brought.octets, self.terms.version)?;
        if brought.unparsed != 0 {
            return Err(ReceiveError::UnparsedSegment);
        }
        if !self.progress.state.is_taking() {
            return Err(ReceiveError::Closed);
        }
        if self.progress.state.is_awaiting() && !is_begin(segment.kind) {
            return Err(ReceiveError::BeginRequired);
        }
        if MAX_READING_MS - receiver_interval(self.terms.profile) < brought.reading {
            return Err(ReceiveError::TimeOverflow);
        }
        Ok(())
    }

    // receive's refusals before the late rule.
    pub fn arrival_check(
        &self,
        brought: Brought,
        store: &[u8],
        output: &[u8],
    ) -> Result<(), ReceiveError>
        ensures { check_says result ≡ refusal (arrival_rows self.now brought store.now output.now) }
    {
        self.address_check(brought, store, output)?;
        self.segment_check(brought)
    }
}
