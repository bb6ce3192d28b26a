// What is printed of an answer.
use receiver::{ReceiveError, Reception, Reported};
use response::status_number;
use std::fmt;

// Document 01's number of a refusal; of the codec's, only that it is the codec's.
#[derive(Clone, Copy)]
struct Refusal(ReceiveError);

impl fmt::Display for Refusal {
    fn fmt<W: fmt::Write>(&self, f: &mut fmt::Formatter<W>) -> fmt::Result {
        let number = match self.0 {
            ReceiveError::Codec(_) => {
                return write!(f, "refused with a number of the codec");
            }
            ReceiveError::Identity => 30,
            ReceiveError::Service => 31,
            ReceiveError::TransactionId => 32,
            ReceiveError::ClockRegression => 33,
            ReceiveError::TimeOverflow => 34,
            ReceiveError::UnparsedSegment => 35,
            ReceiveError::BeginRequired => 36,
            ReceiveError::TimerDue => 37,
            ReceiveError::Closed => 38,
            ReceiveError::Store => 60,
            ReceiveError::Output => 61,
            ReceiveError::ImpossibleState => 62,
            ReceiveError::Profile => 64u8,
        };
        write!(f, "refused with {number}")
    }
}

#[derive(Clone, Copy)]
struct Asked(Option<Reported>);

impl fmt::Display for Asked {
    fn fmt<W: fmt::Write>(&self, f: &mut fmt::Formatter<W>) -> fmt::Result {
        match self.0 {
            None => write!(f, "no response"),
            Some(reported) => {
                let response = reported.response;
                let status = status_number(response.status);
                let entries = response.acknowledgments.bit_count;
                let count = reported.missing.count;
                let first = reported.missing.first;
                write!(
                    f,
                    "response of status {status}, map of {entries}, missing {count}, first {first}"
                )
            }
        }
    }
}

#[derive(Clone, Copy)]
pub struct Received(pub Result<Reception, ReceiveError>);

impl fmt::Display for Received {
    fn fmt<W: fmt::Write>(&self, f: &mut fmt::Formatter<W>) -> fmt::Result {
        match self.0 {
            Err(e) => write!(f, "{}", Refusal(e)),
            Ok(reception) => {
                write!(f, "{}", Asked(reception.response))?;
                match reception.message {
                    None => Ok(()),
                    Some(n) => write!(f, ", message of {n} octets"),
                }
            }
        }
    }
}

#[derive(Clone, Copy)]
pub struct Advanced(pub Result<Option<Reported>, ReceiveError>);

impl fmt::Display for Advanced {
    fn fmt<W: fmt::Write>(&self, f: &mut fmt::Formatter<W>) -> fmt::Result {
        match self.0 {
            Err(e) => write!(f, "{}", Refusal(e)),
            Ok(response) => write!(f, "{}", Asked(response)),
        }
    }
}

// What cancel answers, and release.
#[derive(Clone, Copy)]
pub struct Canceled(pub Result<(), ReceiveError>);

impl fmt::Display for Canceled {
    fn fmt<W: fmt::Write>(&self, f: &mut fmt::Formatter<W>) -> fmt::Result {
        match self.0 {
            Err(e) => write!(f, "{}", Refusal(e)),
            Ok(()) => write!(f, "canceled"),
        }
    }
}
