// The calls that the lists hold, by the number that stands in front of a case (oracle/RECORDED.md).
use crate::planning::Planner;
use crate::{codec, receiving, sending};

#[derive(Clone, Copy)]
pub enum Op {
    Codec(codec::Call),
    Plan(Planner),
    Receiver(receiving::Call),
    // try_new of a sender, with a planner's plan.
    NewSender(Planner),
    Sender(sending::Call),
}

// A number that names no call.
#[derive(Clone, Copy)]
pub struct Unnamed;

impl TryFrom<u8> for Op {
    type Error = Unnamed;

    fn try_from(number: u8) -> Result<Op, Unnamed> {
        Ok(match number {
            0x01 => Op::Codec(codec::Call::Decode),
            0x02 => Op::Codec(codec::Call::Encode),
            0x10 => Op::Plan(Planner::Message),
            0x11 => Op::Plan(Planner::Frozen),
            0x20 => Op::Receiver(receiving::Call::TryNew),
            0x21 => Op::Receiver(receiving::Call::Receive),
            0x22 => Op::Receiver(receiving::Call::Advance),
            0x23 => Op::Receiver(receiving::Call::Cancel),
            0x30 => Op::NewSender(Planner::Message),
            0x31 => Op::Sender(sending::Call::Advance),
            0x32 => Op::Sender(sending::Call::Submitted),
            0x33 => Op::Sender(sending::Call::Accepted),
            0x34 => Op::Sender(sending::Call::LowerFailed),
            0x35 => Op::Sender(sending::Call::ReceiveResponse),
            0x36 => Op::NewSender(Planner::Frozen),
            0x37 => Op::Sender(sending::Call::Cancel),
            _ => return Err(Unnamed),
        })
    }
}

impl Op {
    // Whether an op opens a list of calls.
    pub fn opens(self) -> bool {
        matches!(
            self,
            Op::Receiver(receiving::Call::TryNew) | Op::NewSender(_)
        )
    }
}
