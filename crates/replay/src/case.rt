// A case of a list: its call is made through the exports on lent octets, and what it gave is compared with every octet of the recorded answer.
// All that it calls is total, so that the run only reads a list and counts.
use crate::input::is_input;
use crate::op::Op;
use crate::opening::{open, opening_same};
use crate::plan::plan_same;
use crate::planning::{Asked, FROZEN_INPUT};
use crate::state::sender_same;
use tally::Outcome;

// No message and no joined data are longer, and no store and no output either.
pub const LONG: usize = 66_000;

// A receiver's record or a sender's, a plan, and whatever a call answers.
pub const RECORD_OCTETS: usize = 6131;

pub const PLAN_OCTETS: usize = 5958;

pub const ANSWER_OCTETS: usize = 64;

// What the calls of a list are lent. Record, plan, store and output are as the case before left them; with a plan its octets and the message
// take the place of store and output.
#[derive(Drop)]
pub struct Lent {
    pub record: [u8; RECORD_OCTETS],
    pub plan: [u8; PLAN_OCTETS],
    pub store: [u8; LONG],
    pub output: [u8; LONG],
    pub answer: [u8; ANSWER_OCTETS],
}

impl Lent {
    pub fn new() -> Lent {
        Lent {
            record: [0; RECORD_OCTETS],
            plan: [0; PLAN_OCTETS],
            store: [0; LONG],
            output: [0; LONG],
            answer: [0; ANSWER_OCTETS],
        }
    }

    // Makes the call of a case.
    fn call(&mut self, op: Op, input: &[u8]) -> u32 {
        self.answer = [0; ANSWER_OCTETS];
        match op {
            Op::Codec(call) => call.make(input, self),
            Op::Plan(planner) => Asked::new(planner, input, FROZEN_INPUT).make_plan(self),
            Op::Receiver(call) => call.make(input, self),
            Op::NewSender(planner) => open(planner, input, self),
            Op::Sender(call) => call.make(input, self),
        }
    }

    // Whether what a call gave is the expected answer.
    fn is_same(&self, op: Op, code: u32, input: &[u8], expected: &[u8]) -> bool {
        match op {
            Op::Codec(call) => call.is_same(code, input, self, expected),
            Op::Plan(planner) => {
                plan_same(
                    Asked::new(planner, input, FROZEN_INPUT),
                    code,
                    self,
                    expected,
                )
            }
            Op::Receiver(call) => call.is_same(code, self, expected),
            Op::NewSender(_) => opening_same(code, self, expected),
            Op::Sender(_) => sender_same(code, self, expected),
        }
    }

    // Makes the call of a case, where its input is one of its op, and says whether it gave the expected answer.
    pub fn replay(&mut self, op: Op, input: &[u8], expected: &[u8]) -> Outcome {
        if !is_input(op, input, &self.record) {
            return Outcome::Malformed;
        }
        let code = self.call(op, input);
        if self.is_same(op, code, input, expected) {
            Outcome::Same
        } else {
            Outcome::Differs
        }
    }
}
