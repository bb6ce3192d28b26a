// The plans of plan.rec and sender.rec. Ops 10 and 30 begin with plan_message's input, ops 11 and 36 with that of the frozen check. The octets
// of a plan are its message, with the frozen check its joined data.
use crate::case::Lent;
use crate::entries::heads_of;
use crate::number::{be8, be16, be32, from};
use crate::pattern::{patched, pattern};
use plan_c::{catkhize_plan_message, catkhize_try_from_frozen};

#[derive(Clone, Copy)]
pub enum Planner {
    Message,
    Frozen,
}

// The octets of plan_message's input, and of the frozen check's up to the entries.
pub const MESSAGE_INPUT: usize = 16;

pub const FROZEN_INPUT: usize = 26;

// The offset of the entries in op 36's input, behind what the sender is made with.
pub const SENDER_ENTRIES: usize = 47;

// Offsets in plan_message's input.
const SEED: usize = 4;

const BUDGET: usize = 5;

const CEILING: usize = 9;

const TRANSACTION: usize = 13;

pub const WINDOW: usize = 14;

pub const VERSION: usize = 15;

// Offsets in the frozen check's input, up to the heads.
const MESSAGE_LENGTH: usize = 2;

const MESSAGE_SEED: usize = 6;

const FROZEN_BUDGET: usize = 7;

const FROZEN_VERSION: usize = 11;

const FROZEN_CEILING: usize = 12;

const JOINED_LENGTH: usize = 16;

const JOINED_SEED: usize = 20;

const PATCH: usize = 21;

const PATCH_XOR: usize = 25;

// What an input asks of a planner.
#[derive(Clone, Copy)]
pub enum Asked<'a> {
    Message(&'a [u8]),
    Frozen { input: &'a [u8], entries: &'a [u8] },
}

impl<'a> Asked<'a> {
    // What an input asks of a planner, where a frozen plan's entries stand from a place on.
    pub fn new(planner: Planner, input: &'a [u8], entries_at: usize) -> Asked<'a> {
        match planner {
            Planner::Message => Asked::Message(input),
            Planner::Frozen => Asked::Frozen {
                input,
                entries: from(input, entries_at),
            },
        }
    }

    // The number of a plan's octets.
    pub fn octets_length(self) -> usize {
        match self {
            Asked::Message(input) => be32(input, 0) as usize,
            Asked::Frozen { input, .. } => be32(input, JOINED_LENGTH) as usize,
        }
    }

    // Makes the plan. Its octets go to the front of the store, the frozen check's message to the front of the output.
    pub fn make_plan(self, lent: &mut Lent) -> u32 {
        let n = self.octets_length();
        match self {
            Asked::Message(input) => planned(input, n, &mut lent.store, &mut lent.plan),
            Asked::Frozen { input, entries } => frozen(
                input,
                &heads_of(entries),
                n,
                &mut lent.store,
                &mut lent.output,
                &mut lent.plan,
            ),
        }
    }
}

// The length of the frozen check's message.
pub fn message_length(input: &[u8]) -> usize {
    be32(input, MESSAGE_LENGTH) as usize
}

// A plan of a message of n octets. Store and plan stand apart, here and in frozen. tried: `&mut lent.store[..n]` beside `&mut lent.plan`,
// 'a field is lent as `&mut` behind a reference that is lent'.
fn planned(input: &[u8], n: usize, store: &mut [u8], plan: &mut [u8]) -> u32 {
    let n = n.min(store.len());
    let message = &mut store[..n];
    pattern(message, be8(input, SEED));
    catkhize_plan_message(
        message,
        be32(input, BUDGET) as u64,
        be8(input, TRANSACTION),
        be8(input, WINDOW),
        be8(input, VERSION),
        be32(input, CEILING) as u64,
        plan,
    )
}

// A frozen plan with n octets of joined data.
fn frozen(
    input: &[u8],
    heads: &[u8],
    n: usize,
    store: &mut [u8],
    output: &mut [u8],
    plan: &mut [u8],
) -> u32 {
    let n = n.min(store.len());
    let joined = &mut store[..n];
    let m = message_length(input).min(output.len());
    let message = &mut output[..m];
    patched(
        joined,
        be8(input, JOINED_SEED),
        be32(input, PATCH) as usize,
        be8(input, PATCH_XOR),
    );
    pattern(message, be8(input, MESSAGE_SEED));
    catkhize_try_from_frozen(
        heads,
        be16(input, 0) as u64,
        joined,
        message,
        be32(input, FROZEN_BUDGET) as u64,
        be8(input, FROZEN_VERSION),
        be32(input, FROZEN_CEILING) as u64,
        plan,
    )
}
