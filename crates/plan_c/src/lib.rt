// The exported planners, frozen check, converter and delivery orders, on numbers and octet slices. A plan comes out as a sender's plan (PLAN).
#![tactic(auto)]

ghost use Rattle.std.specs.Prelude.{◌≡◌, ◌≤◌, length};
ghost use Rattle.segmentation.specs.Numbers.{planning_number};
ghost use Rattle.segmentation.specs.Plan.{planned_by};
ghost use Rattle.tsar.specs.Rows.{Refusal};
ghost use Rattle.dialect.specs.Numbers.{convert_number};
ghost use Rattle.orders.specs.Numbers.{order_number};
ghost use Rattle.codec_c.specs.Codes.{code_of};
ghost use Rattle.plan_c.specs.Calls.{plan_call, planning_gives, frozen_gives, refused_by, read_of, Plans, plan_message_call, plan_even_call, part_call, segment_gives, plan_segment_call, try_from_frozen_call, dialect_of, convert_call, order_call, delivery_order_call};

use codec_c::codes::{DONE, MISSPELLED, NOTHING, OUTPUT_TOO_SHORT, SHORT, UNNAMED, error_code};
use codec_c::{PART_OCTETS, put_part};
use dialect::{ConvertError, Dialect, convert};
use image::cases::window_of;
use orders::{OrderError, write_order};
use plan_image::{PLAN_OCTETS, get_heads, get_plan, put_plan};
use segmentation::frozen::try_from_frozen;
use segmentation::plan::{plan_even, plan_message};
use segmentation::{MessagePlan, PlanAnswer, PlannedPart, PlanningError};
use sender::Plan;
use tsar::{AcknowledgmentWindow, SegmentHead};

// The last window's number.
const LAST_WINDOW: u8 = 5;

// The last dialect's number.
const LAST_DIALECT: u8 = 1;

// 256 heads.
const HEADS_OCTETS: usize = 5888;

// A refusal of document 01, and the number of a call that gives it: 256 * n for the refusal n, or the codec's own.
trait Refuses {
    ghost number: { Self → Refusal };

    fn code(self) -> u32
        ensures { result ≡ code_of (number self) };
}

impl Refuses for PlanningError {
    ghost number = { planning_number };

    fn code(self) -> u32 {
        match self {
            PlanningError::PayloadBudget => 256 * 20,
            PlanningError::HeaderCapacity => 256 * 21,
            PlanningError::SegmentCount => 256 * 22,
            PlanningError::FrozenPlan => 256 * 23,
            PlanningError::JoinedLength => 256 * 24,
            PlanningError::ExceptionsWindow => 256 * 25,
            PlanningError::Codec(error) => error_code(error),
        }
    }
}

impl Refuses for ConvertError {
    ghost number = { convert_number };

    fn code(self) -> u32 {
        match self {
            ConvertError::Planning(error) => error.code(),
            ConvertError::OtherPattern => 256 * 26,
        }
    }
}

impl Refuses for OrderError {
    ghost number = { order_number };

    fn code(self) -> u32 {
        match self {
            OrderError::Number => 256 * 28,
            OrderError::Output => OUTPUT_TOO_SHORT,
        }
    }
}

// What a planner gave: a plan is put into plan.
fn put_planning(given: Result<MessagePlan, PlanningError>, plan: &mut [u8]) -> u32
    requires { 5958 ≤ length plan.old }
    ensures { plan_call result plan.new ≡ planning_gives (planned_by given) plan.old }
{
    match given {
        Err(e) => e.code(),
        Ok(MessagePlan::Unsegmented) => NOTHING,
        Ok(MessagePlan::Segmented(p)) => {
            put_plan(plan, Plan::planned(p));
            DONE
        }
    }
}

// The exports' own tests, and then what a planner gives for the window of that number.
#[tactic(auto, unfolding(crate::specs::Calls::planning_call))]
fn give_planning<F: FnOnce(AcknowledgmentWindow) -> Result<MessagePlan, PlanningError>>(
    window: u8,
    plan: &mut [u8],
    planner: F,
) -> u32
    requires { F.IsAlwaysCallable planner }
    ensures { Plans (F.post planner) window plan.old (plan_call result plan.new) }
{
    if plan.len() < PLAN_OCTETS {
        return SHORT;
    }
    if LAST_WINDOW < window {
        return UNNAMED;
    }
    put_planning(planner(window_of(window)), plan)
}

// Plans the segments of a message. The plan is put into plan.
pub fn catkhize_plan_message(
    message: &[u8],
    budget: u64,
    transaction: u8,
    window: u8,
    version: u8,
    ceiling: u64,
    plan: &mut [u8],
) -> u32
    ensures { plan_call result plan.new ≡ plan_message_call message.now budget transaction window version ceiling plan.old }
{
    give_planning(window, plan, |w| {
        plan_message(
            message,
            budget as usize,
            transaction,
            w,
            version,
            ceiling as usize,
        )
    })
}

// Two exported names (the C interface) with one body, `give_planning`.
// The same with later segments of even length.
pub fn catkhize_plan_even(
    message: &[u8],
    budget: u64,
    transaction: u8,
    window: u8,
    version: u8,
    ceiling: u64,
    plan: &mut [u8],
) -> u32
    ensures { plan_call result plan.new ≡ plan_even_call message.now budget transaction window version ceiling plan.old }
{
    give_planning(window, plan, |w| {
        plan_even(
            message,
            budget as usize,
            transaction,
            w,
            version,
            ceiling as usize,
        )
    })
}

// Segment i, where there is one, is put into answer.
fn put_segment(given: Option<PlannedPart>, answer: &mut [u8]) -> u32
    ensures { part_call result answer.new ≡ segment_gives given answer.old }
{
    match given {
        None => NOTHING,
        Some(part) => {
            put_part(answer, part.head, part.offset);
            DONE
        }
    }
}

// Segment i of the plan that PLAN spells, of either form. Answers PART.
#[tactic(auto, unfolding(crate::specs::Calls::plan_segment_call))]
pub fn catkhize_plan_segment(plan: &[u8], index: u8, answer: &mut [u8]) -> u32
    ensures { part_call result answer.new ≡ plan_segment_call plan.now index answer.old }
{
    if plan.len() < PLAN_OCTETS || answer.len() < PART_OCTETS {
        return SHORT;
    }
    let Some(p) = get_plan(plan) else {
        return MISSPELLED;
    };
    put_segment(p.segment(index), answer)
}

// What the frozen check or the converter gave: a plan that it accepted is put into plan, as a sender has it.
fn put_checked<E: Refuses + Copy>(checked: PlanAnswer<E>, plan: &mut [u8]) -> u32
    requires { 5958 ≤ length plan.old }
    ensures { plan_call result plan.new ≡ frozen_gives (refused_by E.number checked.answer) checked.plan plan.old }
{
    match checked.answer {
        Err(e) => e.code(),
        Ok(()) => {
            put_plan(plan, Plan::frozen(checked.plan));
            DONE
        }
    }
}

// The heads that HEADS spells, where plan has room for a plan, or the number that refuses the call.
fn read_heads(heads: &[u8], plan: &[u8]) -> Result<[SegmentHead; 256], u32>
    ensures { result ≡ read_of heads.now plan.now }
{
    if heads.len() < HEADS_OCTETS || plan.len() < PLAN_OCTETS {
        return Err(SHORT);
    }
    get_heads(heads).ok_or(MISSPELLED)
}

// The frozen check of count segments, whose heads HEADS spells. The plan is put into plan.
#[tactic(auto, using(crate::proofs::Refusals::planning_refused_by), unfolding(crate::specs::Calls::try_from_frozen_call))]
pub fn catkhize_try_from_frozen(
    heads: &[u8],
    count: u64,
    joined: &[u8],
    message: &[u8],
    budget: u64,
    version: u8,
    ceiling: u64,
    plan: &mut [u8],
) -> u32
    ensures { plan_call result plan.new ≡ try_from_frozen_call heads.now count joined.now message.now budget version ceiling plan.old }
{
    match read_heads(heads, plan) {
        Err(code) => code,
        Ok(given) => {
            let checked = try_from_frozen(
                given,
                count as usize,
                joined,
                message,
                budget as usize,
                version,
                ceiling as usize,
            );
            put_checked(checked, plan)
        }
    }
}

// The dialect that a number names; past the last, the first.
fn dialect_of(n: u8) -> Dialect
    ensures { result ≡ dialect_of n }
{
    match n {
        1 => Dialect::Every,
        _ => Dialect::BeginOnly,
    }
}

// Converts a train of count segments, whose heads HEADS spells, out of the dialect being read into the other. The plan is put into plan.
#[tactic(auto, using(crate::proofs::Refusals::convert_refused_by), unfolding(crate::specs::Calls::convert_call))]
pub fn catkhize_convert(
    heads: &[u8],
    count: u64,
    joined: &[u8],
    message: &[u8],
    budget: u64,
    version: u8,
    ceiling: u64,
    dialect: u8,
    plan: &mut [u8],
) -> u32
    ensures { plan_call result plan.new ≡ convert_call heads.now count joined.now message.now budget version ceiling dialect plan.old }
{
    match read_heads(heads, plan) {
        Err(code) => code,
        Ok(given) => {
            if LAST_DIALECT < dialect {
                return UNNAMED;
            }
            let conversion = convert(
                given,
                count as usize,
                joined,
                message,
                budget as usize,
                version,
                ceiling as usize,
                dialect_of(dialect),
            );
            put_checked(conversion, plan)
        }
    }
}

// Writes the sequence numbers of a train of 2 to 6 segments in the delivery order with a number.
pub fn catkhize_delivery_order(segments: u8, number: u64, output: &mut [u8]) -> u32
    ensures { order_call result output.new ≡ delivery_order_call segments number output.old }
{
    match write_order(segments as usize, number as usize, output) {
        Ok(()) => DONE,
        Err(e) => e.code(),
    }
}
