// Plans, frozen plans and their dialects, and delivery orders.
// Each entry hands its arguments on under an exported name (the C interface), so the entries look alike.
ghost use Rattle.std.specs.Prelude.{◌≡◌};
ghost use Rattle.plan_c.specs.Calls.{plan_call, plan_message_call, plan_even_call, part_call, plan_segment_call, try_from_frozen_call, convert_call, order_call, delivery_order_call};

// Plans the segments of a message. The plan is put into plan.
#[unsafe(no_mangle)]
pub extern "C" fn catkhize_plan_message(
    message: &[u8],
    budget: u64,
    transaction: u8,
    window: u8,
    version: u8,
    ceiling: u64,
    plan: &mut [u8],
) -> u32
    ensures { plan_call result plan.new ≡ plan_message_call message.now budget transaction window version ceiling plan.old }
{
    plan_c::catkhize_plan_message(message, budget, transaction, window, version, ceiling, plan)
}

// The same with later segments of even length.
#[unsafe(no_mangle)]
pub extern "C" fn catkhize_plan_even(
    message: &[u8],
    budget: u64,
    transaction: u8,
    window: u8,
    version: u8,
    ceiling: u64,
    plan: &mut [u8],
) -> u32
    ensures { plan_call result plan.new ≡ plan_even_call message.now budget transaction window version ceiling plan.old }
{
    plan_c::catkhize_plan_even(message, budget, transaction, window, version, ceiling, plan)
}

// Segment i of the plan that PLAN spells, of either form. Answers PART.
#[unsafe(no_mangle)]
pub extern "C" fn catkhize_plan_segment(plan: &[u8], index: u8, answer: &mut [u8]) -> u32
    ensures { part_call result answer.new ≡ plan_segment_call plan.now index answer.old }
{
    plan_c::catkhize_plan_segment(plan, index, answer)
}

// The frozen check of count segments, whose heads HEADS spells. The plan is put into plan.
#[unsafe(no_mangle)]
pub extern "C" fn catkhize_try_from_frozen(
    heads: &[u8],
    count: u64,
    joined: &[u8],
    message: &[u8],
    budget: u64,
    version: u8,
    ceiling: u64,
    plan: &mut [u8],
) -> u32
    ensures { plan_call result plan.new ≡ try_from_frozen_call heads.now count joined.now message.now budget version ceiling plan.old }
{
    plan_c::catkhize_try_from_frozen(
        heads, count, joined, message, budget, version, ceiling, plan,
    )
}

// Converts a train of count segments, whose heads HEADS spells, out of the dialect being read into the other. The plan is put into plan.
#[unsafe(no_mangle)]
pub extern "C" fn catkhize_convert(
    heads: &[u8],
    count: u64,
    joined: &[u8],
    message: &[u8],
    budget: u64,
    version: u8,
    ceiling: u64,
    dialect: u8,
    plan: &mut [u8],
) -> u32
    ensures { plan_call result plan.new ≡ convert_call heads.now count joined.now message.now budget version ceiling dialect plan.old }
{
    plan_c::catkhize_convert(
        heads, count, joined, message, budget, version, ceiling, dialect, plan,
    )
}

// Writes the sequence numbers of a train of 2 to 6 segments in the delivery order with a number.
#[unsafe(no_mangle)]
pub extern "C" fn catkhize_delivery_order(segments: u8, number: u64, output: &mut [u8]) -> u32
    ensures { order_call result output.new ≡ delivery_order_call segments number output.old }
{
    plan_c::catkhize_delivery_order(segments, number, output)
}
