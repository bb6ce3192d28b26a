// The delivery orders of a short train: Begin first, the others in every order, numbered in lexicographic order (2026-10).
#![tactic(auto)]

ghost use Rattle.std.specs.Prelude.{◌≡◌, ◌∷◌, ◌≤◌, ◌<◌, length, get_or};
ghost use Rattle.orders.specs.Orders.{factorial, without, arranged, count_from, write_order_of, ordered_by};

// Why no order is written: 28 and 61.
#[derive(Clone, Copy, Debug, PartialEq, Eq)]
pub enum OrderError {
    Number,
    Output,
}

const MIN_SEGMENTS: usize = 2;

const MAX_SEGMENTS: usize = 6;

// The factorials of 0 to 5: in how many orders so many things stand.
const FACTORIALS: [usize; 6] = [1, 1, 2, 6, 24, 120];

fn factorial(m: usize) -> usize
    requires { m ≤ 5 }
    ensures { result ≡ factorial m }
{
    FACTORIALS[m]
}

// 0, 1, 2 and so on.
fn count_up(places: &mut [u8])
    requires { length places.old ≤ 6 }
    ensures { places.new ≡ count_from 0 (length places.old) }
{
    for (i, place) in places.iter_mut().enumerate() {
        *place = i as u8;
    }
}

// What stands at place d comes first, those before it go one place on.
fn bring(left: &mut [u8], d: usize)
    requires { d < length left.old }
    ensures { left.new ≡ get_or left.old d 0 ∷ without left.old d }
{
    left[..=d].rotate_right(1);
}

// Puts those left into their order with a number.
fn arrange(left: &mut [u8], number: usize)
    requires { (length left.old ≤ 5) × (number < factorial (length left.old)) }
    ensures { left.new ≡ arranged (length left.old) left.old number }
{
    let mut rest = number;
    for i in 0..left.len() {
        let f = factorial(left.len() - i - 1);
        bring(&mut left[i..], rest / f);
        rest %= f;
    }
}

// Writes the sequence numbers of a train of 2 to 6 segments in the order with a number; a refusal changes no octet.
pub fn write_order(segments: usize, number: usize, output: &mut [u8]) -> Result<(), OrderError>
    ensures { ordered_by result output.new ≡ write_order_of segments number output.old }
{
    if segments < MIN_SEGMENTS || MAX_SEGMENTS < segments || factorial(segments - 1) <= number {
        return Err(OrderError::Number);
    }
    if output.len() < segments {
        return Err(OrderError::Output);
    }
    count_up(&mut output[0..segments]);
    arrange(&mut output[1..segments], number);
    Ok(())
}
