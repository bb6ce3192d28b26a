// pattern and patched of RECORDED.md, octets that a list doesn't hold; and Adler-32 of RFC 1950, two sums modulo 65,521, the first starting
// at 1, the second in the upper 16 bits.

// Every octet of an output and of a store before a call.
pub const FILL: u8 = 0xA5;

const MODULUS: u64 = 65521;

const UPPER: u64 = 65536;

// The sum of no octets.
pub const NO_OCTETS: u64 = 1;

// Octet i is (seed + 7 × i + i / 256) mod 256.
fn pattern_octet(i: usize, seed: u8) -> u8 {
    ((seed as usize + 7 * (i % 256) + i / 256 % 256) % 256) as u8
}

// Octets become the pattern's.
pub fn pattern(out: &mut [u8], seed: u8) {
    for (i, x) in out.iter_mut().enumerate() {
        *x = pattern_octet(i, seed);
    }
}

// The pattern, with the octet at a position changed by exclusive or, where there is such an octet.
pub fn patched(out: &mut [u8], seed: u8, position: usize, change: u8) {
    pattern(out, seed);
    if position < out.len() {
        out[position] ^= change;
    }
}

// A sum with one octet more.
fn adler_octet(sum: u64, x: u8) -> u64 {
    let first = (sum % UPPER + x as u64) % MODULUS;
    (sum / UPPER % UPPER + first) % MODULUS * UPPER + first
}

// The sum with the octets of s.
pub fn adler(start: u64, s: &[u8]) -> u64 {
    s.iter().fold(start, |sum, &x| adler_octet(sum, x))
}
