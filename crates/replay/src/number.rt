// Parts of lent octets, and numbers in them with the highest octet first. What lies past the end reads as 0, and is left out of a part.

// The octets from at on.
pub fn from(s: &[u8], at: usize) -> &[u8] {
    s.get(at..).unwrap_or(&[])
}

// The first n octets.
pub fn front(s: &[u8], n: usize) -> &[u8] {
    s.get(..n).unwrap_or(s)
}

// The n octets from at on.
pub fn part(s: &[u8], at: usize, n: usize) -> &[u8] {
    front(from(s, at), n)
}

// N octets from at on.
pub fn octets_at<const N: usize>(s: &[u8], at: usize) -> [u8; N] {
    let mut octets = [0u8; N];
    octets::put(&mut octets, 0, from(s, at));
    octets
}

pub fn be8(s: &[u8], at: usize) -> u8 {
    s.get(at).copied().unwrap_or(0)
}

pub fn be16(s: &[u8], at: usize) -> u16 {
    u16::from_be_bytes(octets_at(s, at))
}

pub fn be32(s: &[u8], at: usize) -> u32 {
    u32::from_be_bytes(octets_at(s, at))
}

pub fn be64(s: &[u8], at: usize) -> u64 {
    u64::from_be_bytes(octets_at(s, at))
}

// A field that two layouts have: where it stands in the first and how many octets it has there, and the same of the second, which may
// leave out octets that are 0.
#[derive(Clone, Copy)]
pub struct Field(pub usize, pub usize, pub usize, pub usize);

impl Field {
    fn is_same(self, a: &[u8], b: &[u8]) -> bool {
        let Field(at, octets, at_b, octets_b) = self;
        let shorter = part(b, at_b, octets_b);
        match part(a, at, octets).strip_suffix(shorter) {
            Some(zeros) => shorter.len() == octets_b && zeros.iter().all(|&x| x == 0),
            None => false,
        }
    }
}

// Whether a and b have the same fields.
pub fn are_same(a: &[u8], b: &[u8], fields: &[Field]) -> bool {
    fields.iter().all(|field| field.is_same(a, b))
}
