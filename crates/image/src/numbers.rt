// Numbers of 16, 32 and 64 bits as octets, the highest first.
ghost use Rattle.std.specs.Prelude.{◌≡◌, ℕ, ◌+◌, ◌^◌, ◌<◌, ◌≤◌, length, drop};
ghost use Rattle.std.proofs.Common.{rules};
ghost use Rattle.std.proofs.lemmas.List.Edits.{sets};
ghost use Rattle.image.specs.Numbers.{spell, value, IsNumber};

// A number of W octets.
pub trait Number<const W: usize>: Copy {
    ghost number: { Self → ℕ };

    fn octets(self) -> [u8; W]
        ensures octets { result ≡ spell W (number self) }
        ensures fits { number self < 256 ^ W };

    // The number of these octets, and that its octets are these.
    fn join(octets: &[u8; W]) -> Self
        ensures number { number result ≡ value octets.now }
        ensures octets { spell W (number result) ≡ octets.now };

    ghost narrow: { W ≤ 8 };
}

impl Number<2> for u16 {
    ghost number = { λ x. x };

    ghost narrow = { Prim.search rules };

    #[tactic(auto, using(crate::proofs::Bytes::spell_bytes))]
    fn octets(self) -> [u8; 2] {
        u16::to_be_bytes(self)
    }

    fn join(octets: &[u8; 2]) -> u16 {
        u16::from_be_bytes(*octets)
    }
}

impl Number<4> for u32 {
    ghost number = { λ x. x };

    ghost narrow = { Prim.search rules };

    #[tactic(auto, using(crate::proofs::Bytes::spell_bytes))]
    fn octets(self) -> [u8; 4] {
        u32::to_be_bytes(self)
    }

    fn join(octets: &[u8; 4]) -> u32 {
        u32::from_be_bytes(*octets)
    }
}

impl Number<8> for u64 {
    ghost number = { λ x. x };

    ghost narrow = { Prim.search rules };

    #[tactic(auto, using(crate::proofs::Bytes::spell_bytes))]
    fn octets(self) -> [u8; 8] {
        u64::to_be_bytes(self)
    }

    fn join(octets: &[u8; 8]) -> u64 {
        u64::from_be_bytes(*octets)
    }
}

// The number that stands at a place.
pub fn read<const W: usize, N: Number<W>>(l: &[u8], at: usize) -> N
    requires { at + W ≤ length l.now }
    ensures { IsNumber W (drop at l.now) (N.number result) }
{
    let mut octets = [0u8; W];
    octets.copy_from_slice(&l[at..at + W]);
    N::join(&octets)
}

// src whole, at a place where it fits. Where this is compiled in, the length is a constant; by octets::put's length, which is what fits, each of a
// record's 256 lengths and slots is a call of memcpy (docs/SPEED.md).
#[inline(always)]
pub(crate) fn place(dst: &mut [u8], at: usize, src: &[u8])
    requires { at + length src.now ≤ length dst.old }
    ensures { dst.new ≡ sets dst.old at src.now }
{
    dst[at..at + src.len()].copy_from_slice(src);
}

// A number put at a place, as far as the octets go.
pub fn put<const W: usize, N: Number<W>>(dst: &mut [u8], at: usize, x: N)
    ensures { (dst.new ≡ sets dst.old at (spell W (N.number x))) × (N.number x < 256 ^ W) }
{
    if W <= dst.len() && at <= dst.len() - W {
        place(dst, at, &x.octets());
    } else {
        octets::put(dst, at, &x.octets());
    }
}
