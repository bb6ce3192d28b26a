// Lent octets: copied to a place, wiped, compared. Each call is total: a copy and a wipe leave out what would lie past a slice's end.
#![tactic(auto)]

ghost use Rattle.std.specs.Prelude.{◌≡◌};
ghost use Rattle.std.proofs.lemmas.List.Edits.{sets};
ghost use Rattle.octets.specs.Octets.{wiped_to, same_octets};
ghost use Rattle.octets.specs.Compare.{compared_of};

// (Two facts of one comparison, no value that may be missing: README names both.)
// What a comparison found: whether both are the same, and how many octets of each it looked at.
#[derive(Clone, Copy)]
pub struct Compared {
    pub same: bool,
    pub looked: usize,
}

// src into dst, from at on, as far as dst goes.
#[tactic(auto, using(crate::proofs::Written::sets_part))]
pub fn put(dst: &mut [u8], at: usize, src: &[u8])
    ensures { dst.new ≡ sets dst.old at src.now }
{
    let start = at.min(dst.len());
    let n = src.len().min(dst.len() - start);
    dst[start..start + n].copy_from_slice(&src[..n]);
}

// The first n octets of store become 0, as far as it goes.
#[tactic(auto, using(std::proofs::lemmas::List::drop_min), unfolding(crate::specs::Octets::wiped_to))]
pub fn wipe(store: &mut [u8], n: usize)
    ensures { store.new ≡ wiped_to n store.old }
{
    let end = n.min(store.len());
    store[..end].fill(0);
}

// Whether a and b are as long and hold the same octets. Tried: a == b, which calls core's groups_equal for each slot of a record that is read,
// 256 times: 2 µs more in every call on a receiver's record (docs/SPEED.md).
#[tactic(auto, unfolding(crate::specs::Octets::same_octets))]
pub fn same(a: &[u8], b: &[u8]) -> bool
    ensures { result ≡ same_octets a.now b.now }
{
    let n = a.len();
    if b.len() != n {
        return false;
    }
    for i in 0..n {
        if a[i] != b[i] {
            return false;
        }
    }
    true
}

// As `same`, and how many octets of each were looked at: none where the lengths differ, else those up to and with the first that
// differs, all where none does.
pub fn compare(a: &[u8], b: &[u8]) -> Compared
    ensures { result ≡ compared_of a.now b.now }
{
    if a.len() != b.len() {
        return Compared {
            same: false,
            looked: 0,
        };
    }
    match a.iter().zip(b).position(|(x, y)| x != y) {
        Some(i) => Compared {
            same: false,
            looked: i + 1,
        },
        None => Compared {
            same: true,
            looked: a.len(),
        },
    }
}
