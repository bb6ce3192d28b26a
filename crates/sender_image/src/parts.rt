// The octets of the present submission, and what they are read as.
ghost use Rattle.std.specs.Prelude.{◌≡◌, ◌+◌, ◌≤◌, length};
ghost use Rattle.std.proofs.lemmas.List.Edits.{sets};
ghost use Rattle.sender_image.specs.Parts.{current_image, current_of, CurrentFits};

use image::numbers;
use sender::Submission;

// What stands in the place of one that is absent.
const NO_SUBMISSION: Submission = Submission {
    ticket: 0,
    index: 0,
    prepared_monotonic_ms: 0,
};

pub fn put_current(dst: &mut [u8], at: usize, c: Option<Submission>)
    requires { at + 18 ≤ length dst.old }
    ensures { (dst.new ≡ sets dst.old at (current_image c)) × CurrentFits c }
{
    let x = c.unwrap_or(NO_SUBMISSION);
    octets::put(dst, at, &[u8::from(c.is_some())]);
    numbers::put(dst, at + 1, x.ticket);
    octets::put(dst, at + 9, &[x.index]);
    numbers::put(dst, at + 10, x.prepared_monotonic_ms);
}

pub fn read_current(l: &[u8]) -> Option<Submission>
    requires { 18 ≤ length l.now }
    ensures { result ≡ current_of l.now }
{
    (l[0] != 0).then_some(Submission {
        ticket: numbers::read(l, 1),
        index: l[9],
        prepared_monotonic_ms: numbers::read(l, 10),
    })
}
