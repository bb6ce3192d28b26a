// The layout SENDER: a sender's record in 6,131 octets, put and got with the strict test. Internal to the exports, as the crate image is.
#![tactic(auto)]

ghost use Rattle.std.specs.Prelude.{◌≡◌, ◌≤◌, length};
ghost use Rattle.std.specs.Bool.{then_some};
ghost use Rattle.std.proofs.lemmas.List.Edits.{sets};
ghost use Rattle.sender_image.specs.Images.{image_of, record_of, image_ok, SenderFits};

use crate::heads::{get_head, put_head, read_head};
use plan_image::{get_body, put_body, read_body};
use sender::{Progress, Sender, Terms};

pub mod heads;
pub mod parts;
pub mod states;

pub const SENDER_OCTETS: usize = 6131;

pub const STATE_OCTETS: usize = 4;

// The number that a sender's octets begin with.
const LAYOUT_VERSION: u8 = 2;

// Where the plan begins.
const PLAN: usize = 174;

// All of a sender but the plan.
#[derive(Clone, Copy)]
pub struct Head {
    pub terms: Terms,
    pub progress: Progress,
}

// A sender at the front of octets, which then spell it.
pub fn put_sender(dst: &mut [u8], s: Sender)
    requires { 6131 ≤ length dst.old }
    ensures { (dst.new ≡ sets dst.old 0 (image_of s)) × SenderFits s }
{
    put_head(
        dst,
        Head {
            terms: s.terms,
            progress: s.progress,
        },
    );
    put_body(dst, PLAN, s.plan);
}

// The sender that octets spell.
pub fn read_sender(l: &[u8]) -> Sender
    requires { 6131 ≤ length l.now }
    ensures { result ≡ record_of l.now }
{
    let head = read_head(l);
    Sender {
        terms: head.terms,
        progress: head.progress,
        plan: read_body(&l[PLAN..]),
    }
}

// The same, where they are the octets of that.
pub fn get_sender(l: &[u8]) -> Option<Sender>
    requires { 6131 ≤ length l.now }
    ensures { result ≡ then_some (image_ok l.now) (record_of l.now) }
{
    let head = get_head(l)?;
    let plan = get_body(&l[PLAN..])?;
    Some(Sender {
        terms: head.terms,
        progress: head.progress,
        plan,
    })
}
