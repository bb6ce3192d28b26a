// The entries that C and Rust link, but for the train (crates/train_c): include/catkhize.h, docs/EXPORTS.md. Each hands its numbers and octets on
// to the call of the same name in the crate that proves it, and has that call's contract. One crate has them, since a static library holds the
// entries of its own crate alone.
#![tactic(auto)]

pub mod codec;
pub mod plan;
pub mod receiving;
pub mod sending;
