// Captures (docs/CAPTURE.md), a line at a time: what a line says, on lent octets. Nothing is read or written here, and every call is total.
#![tactic(auto)]

pub mod form;
pub mod line;
pub mod number;
pub mod octet;
pub mod text;
