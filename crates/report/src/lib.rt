// What the bench program prints, from numbers and octets (docs/EXPORTS.md), and the rule by which it says that a record was rebuilt. A
// Display says what it writes, and no contract can say what is printed; every call is total, and gives an error only where a write fails.
#![tactic(auto)]

pub mod answer;
pub mod layout;
pub mod marks;
mod names;
pub mod outcome;
pub mod reason;
pub mod refusal;
pub mod row;
pub mod say;
