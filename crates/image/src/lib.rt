// Records spelled in lent octets: numbers, the numbers of cases, and the layouts of a segment. Internal to the exports: a call that reads
// asks that the octets are there.
#![tactic(auto)]

pub mod cases;
pub mod numbers;
pub mod segments;
