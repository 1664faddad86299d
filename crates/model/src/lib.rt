// The types that every crate shares: numbers that must not be mixed up, the limits, the ends of an edge, refusals and answers.
// The definitions that give them their meaning stand in specs/.
#![tactic(auto)]

pub mod answers;
pub mod ends;
pub mod lent;
pub mod limits;
pub mod numbers;
pub mod refusal;
