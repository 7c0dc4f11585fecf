// Division: `quotient` has the quotient, rounded once. What is asked before, and the seed table, are
// shared with the thirty-two steps (crate `steps`).
#![tactic(auto)]

pub mod judgement;
pub mod quotient;
pub mod seed;
mod significands;
