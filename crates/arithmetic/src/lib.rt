// The exact sum, difference and product of two numbers, and a number by itself, each rounded once by
// the caller's task. What is public stands in `operation`.
#![tactic(auto)]

mod exact;
mod judgement;
mod magnitude;
mod operand;
pub mod operation;
mod rounding;
mod sum;
