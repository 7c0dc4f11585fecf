// Numbers of 64 significant bits, which of them are fit, the tasks that round them, what an operation
// on them answers, and the rounding of a value that is known to two words.
#![tactic(auto)]

pub mod answer;
mod decision;
pub mod number;
pub mod rounding;
pub mod task;
mod top;
pub mod words;
