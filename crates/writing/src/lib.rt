// The writer of blocks: from a list of numbers, five to a van, the one sequence of blocks in an edition
// that a depot takes for those vans. What is public stands in `writer`.
#![tactic(auto)]

mod block;
mod bytes;
mod vans;
pub mod writer;
