// A depot: its state, loading a block, the figures, and a rate. What is public stands in `state`, `load`,
// `figures` and `rate`.
#![tactic(auto)]

pub mod figures;
pub mod load;
pub mod rate;
mod side;
pub mod state;
mod whole;
