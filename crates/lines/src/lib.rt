// The lines of vectors: what stands in one, read and printed. Proved to be safe and to end; what is
// printed is compared, not proved.
#![tactic(auto)]

pub mod answer;
pub mod buffer;
pub mod input;
pub mod line;
pub mod number;
pub mod out;
