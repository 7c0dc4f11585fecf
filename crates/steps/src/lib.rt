// The thirty-two steps of source document 001: `wanted` has the value after any step.
#![tactic(auto)]

// Ends a run of the lines at the wanted one, with its value.
macro_rules! return_at {
    ($is_wanted:expr, $line:expr) => {
        if $is_wanted {
            return $line;
        }
    };
}

mod halves;
mod line;
mod operands;
mod reciprocal;
mod seed;
mod tasks;
pub mod wanted;
