// Runs the cases that stand on standard input, one to a line of 80 bytes, and prints an answer line
// for each.
#![tactic(auto)]

mod arguments;
mod cases;
mod formats;
mod operations;
mod rounding;
mod wanted;

use lines::input::Lines;
use lines::line::Line;

fn main() {
    for text in Lines::new() {
        cases::run(Line::new(&text));
    }
}
