// Makes the calls of the writer of blocks that stand on standard input, one to a line of 80 bytes, and
// prints what each answers and leaves.
#![tactic(auto)]

mod call;
mod hash;
mod list;
mod output;
mod run;

use lines::input::Lines;
use lines::line::Line;
use lines::out;
use run::State;

// Reads the call of a line, makes it and prints its answer, if the line is a call.
fn answer(line: Line, state: &mut State) -> Option<()> {
    run::answer(call::read(line)?, state)
}

fn main() {
    let mut state = State::new();
    for text in Lines::new() {
        if answer(Line::new(&text), &mut state).is_none() {
            out::line("not a call");
        }
    }
}
