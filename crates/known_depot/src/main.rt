// Makes the calls of a depot that stand on standard input, one to a line of 80 bytes, and prints for
// each its answer and the whole state that it leaves.
#![tactic(auto)]

mod call;
mod run;
mod state;

use depot::state::Depot;
use lines::input::Lines;
use lines::line::Line;
use lines::out;

// Reads the call of a line, makes it and prints its answer, if the line is a call.
fn answer(line: Line, depot: &mut Depot) -> Option<()> {
    let call = call::read(line, *depot)?;
    run::answer(call, depot)
}

fn main() {
    let mut depot = Depot::fresh();
    for text in Lines::new() {
        if answer(Line::new(&text), &mut depot).is_none() {
            out::line("not a call");
        }
        out::line(state::Shown(depot));
    }
}
