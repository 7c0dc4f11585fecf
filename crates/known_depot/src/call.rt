// Reads the call of a line: `fresh`, `blocks`, `vans`, `sums` or `edition` hands in a state, `load`
// offers a block, `ask` asks for figures, and `rate` for a rate.
use super::state;
use depot::state::Depot;
use lines::line::Line;

// What a line asks for: that a state stands in the depot's place, that the block of so many bytes
// behind the line is loaded, that the figures are told, or the rate of fuel over a distance.
#[derive(Clone, Copy)]
pub enum Call {
    HandIn(Depot),
    Load(u32),
    Ask,
    Rate {
        code: u32,
        precision: u32,
        fuel: u32,
        distance: u32,
    },
}

// The call of a line, for a depot in this state.
pub fn read(mut line: Line, depot: Depot) -> Option<Call> {
    let call = read_call(&mut line, depot)?;
    line.end()?;
    Some(call)
}

// Kept: tests in a row. A table of tokens would need a match on their numbers besides.
fn read_call(line: &mut Line, depot: Depot) -> Option<Call> {
    if line.skip(b"load").is_some() {
        return Some(Call::Load(line.word()?));
    }
    if line.skip(b"ask").is_some() {
        return Some(Call::Ask);
    }
    if line.skip(b"rate").is_some() {
        return Some(Call::Rate {
            code: line.word()?,
            precision: line.word()?,
            fuel: line.word()?,
            distance: line.word()?,
        });
    }
    Some(Call::HandIn(state::read(line, depot)?))
}
