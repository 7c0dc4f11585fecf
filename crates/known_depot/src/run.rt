// Makes a call and prints its answer.
use super::call::Call;
use depot::figures::Bracket;
use depot::rate::rate_of;
use depot::state::Depot;
use lines::answer::Answer;
use lines::number::{Bounds, Marked};
use lines::{input, out};

// The most bytes that a line may offer: more than a block has.
const MOST: usize = 1_024;

// Makes the call on the depot and prints the answer: `fit` or `unfit` for a state handed in, `taken` for
// a block, two figures, a rate with its accuracy, or `refused` with the row that refused. A line that
// offers too many bytes is no call.
// Kept: a match, one arm to a call. A closure for each would take what the arm takes.
pub fn answer(call: Call, depot: &mut Depot) -> Option<()> {
    match call {
        Call::HandIn(next) => {
            *depot = next;
            out::line(if next.is_fit() { "fit" } else { "unfit" });
        }
        Call::Load(length) => return load(length, depot),
        Call::Ask => out::line(Answer(
            depot
                .figures()
                .map(|Bracket { low, high }| Bounds { low, high }),
        )),
        Call::Rate {
            code,
            precision,
            fuel,
            distance,
        } => out::line(Answer(rate_of(fuel, distance, code, precision).map(Marked))),
    }
    Some(())
}

// Loads the next bytes of the input: as many as are said, or as are left.
fn load(length: u32, depot: &mut Depot) -> Option<()> {
    let mut space = [0; MOST];
    let bytes = space.get_mut(..length as usize)?;
    let got = input::fill(bytes);
    out::line(Answer(depot.load(&bytes[..got]).map(|()| "taken")));
    Some(())
}
