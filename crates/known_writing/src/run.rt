// Makes a call and prints what it answers and leaves.
use super::call::Call;
use super::list::List;
use super::output::Output;
use super::{list, output};
use arrayvec::ArrayVec;
use blocks::judgement::BLOCK_BYTES;
use depot::figures::Bracket;
use depot::state::Depot;
use lines::answer::Answer;
use lines::number::Bounds;
use lines::out;
use refusals::Refusal;
use writing::writer::write_blocks;

// The list, the output, and the edition that is asked for.
#[derive(Drop)]
pub struct State {
    list: List,
    output: Output,
    edition: u32,
}

impl State {
    // No list, no output, and edition 0.
    pub fn new() -> State {
        State {
            list: ArrayVec::new(),
            output: ArrayVec::new(),
            edition: 0,
        }
    }
}

// Makes the call and prints the answer. A list or an output that has no room is no call.
// Kept: a match, one arm to a call. A closure for each would take what the arm takes.
pub fn answer(call: Call, state: &mut State) -> Option<()> {
    match call {
        // The output of the list before is gone, and edition 0 is asked for.
        Call::List(count) => {
            list::read(&mut state.list, count as usize)?;
            state.output.clear();
            state.edition = 0;
            out::line(format_args!("list {count}"));
        }
        Call::Edition(edition) => {
            state.edition = edition;
            out::line(format_args!("edition {edition}"));
        }
        Call::Write { numbers, bytes } => {
            let fields = state.list.get(..numbers as usize)?;
            output::fill(&mut state.output, bytes as usize)?;
            let answer = write_blocks(state.edition, fields, &mut state.output);
            out::line(Answer(answer.map(|()| "written")));
            output::print(&state.output);
        }
        Call::Load => {
            let mut depot = Depot::fresh();
            match load(&state.output, &mut depot) {
                Ok(()) => out::line(format_args!("taken {}", depot.blocks)),
                Err(refusal) => {
                    out::line(format_args!("taken {} refused {}", depot.blocks, refusal.row()));
                }
            }
            out::line(format_args!("vans {} {} {}", depot.moved, depot.parked, depot.over));
            out::line(Answer(
                depot
                    .figures()
                    .map(|Bracket { low, high }| Bounds { low, high }),
            ));
        }
    }
    Some(())
}

// Offers the whole pieces of the output to the depot, one after the other, up to the first that it
// refuses.
fn load(output: &[u8], depot: &mut Depot) -> Result<(), Refusal> {
    for piece in output.chunks_exact(BLOCK_BYTES) {
        depot.load(piece)?;
    }
    Ok(())
}
