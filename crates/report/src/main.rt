// The report program: it reads blocks from standard input and prints their report, `report_of` of the
// bytes that were read.
#![tactic(auto)]

mod awaited;
mod input;
mod output;

use blocks::judgement::BLOCK_BYTES;
use reporting::report::report_of;

// So many blocks decide: a depot takes 205 at most, so one of them is refused, and what follows that one
// changes nothing.
const DECIDING_BLOCKS: usize = 206;

const DECIDING: usize = DECIDING_BLOCKS * BLOCK_BYTES;

fn main(rt: HostRuntime) {
    let mut stdin = rt.stdin();
    let mut stdout = rt.stdout();
    let mut stderr = rt.stderr();
    let mut buffer = [0u8; DECIDING];
    match input::read_blocks(&mut stdin, &mut buffer) {
        // Kept: a buffer and a count of its bytes, since there is no heap.
        Ok(input) => output::print(
            &mut stdout,
            &mut stderr,
            report_of(&buffer[..input.count()]),
        ),
        Err(_) => output::complain(&mut stderr, b"report: cannot read standard input\n"),
    }
}
