// The writer of blocks for programs in other languages.
#![tactic(auto)]

ghost use Rattle.std.specs.Prelude.{◌≡◌};
ghost use Rattle.writing.specs.Written.{block_writing_of};
ghost use Rattle.export_blocks.specs.Calls.{call};

use writing::writer;

// Answers 0 and has written the blocks of the vans, five numbers each, in this edition to the front of the
// output; or answers the row that refuses, 15, 18, 19, 16 or 20, and has left the output as it was.
// Kept: numbers for the edition and the answer, as C takes them.
#[unsafe(no_mangle)]
pub extern "C" fn navehuro_write_blocks(edition: u32, fields: &[u32], output: &mut [u8]) -> u32
    ensures { call result output.new ≡ block_writing_of edition fields.now output.old }
{
    match writer::write_blocks(edition, fields, output) {
        Ok(()) => 0,
        Err(refusal) => refusal.row(),
    }
}
