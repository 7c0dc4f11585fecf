// The report of an input.
ghost use Rattle.std.specs.Prelude.{◌≡◌};
ghost use Rattle.text.specs.Text.{text_of};
ghost use Rattle.reporting.specs.Report.{report_of};

use super::lines;
use blocks::judgement::BLOCK_BYTES;
use depot::state::Depot;
use text::text::Text;

// What is printed for an input. Its pieces are offered to a fresh depot until one is refused; all pieces
// before that one were taken, so their number is its position.
pub fn report_of(input: &[u8]) -> Text
    ensures { text_of result ≡ report_of input.now }
{
    let mut depot = Depot::fresh();
    for piece in input.chunks(BLOCK_BYTES) {
        if let Err(refusal) = depot.load(piece) {
            return lines::refused_block(refusal, depot.blocks);
        }
    }
    lines::closing(depot)
}
