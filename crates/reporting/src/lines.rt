// The lines that the program prints, as a finished text.
ghost use Rattle.std.specs.Prelude.{◌++◌, ◌≡◌};
ghost use Rattle.refusals.specs.Row.{row_number};
ghost use Rattle.text.specs.Text.{text_of, cut, decimal_of, figure_text};
ghost use Rattle.reporting.specs.Report.{line_of, report_text, refused_block_text, refused_close_text, closing_text};

use depot::figures::Bracket;
use depot::state::Depot;
use numbers::number::Number;
use refusals::Refusal;
use text::text::Text;

// What is printed at the end of the input: the report, or the row that refuses figures.
// Kept: no Display, here and below, since each line is promised byte by byte.
pub fn closing(depot: Depot) -> Text
    ensures { text_of result ≡ closing_text depot }
{
    match depot.figures() {
        Ok(bracket) => report(depot, bracket),
        Err(refusal) => refused_close(refusal),
    }
}

// `refused K block B`, and nothing else.
pub fn refused_block(refusal: Refusal, position: u32) -> Text
    ensures { text_of result ≡ refused_block_text (row_number refusal) position }
{
    Text::empty()
        .with_bytes(b"refused ")
        .with_decimal(u64::from(refusal.row()))
        .with_bytes(b" block ")
        .with_decimal(u64::from(position))
        .with_bytes(b"\n")
}

// `refused K close`, and nothing else.
fn refused_close(refusal: Refusal) -> Text
    ensures { text_of result ≡ refused_close_text (row_number refusal) }
{
    Text::empty()
        .with_bytes(b"refused ")
        .with_decimal(u64::from(refusal.row()))
        .with_bytes(b" close\n")
}

// The five lines of a depot with its low and its high figure.
fn report(depot: Depot, bracket: Bracket) -> Text
    ensures { text_of result ≡ report_text depot.moved depot.parked depot.over bracket.low bracket.high }
{
    let moved = with_count(Text::empty(), b"moved ", depot.moved);
    let parked = with_count(moved, b"parked ", depot.parked);
    let over = with_count(parked, b"over ", depot.over);
    let with_low = with_figure(over, b"low ", bracket.low);
    with_figure(with_low, b"high ", bracket.high)
}

// The text with a line more: a name and a count.
// Kept: beside `with_figure`. One function would take a closure, and demand of it what it writes.
fn with_count(text: Text, name: &[u8], count: u32) -> Text
    ensures { text_of result ≡ cut (text_of text ++ line_of name.now (decimal_of count)) }
{
    text.with_bytes(name)
        .with_decimal(u64::from(count))
        .with_bytes(b"\n")
}

// The text with a line more: a name and a figure.
fn with_figure(text: Text, name: &[u8], figure: Number) -> Text
    ensures { text_of result ≡ cut (text_of text ++ line_of name.now (figure_text figure)) }
{
    text.with_bytes(name).with_figure(figure).with_bytes(b"\n")
}
