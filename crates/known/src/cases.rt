// The tokens that a line begins with, and what runs its case.
use super::{formats, operations, rounding, wanted};
use arithmetic::operation::{add, multiply, subtract};
use codes::binary64::Binary64;
use codes::double_extended::DoubleExtended;
use division::quotient::divide;
use lines::line::Line;
use lines::out;

// Prints the answer to a line.
pub fn run(line: Line) {
    if answer(line).is_none() {
        out::line("not a case");
    }
}

// Prints the answer to a case, if the line is one.
// Kept: tests in a row. A table would hold functions of several types.
fn answer(line: Line) -> Option<()> {
    if let Some(case) = line.past(b"add") {
        return operations::answer(case, add);
    }
    if let Some(case) = line.past(b"sub") {
        return operations::answer(case, subtract);
    }
    if let Some(case) = line.past(b"mul") {
        return operations::answer(case, multiply);
    }
    if let Some(case) = line.past(b"div") {
        return operations::answer(case, divide);
    }
    if let Some(case) = line.past(b"round") {
        return rounding::answer(case);
    }
    if let Some(case) = line.past(b"step") {
        return wanted::answer(case);
    }
    if let Some(case) = line.past(b"read10 ") {
        return formats::answer_read::<DoubleExtended>(case);
    }
    if let Some(case) = line.past(b"read8 ") {
        return formats::answer_read::<Binary64>(case);
    }
    if let Some(case) = line.past(b"write10 ") {
        return formats::answer_write::<DoubleExtended>(case);
    }
    formats::answer_write::<Binary64>(line.past(b"write8 ")?)
}
