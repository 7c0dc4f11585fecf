// Cases of a number rounded by itself.
use arithmetic::operation::round;
use lines::answer::Answer;
use lines::line::Line;
use lines::number::Marked;
use lines::{number, out};
use numbers::task::task_of;

// The last mode code: a higher one names no task.
const LAST_CODE: u32 = 6;

// Prints the answer to the case whose token stood before: a mode code, a precision and the number.
pub fn answer(mut case: Line) -> Option<()> {
    let code = case.word()?;
    let precision = case.word()?;
    let x = number::read(&mut case)?;
    case.end()?;
    if code > LAST_CODE {
        return None;
    }
    out::line(Answer(round(x, task_of(code, precision)).map(Marked)));
    Some(())
}
