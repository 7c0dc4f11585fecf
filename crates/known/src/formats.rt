// Cases of codes: one to read, or a buffer and the number to write into it.
use codes::coded::Coded;
use lines::answer::Answer;
use lines::line::Line;
use lines::{buffer, number, out};

// Prints the number in the case's buffer, a code of the format `C`.
pub fn answer_read<C: Coded>(mut case: Line) -> Option<()> {
    let code = buffer::read(&mut case)?;
    case.end()?;
    out::line(Answer(C::read(&code).map(number::Shown)));
    Some(())
}

// Writes the case's number into its buffer, and prints the answer and what the buffer holds afterwards.
pub fn answer_write<C: Coded>(mut case: Line) -> Option<()> {
    let mut buffer = buffer::read(&mut case)?;
    let x = number::read(&mut case)?;
    case.end()?;
    let answer = C::write(x, &mut buffer).map(|()| "written");
    out::line(format_args!("{} {}", Answer(answer), buffer::Shown(&buffer)));
    Some(())
}
