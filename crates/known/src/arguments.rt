// The arguments that operations and divisions share: a mode code, a precision and two operands.
use lines::line::Line;
use lines::number;
use numbers::number::Number;

// The arguments of a line.
#[derive(Clone, Copy)]
pub struct Arguments {
    pub code: u32,
    pub precision: u32,
    pub first: Number,
    pub second: Number,
}

// The arguments with which the line ends.
pub fn read(mut line: Line) -> Option<Arguments> {
    let arguments = Arguments {
        code: line.word()?,
        precision: line.word()?,
        first: number::read(&mut line)?,
        second: number::read(&mut line)?,
    };
    line.end()?;
    Some(arguments)
}
