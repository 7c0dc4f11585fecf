// A line of the thirty-two: an exact value of one or two earlier results after its task. A line
// that takes a refused result is refused as that was. A step is a number or a refusal; where a number
// lies against its exact value is not asked of it.
ghost use Rattle.std.specs.Prelude.{◌≡◌};
ghost use Rattle.numbers.specs.Answer.{given};
ghost use Rattle.numbers.specs.Fraction.{value};
ghost use Rattle.arithmetic.specs.Operations.{exact_of};
ghost use Rattle.steps.specs.Run.{line_outcome};
ghost use Rattle.steps.specs.Steps.{line_of, line_of_both};

use super::operands::{Divisor, Line, Working};
use super::tasks::LineTask;
use arithmetic::operation::{Operation, operate, round};

// a by itself.
pub(crate) fn rounded(a: Line, task: LineTask) -> Line
    ensures { line_outcome result ≡ line_of task.task value (line_outcome a) }
{
    let x = a?;
    let r = round(x.number, task.task)?;
    Ok(Working { number: r.number })
}

// a + b, a − b or a × b.
pub(crate) fn combined(operation: Operation, a: Line, b: Line, task: LineTask) -> Line
    ensures { line_outcome result ≡ line_of_both task.task (exact_of operation) (line_outcome a) (line_outcome b) }
{
    let x = a?;
    let y = b?;
    let r = operate(operation, x.number, y.number, task.task)?;
    Ok(Working { number: r.number })
}

impl Divisor {
    // The divisor as a line takes it.
    pub(crate) fn line(self) -> Line
        ensures { line_outcome result ≡ given self.number }
    {
        Ok(Working {
            number: self.number,
        })
    }
}
