// Steps 7 and 8: the halves of the divisor.
ghost use Rattle.std.specs.Prelude.{◌≡◌};
ghost use Rattle.numbers.specs.declared.number.Number.{Number};
ghost use Rattle.numbers.specs.declared.task.Task.{Task};
ghost use Rattle.steps.specs.Run.{line_outcome};
ghost use Rattle.steps.specs.Steps.{after_step};

use super::line::{combined, rounded};
use super::operands::{Divisor, Line};
use super::tasks::{EXACT_32, TRUNC_32};
use arithmetic::operation::Operation;

// Step 7.
pub(crate) fn high_half(d: Divisor) -> Line
    ensures { (p : Number) (task : Task) → line_outcome result ≡ after_step p d.number task 7 }
{
    rounded(d.line(), TRUNC_32)
}

// Step 8, from step 7.
pub(crate) fn low_half(d: Divisor, high: Line) -> Line
    requires { (p : Number) (task : Task) → line_outcome high ≡ after_step p d.number task 7 }
    ensures { (p : Number) (task : Task) → line_outcome result ≡ after_step p d.number task 8 }
{
    let divisor = d.line();
    combined(Operation::Difference, divisor, high, EXACT_32)
}
