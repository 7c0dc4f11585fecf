// Steps 1 to 6: a reciprocal, a seed refined twice by s × c(t).
ghost use Rattle.std.specs.Prelude.{◌≡◌, ◌≤◌};
ghost use Rattle.numbers.specs.Rounding.{by_mode};
ghost use Rattle.numbers.specs.declared.number.Number.{Number};
ghost use Rattle.numbers.specs.declared.task.Mode.TheVariants.{Trunc};
ghost use Rattle.numbers.specs.declared.task.Task.{Task};
ghost use Rattle.steps.specs.Run.{line_outcome, HasComplement};
ghost use Rattle.steps.specs.Steps.{refined, line_of_both, after_step};

use super::line::{combined, rounded};
use super::operands::{Divisor, Line, Working};
use super::seed::seed;
use super::tasks::{AWAY_32, EXACT_64, TRUNC_32};
use arithmetic::operation::Operation;
use numbers::number::Number;

// 2 − 2^−31.
const TWO_LESS: Working = Working {
    number: Number::Finite {
        negative: false,
        exponent: 0,
        significand: 0xFFFF_FFFF_0000_0000,
    },
};

// The value after one of the steps 1 to 6.
pub(crate) fn reciprocal(d: Divisor, wanted: u32) -> Line
    requires { (1 ≤ wanted) × (wanted ≤ 6) }
    ensures { (p : Number) (task : Task) → line_outcome result ≡ after_step p d.number task wanted }
{
    let sd0 = Ok(seed(d));
    return_at!(wanted == 1, sd0);
    let dr = rounded(d.line(), AWAY_32);
    return_at!(wanted == 2, dr);
    let sdd0 = combined(Operation::Product, sd0, dr, AWAY_32);
    return_at!(wanted == 3, sdd0);
    let sd1 = refined(sd0, sdd0);
    return_at!(wanted == 4, sd1);
    let sdd1 = combined(Operation::Product, sd1, dr, AWAY_32);
    return_at!(wanted == 5, sdd1);
    refined(sd1, sdd1)
}

// s × c(t), trunc 32. c(t) = 2 − 2^−31 − t is exact.
fn refined(s: Line, t: Line) -> Line
    requires { HasComplement (line_outcome t) }
    ensures { line_outcome result ≡ line_of_both (by_mode Trunc 32) refined (line_outcome s) (line_outcome t) }
{
    let c = combined(Operation::Difference, Ok(TWO_LESS), t, EXACT_64);
    combined(Operation::Product, s, c, TRUNC_32)
}
