// Step 1: the seed of a divisor's reciprocal, from the table.
ghost use Rattle.std.specs.Prelude.{◌≡◌};
ghost use Rattle.numbers.specs.Answer.{given, rounded};
ghost use Rattle.numbers.specs.Rounding.{claim};
ghost use Rattle.steps.specs.Steps.{seed};

use super::operands::{Divisor, Working};
use division::seed::entry_for;
use numbers::number::Number;

// The seed of a divisor: its entry / 256 × 2^(−e), with the divisor's sign. An entry is 128 to 255, so
// that entry / 256 has the exponent −1 and its eight bits are the top ones of a significand.
pub(crate) fn seed(d: Divisor) -> Working
    ensures { given result.number ≡ rounded (claim 8) (seed d.number) }
{
    match d.number {
        Number::Zero => unreachable!(),
        Number::Finite {
            negative,
            exponent,
            significand,
        } => Working {
            number: Number::Finite {
                negative,
                exponent: -1 - exponent,
                significand: u64::from(entry_for(significand)) << 56,
            },
        },
    }
}
