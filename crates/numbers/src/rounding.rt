// The one place where a value is rounded: a cell of two words. Inside, the magnitude F at the exponent
// x stands for F × 2^(x − 2^31).
ghost use Rattle.std.specs.Prelude.{◌≡◌, ◌^◌, ◌≤◌, ◌<◌};
ghost use Rattle.std.specs.Float.Ieee.{minus};
ghost use Rattle.numbers.specs.Biased.{raise};
ghost use Rattle.numbers.specs.Accuracy.{marked_answer, marked_by};
ghost use Rattle.numbers.specs.Rounding.{precision_of};
ghost use Rattle.numbers.specs.Cell.{wide, end_of, cell_rounding, RoundsEvery};
ghost use Rattle.numbers.specs.Fraction.{scaled};

use super::answer::{Accuracy, Rounded};
use super::number::Number;
use super::task::{Task, is_precision, precision_of};
use super::top::Top;
use super::words::{Cell, Words, leading_zeros, shift_left};
use refusals::Refusal;

// What is added to a 32-bit exponent.
const RAISE: i64 = 2_147_483_648;

// The rounding of a cell, once by the task: F × 2^exponent with F in two words, and a sign. With a rest
// the magnitude lies above that, by less than 2^exponent. Every value there is rounded to the one answer
// where there is no rest, or F has two bits more than the task asks, and the answer lies alike against all
// of them; else the answer and its mark are those of F made odd, and may be those of no value there.
pub fn round_cell(negative: bool, cell: Cell, exponent: i32, task: Task) -> Result<Rounded, Refusal>
    ensures { (marked_answer result ≡ cell_rounding negative (wide cell.magnitude.high cell.magnitude.low) cell.rest exponent task) × RoundsEvery (marked_answer result) negative (wide cell.magnitude.high cell.magnitude.low) cell.rest exponent task }
{
    if !is_precision(precision_of(task)) {
        return Err(Refusal::BadPrecision);
    }
    let magnitude = end_of(cell);
    if magnitude.high == 0 && magnitude.low == 0 {
        return Ok(Rounded {
            number: Number::Zero,
            accuracy: Accuracy::Exact,
        });
    }
    let zeros = leading_zeros(magnitude);
    let top = Top {
        negative,
        exponent: raised(exponent),
        zeros,
        magnitude: shift_left(magnitude, zeros),
    };
    match task {
        Task::Round(rounding) => {
            let decision = top.decided(rounding);
            let number = top.placed(decision.whole, decision.up, rounding.precision)?;
            let accuracy = decision.accuracy;
            Ok(Rounded { number, accuracy })
        }
        Task::Exact(claim) => {
            let number = top.claimed(claim)?;
            let accuracy = Accuracy::Exact;
            Ok(Rounded { number, accuracy })
        }
    }
}

// An exponent as a natural number.
// Kept: a function. It adds 2^31, which no conversion of the library does.
fn raised(exponent: i32) -> u64
    ensures { (exponent ≡ minus result raise) × (result < 2 ^ 32) }
{
    (exponent as i64 + RAISE) as u64
}

// The magnitude that stands for the cell: made odd where there is a rest.
// Kept: no `From`, since the rest goes into the last bit.
fn end_of(cell: Cell) -> Words
    ensures { wide result.high result.low ≡ end_of (wide cell.magnitude.high cell.magnitude.low) cell.rest }
{
    if cell.rest {
        Words {
            low: cell.magnitude.low / 2 * 2 + 1,
            ..cell.magnitude
        }
    } else {
        cell.magnitude
    }
}
