// The quotient, rounded once. It runs on words, apart from the thirty-two steps; the theorem joins the two.
ghost use Rattle.std.specs.Prelude.{◌≡◌, ◌≤◌, true, false, IfErr};
ghost use Rattle.refusals.specs.Row.{row_number};
ghost use Rattle.numbers.specs.Accuracy.{marked, marked_by, marked_answer};
ghost use Rattle.numbers.specs.Fraction.{value, quotient};
ghost use Rattle.numbers.specs.Number.{is_admissible};
ghost use Rattle.division.specs.Quotient.{is_zero, quotient_of};
ghost use Rattle.division.specs.Judgement.{IsTask};

use super::judgement::judged;
use super::significands::{Significand, digits_of};
use numbers::answer::{Accuracy, Rounded};
use numbers::number::Number;
use numbers::rounding::round_cell;
use numbers::task::{Task, task_of};
use numbers::words::Cell;
use refusals::Refusal;

// The bits that `digits_of` gives after the first.
const FRACTION_BITS: i32 = 81;

// p / d, rounded by the mode code and the precision and marked by where it lies against p / d, or the
// lowest refusal that applies. No row above 5 refuses a quotient.
pub fn divide(p: Number, d: Number, code: u32, precision: u32) -> Result<Rounded, Refusal>
    ensures told { marked_answer result ≡ marked (quotient (value p) (value d)) (quotient_of p d code precision) }
    ensures rows { IfErr result (λ refusal. row_number refusal ≤ 5) }
{
    judged(p, d, code, precision)?;
    divided(p, d, task_of(code, precision))
}

// The quotient with nothing to refuse: its digits and whether there is a remainder are a cell.
// Kept: demands. `divide` alone calls this, and `judged` gives all of them.
fn divided(p: Number, d: Number, task: Task) -> Result<Rounded, Refusal>
    requires { (is_admissible p ≡ true) × (is_admissible d ≡ true) × (is_zero d ≡ false) × IsTask task }
    ensures { marked_answer result ≡ marked_by task (quotient (value p) (value d)) }
{
    let Number::Finite {
        negative: p_negative,
        exponent: p_exponent,
        significand: p_significand,
    } = p
    else {
        return Ok(Rounded {
            number: Number::Zero,
            accuracy: Accuracy::Exact,
        });
    };
    let Number::Finite {
        negative: d_negative,
        exponent: d_exponent,
        significand: d_significand,
    } = d
    else {
        unreachable!();
    };
    let digits = digits_of(
        Significand {
            word: p_significand,
        },
        Significand {
            word: d_significand,
        },
    );
    round_cell(
        p_negative != d_negative,
        Cell {
            magnitude: digits.magnitude,
            rest: digits.remainder > 0,
        },
        p_exponent - d_exponent - FRACTION_BITS,
        task,
    )
}
