// Rows 2 to 4 of document 01's table, which every operation on two numbers asks.
ghost use Rattle.std.specs.Prelude.{◌≡◌, true, OnOk};
ghost use Rattle.numbers.specs.Answer.{Outcome, unless_refused, unless_either_unfit};
ghost use Rattle.numbers.specs.Number.{is_working};
ghost use Rattle.numbers.specs.Rounding.{is_precision};

use numbers::number::{Number, is_working};
use numbers::task::is_precision;
use refusals::Refusal;

// The lowest row from 2 to 4 that applies to two operands and a precision, or that none does.
// Kept: beside that of division, which has rows 1 and 5 besides and asks for another range.
pub(crate) fn judged(a: Number, b: Number, precision: u32) -> Result<(), Refusal>
    ensures row { (x : Outcome) → unless_refused result x ≡ unless_either_unfit is_working a b precision x }
    ensures fit { OnOk result ((is_working a ≡ true) × (is_working b ≡ true) × (is_precision precision ≡ true)) }
{
    if !is_precision(precision) {
        return Err(Refusal::BadPrecision);
    }
    if !is_working(a) {
        return Err(Refusal::FirstUnfit);
    }
    if !is_working(b) {
        return Err(Refusal::SecondUnfit);
    }
    Ok(())
}
