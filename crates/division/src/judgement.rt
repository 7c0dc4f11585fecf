// Rows 1 to 5 of document 01's table, which the quotient and the steps ask first.
ghost use Rattle.std.specs.Prelude.{◌≡◌};
ghost use Rattle.numbers.specs.Answer.{Outcome, unless_refused};
ghost use Rattle.division.specs.Quotient.{is_zero, unless_indivisible};

use numbers::number::{Number, is_admissible};
use numbers::task::is_precision;
use refusals::Refusal;

// The last mode code of a division.
const LAST_CODE: u32 = 5;

// Judges a pair, a mode code and a precision: the lowest row from 1 to 5 that applies, or that none does.
// Kept: beside that of arithmetic. Two numbers, a code and a precision, which rows 1 to 5 judge.
pub fn judged(p: Number, d: Number, code: u32, precision: u32) -> Result<(), Refusal>
    ensures { (x : Outcome) → unless_refused result x ≡ unless_indivisible p d code precision x }
{
    // What rows 2 to 5 ask.
    let imprecise = !is_precision(precision);
    let first_unfit = !is_admissible(p);
    let second_unfit = !is_admissible(d);
    let zero_divisor = is_zero(d);
    if LAST_CODE < code {
        return Err(Refusal::UnknownMode);
    }
    if imprecise {
        return Err(Refusal::BadPrecision);
    }
    if first_unfit {
        return Err(Refusal::FirstUnfit);
    }
    if second_unfit {
        return Err(Refusal::SecondUnfit);
    }
    if zero_divisor {
        return Err(Refusal::ZeroDivisor);
    }
    Ok(())
}

#[tactic(auto, unfolding(crate::specs::Quotient::is_zero))]
fn is_zero(x: Number) -> bool
    ensures { result ≡ is_zero x }
{
    matches!(x, Number::Zero)
}
