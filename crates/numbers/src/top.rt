// A magnitude F of two words with its top bit at bit 127, rounded or claimed exact.
ghost use Rattle.std.specs.Prelude.{◌≡◌, ◌+◌, ◌^◌, ◌≤◌, ◌<◌, cond};
ghost use Rattle.std.specs.Float.Ieee.{minus};
ghost use Rattle.numbers.specs.Biased.{bias, highest_biased};
ghost use Rattle.numbers.specs.Answer.{checked, answer_outcome};
ghost use Rattle.numbers.specs.Number.{is_working_exponent};
ghost use Rattle.numbers.specs.Rounding.{placed};
ghost use Rattle.numbers.specs.Cell.{wide};
ghost use Rattle.numbers.specs.Magnitude.{exponent_of_top, IsDecided, judged_top};

use super::answer::Accuracy;
use super::decision::{accuracy_of, goes_up, has_fraction};
use super::number::{Number, TOP_BIT};
use super::task::{Claim, Rounding};
use super::words::{Words, shift_right};
use refusals::Refusal;

// The exponent at which a magnitude with its top bit at bit 127 has the lowest working exponent.
const LOWEST_AT_TOP: u64 = 2_147_417_986;

// What is added to a working exponent, and the highest sum.
const BIAS: i32 = 65_535;

const HIGHEST_BIASED: u64 = 131_071;

// A sign and a magnitude that was shifted up by `zeros`, so that its top bit stands at bit 127. It stands for
// F × 2^(exponent − zeros − 2^31).
#[derive(Clone, Copy)]
pub(crate) struct Top {
    pub negative: bool,
    pub exponent: u64,
    pub zeros: u32,
    pub magnitude: Words,
}

// What a mode decides of a magnitude.
#[derive(Clone, Copy)]
pub(crate) struct Decision {
    pub whole: u64,
    pub up: bool,
    pub accuracy: Accuracy,
}

impl Top {
    // What a mode decides: the whole number of the upper bits, whether it goes up, and where the result lies.
    pub(crate) fn decided(self, rounding: Rounding) -> Decision
        requires { (wide self.magnitude.high self.magnitude.low < 2 ^ 128) × (1 ≤ rounding.precision) × (rounding.precision ≤ 64) }
        ensures { IsDecided rounding.mode self.negative rounding.precision (wide self.magnitude.high self.magnitude.low) result }
    {
        let shift = 64 - rounding.precision;
        let mode = rounding.mode;
        let negative = self.negative;
        let cell = shift_right(self.magnitude, shift);
        let whole = cell.magnitude.high;
        let fraction = cell.magnitude.low;
        let up = goes_up(mode, negative, whole, fraction, cell.rest);
        let inexact = has_fraction(fraction, cell.rest);
        let accuracy = accuracy_of(negative, up, inexact);
        Decision {
            whole,
            up,
            accuracy,
        }
    }

    // The number with this whole number of its upper bits, or with the next one; a carry raises the exponent.
    pub(crate) fn placed(self, whole: u64, up: bool, precision: u32) -> Result<Number, Refusal>
        requires { (self.exponent < 2 ^ 32) × (1 ≤ precision) × (precision ≤ 64) × (whole < 2 ^ precision) }
        ensures { answer_outcome result ≡ checked (placed self.negative (exponent_of_top self) precision (whole + cond up 1 0)) }
    {
        let shift = 64 - precision;
        let significand = whole << shift;
        if !up {
            return self.checked(significand);
        }
        let unit = 1u64 << shift;
        if u64::MAX - significand < unit {
            let exponent = self.exponent + 1;
            Top { exponent, ..self }.checked(TOP_BIT)
        } else {
            self.checked(significand + unit)
        }
    }

    // Claimed to have at most so many bits: the exponent is judged first, then the bits.
    pub(crate) fn claimed(self, claim: Claim) -> Result<Number, Refusal>
        requires { (wide self.magnitude.high self.magnitude.low < 2 ^ 128) × (1 ≤ claim.precision) × (claim.precision ≤ 64) }
        ensures { answer_outcome result ≡ judged_top self.negative (exponent_of_top self) claim.precision (wide self.magnitude.high self.magnitude.low) }
    {
        let shift = 64 - claim.precision;
        let cell = shift_right(self.magnitude, shift);
        let outside = !self.is_inside();
        let fraction = cell.magnitude.low;
        let exact = !has_fraction(fraction, cell.rest);
        if outside {
            return Err(Refusal::ExponentOutside);
        }
        if exact {
            return self.checked(cell.magnitude.high << shift);
        }
        Err(Refusal::TooManyBits)
    }

    // The number with this significand, or a refusal of the exponent.
    fn checked(self, significand: u64) -> Result<Number, Refusal>
        ensures { answer_outcome result ≡ checked (Number.Finite self.negative (exponent_of_top self) significand) }
    {
        if self.is_inside() {
            Ok(Number::Finite {
                negative: self.negative,
                exponent: unbiased(self.exponent - (self.zeros as u64 + LOWEST_AT_TOP)),
                significand,
            })
        } else {
            Err(Refusal::ExponentOutside)
        }
    }

    // Is the exponent of the top bit working?
    fn is_inside(self) -> bool
        ensures { result ≡ is_working_exponent (exponent_of_top self) }
    {
        if self.exponent < self.zeros as u64 + LOWEST_AT_TOP {
            return false;
        }
        self.exponent - (self.zeros as u64 + LOWEST_AT_TOP) <= HIGHEST_BIASED
    }
}

// The working exponent that a biased one stands for.
// Kept: no `From`, which can't ask for a biased exponent.
fn unbiased(b: u64) -> i32
    requires { b ≤ highest_biased }
    ensures { result ≡ minus b bias }
{
    b as i32 - BIAS
}
