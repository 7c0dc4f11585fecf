// The exact sum of two operands, up to a cell. The larger one stands with its top bit at bit 126 of a two-word
// magnitude, the smaller one is shifted right to it, and what is shifted out leaves a rest.
ghost use Rattle.std.specs.Prelude.{◌≡◌, ◌-◌, ◌*◌, ◌^◌, ◌≤◌, not};
ghost use Rattle.numbers.specs.Fraction.{sum};
ghost use Rattle.numbers.specs.Grid.{bit_of};
ghost use Rattle.numbers.specs.Cell.{wide};
ghost use Rattle.arithmetic.specs.Private.{operand_value, IsExact};

use super::magnitude::{difference, sum};
use super::operand::Operand;
use super::rounding::Exact;
use numbers::number::TOP_BIT;
use numbers::words::{Cell, Words, shift_right};

// What is added to an operand's exponent where its significand × 2^63 is a two-word magnitude.
const RAISED_STEP: u32 = 65_535;

// significand × 2^63.
fn raised(significand: u64) -> Words
    ensures { wide result.high result.low ≡ significand * 2 ^ 63 }
{
    Words {
        high: significand / 2,
        low: significand % 2 * TOP_BIT,
    }
}

// One where there is a rest.
// Kept: a function. `From` would stand in crate numbers, which makes no words of a truth value.
fn borrow(rest: bool) -> Words
    ensures { wide result.high result.low ≡ bit_of rest }
{
    Words {
        high: 0,
        low: u64::from(rest),
    }
}

// Two operands, the larger one first.
#[derive(Clone, Copy)]
pub(crate) struct Ordered {
    large: Operand,
    small: Operand,
    ghost lower: { small.exponent ≤ large.exponent },
    ghost larger: { small.significand ≤ large.significand * 2 ^ (large.exponent - small.exponent) },
}

impl Ordered {
    // a and b in that order.
    pub(crate) fn of(a: Operand, b: Operand) -> Ordered
        ensures { sum (operand_value result.large) (operand_value result.small) ≡ sum (operand_value a) (operand_value b) }
    {
        if (a.exponent, a.significand) < (b.exponent, b.significand) {
            Ordered { large: b, small: a }
        } else {
            Ordered { large: a, small: b }
        }
    }

    // The sum of two operands of one sign.
    fn added(self) -> Exact
        requires { self.small.negative ≡ self.large.negative }
        ensures { IsExact result (sum (operand_value self.large) (operand_value self.small)) }
    {
        let large = self.large;
        let small = self.small;
        let top = raised(large.significand);
        let cell = shift_right(raised(small.significand), large.exponent - small.exponent);
        let magnitude = sum(top, cell.magnitude);
        Exact {
            negative: large.negative,
            exponent: large.exponent + RAISED_STEP,
            cell: Cell { magnitude, ..cell },
        }
    }

    // The sum of two operands of two signs. Where there is a rest, the exact difference lies in the cell
    // below, so one more is taken off.
    // Kept: beside `added`, which takes nothing off for a rest.
    fn subtracted(self) -> Exact
        requires { self.small.negative ≡ not self.large.negative }
        ensures { IsExact result (sum (operand_value self.large) (operand_value self.small)) }
    {
        let large = self.large;
        let small = self.small;
        let top = raised(large.significand);
        let taken = shift_right(raised(small.significand), large.exponent - small.exponent);
        let less = difference(top, taken.magnitude);
        let magnitude = difference(less, borrow(taken.rest));
        Exact {
            negative: large.negative,
            exponent: large.exponent + RAISED_STEP,
            cell: Cell { magnitude, ..taken },
        }
    }

    // The sum of the two.
    pub(crate) fn sum(self) -> Exact
        ensures { IsExact result (sum (operand_value self.large) (operand_value self.small)) }
    {
        if self.large.negative == self.small.negative {
            self.added()
        } else {
            self.subtracted()
        }
    }
}
