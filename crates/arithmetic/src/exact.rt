// The exact operations on two working numbers.
ghost use Rattle.std.specs.Prelude.{◌≡◌, true};
ghost use Rattle.numbers.specs.Fraction.{Fraction, value, sum, difference, product};
ghost use Rattle.numbers.specs.Number.{is_working};
ghost use Rattle.arithmetic.specs.Private.{operand_value, IsExact};

use super::magnitude::product;
use super::operand::Operand;
use super::rounding::Exact;
use super::sum::Ordered;
use numbers::number::{Number, negated};
use numbers::words::Cell;

// An operation and its exact value. Each of `Sum`, `Difference` and `Product` is known to the compiler, so
// that what rounds its value is compiled for it alone.
pub(crate) trait Exactly: Copy {
    ghost of: { Self → Fraction → Fraction → Fraction };

    // Kept: `IsExact` in each promise, since it joins the answer with another value each time. Working is
    // asked for here and by an operand, which keeps what is used of it.
    fn exact(self, a: Number, b: Number) -> Exact
        requires { (is_working a ≡ true) × (is_working b ≡ true) }
        ensures { IsExact result (of self (value a) (value b)) };
}

#[derive(Clone, Copy)]
pub(crate) struct Sum;

impl Exactly for Sum {
    ghost of = { λ _. sum };

    fn exact(self, a: Number, b: Number) -> Exact {
        Ordered::of(Operand::of(a), Operand::of(b)).sum()
    }
}

#[derive(Clone, Copy)]
pub(crate) struct Difference;

impl Exactly for Difference {
    ghost of = { λ _. difference };

    fn exact(self, a: Number, b: Number) -> Exact {
        Ordered::of(Operand::of(a), Operand::of(negated(b))).sum()
    }
}

#[derive(Clone, Copy)]
pub(crate) struct Product;

impl Exactly for Product {
    ghost of = { λ _. product };

    fn exact(self, a: Number, b: Number) -> Exact {
        product_of(Operand::of(a), Operand::of(b))
    }
}

// a × b: the significands' product is exact in two words.
fn product_of(a: Operand, b: Operand) -> Exact
    ensures { IsExact result (product (operand_value a) (operand_value b)) }
{
    let magnitude = product(a.significand, b.significand);
    Exact {
        negative: a.negative != b.negative,
        exponent: a.exponent + b.exponent,
        cell: Cell {
            magnitude,
            rest: false,
        },
    }
}
