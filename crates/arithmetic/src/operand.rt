// A working number taken apart, for the operations.
ghost use Rattle.std.specs.Prelude.{◌≡◌, ◌+◌, ◌^◌, ◌<◌, ◌≤◌, true};
ghost use Rattle.std.specs.Float.Ieee.{minus};
ghost use Rattle.numbers.specs.Biased.{bias, highest_biased};
ghost use Rattle.numbers.specs.Fraction.{Equal, value};
ghost use Rattle.numbers.specs.Number.{is_working_exponent, is_working};

use numbers::number::Number;

// What is added to a working exponent, so that exponents are numbers from 0 to 131,071.
const BIAS: i32 = 65_535;

// sign × significand × 2^(exponent − 65,598). Zero has significand and exponent 0, and any other operand
// has its top bit set.
// Kept: fields of its own. The exponent is biased, and zero is one of the values.
#[derive(Clone, Copy)]
pub(crate) struct Operand {
    pub negative: bool,
    pub exponent: u32,
    pub significand: u64,
    ghost biased: { exponent ≤ highest_biased },
    ghost normal: { 0 < significand + exponent → 2 ^ 63 ≤ significand },
}

impl Operand {
    ghost use Rattle.arithmetic.specs.Private.{operand_value};

    // The operand of a working number.
    // Kept: no From, which can't ask for a working number.
    pub(crate) fn of(x: Number) -> Operand
        requires { is_working x ≡ true }
        ensures { Equal (value x) (operand_value result) }
    {
        match x {
            Number::Zero => Operand {
                negative: false,
                exponent: 0,
                significand: 0,
            },
            Number::Finite {
                negative,
                exponent,
                significand,
            } => Operand {
                negative,
                exponent: biased(exponent),
                significand,
            },
        }
    }
}

// A working exponent with the bias added.
// Kept: no From, which can't ask for a working exponent.
fn biased(exponent: i32) -> u32
    requires { is_working_exponent exponent ≡ true }
    ensures { (exponent ≡ minus result bias) × (result ≤ highest_biased) }
{
    (exponent + BIAS) as u32
}
