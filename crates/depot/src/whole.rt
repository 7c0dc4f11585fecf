// Whole numbers as numbers.
ghost use Rattle.std.specs.Prelude.{◌≡◌, true};
ghost use Rattle.numbers.specs.Number.{is_admissible};
ghost use Rattle.numbers.specs.Fraction.{Equal, value};
ghost use Rattle.depot.specs.Figures.{whole};

use numbers::number::Number;

// The exponent of a word whose top bit is set.
const TOP: u32 = 63;

// The whole number n: zero, or n moved left by its leading zeros.
// Kept: a function. `From` would stand in crate numbers, which has no whole numbers, and couldn't promise by
// `whole`.
pub(crate) fn number_of(n: u32) -> Number
    ensures { (is_admissible result ≡ true) × Equal (value result) (whole n) }
{
    if n == 0 {
        return Number::Zero;
    }
    let word = u64::from(n);
    let zeros = u64::leading_zeros(word);
    Number::Finite {
        negative: false,
        exponent: (TOP - zeros) as i32,
        significand: word << zeros,
    }
}
