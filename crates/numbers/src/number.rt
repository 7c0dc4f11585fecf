// Numbers, and the two ranges that say which of them are fit.
ghost use Rattle.std.specs.Prelude.{◌≡◌};
ghost use Rattle.numbers.specs.Number.{is_between, is_fit, is_working, is_admissible, negated};

// Zero, or a sign, an exponent and a significand: sign × significand × 2^(exponent − 63).
#[derive(Clone, Copy)]
pub enum Number {
    Zero,
    Finite {
        negative: bool,
        exponent: i32,
        significand: u64,
    },
}

// The ends of the working and of the admissible exponents.
pub const LOWEST_WORKING: i32 = -65_535;

pub const HIGHEST_WORKING: i32 = 65_536;

pub const LOWEST_ADMISSIBLE: i32 = -16_446;

pub const HIGHEST_ADMISSIBLE: i32 = 16_384;

// The lowest significand: its top bit alone.
pub const TOP_BIT: u64 = 0x8000_0000_0000_0000;

// Is x fit to be an operand of add, subtract and multiply?
// Kept: beside `is_admissible`. Both are public, each with its own definition; `is_fit` is what they share.
pub fn is_working(x: Number) -> bool
    ensures { result ≡ is_working x }
{
    is_fit(x, LOWEST_WORKING, HIGHEST_WORKING)
}

// Is x fit to be an operand of a division?
pub fn is_admissible(x: Number) -> bool
    ensures { result ≡ is_admissible x }
{
    is_fit(x, LOWEST_ADMISSIBLE, HIGHEST_ADMISSIBLE)
}

// Is x zero, or has its significand the top bit set and is its exponent between the two ends?
pub fn is_fit(x: Number, lowest: i32, highest: i32) -> bool
    ensures { result ≡ is_fit (is_between lowest highest) x }
{
    let Number::Finite {
        negative: _,
        exponent,
        significand,
    } = x
    else {
        return true;
    };
    // Kept: tests in a row, as the definition has them.
    if lowest <= exponent && exponent <= highest {
        return TOP_BIT <= significand;
    }
    false
}

// −x.
pub fn negated(x: Number) -> Number
    ensures { result ≡ negated x }
{
    match x {
        Number::Zero => Number::Zero,
        Number::Finite {
            negative,
            exponent,
            significand,
        } => Number::Finite {
            negative: !negative,
            exponent,
            significand,
        },
    }
}
