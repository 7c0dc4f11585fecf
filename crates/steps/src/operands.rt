// What the lines take and give.
ghost use Rattle.std.specs.Prelude.{◌≡◌, true, false};
ghost use Rattle.numbers.specs.Number.{is_working, is_admissible};
ghost use Rattle.division.specs.Quotient.{is_zero};

use numbers::number::Number;
use refusals::Refusal;

// A working number.
#[derive(Clone, Copy)]
pub(crate) struct Working {
    pub number: Number,
    ghost fit: { is_working number ≡ true },
}

// What a line gives: a working number, or the refusal of the line that failed its claim.
pub(crate) type Line = Result<Working, Refusal>;

// An admissible number other than zero.
#[derive(Clone, Copy)]
pub(crate) struct Divisor {
    pub number: Number,
    ghost fit: { is_admissible number ≡ true },
    ghost nonzero: { is_zero number ≡ false },
}
