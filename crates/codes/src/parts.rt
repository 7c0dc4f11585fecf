// Codes taken apart and put together, in either format.
ghost use Rattle.std.specs.Prelude.{◌≡◌};
ghost use Rattle.codes.specs.Codes.{leading_one, split, join};
ghost use Rattle.codes.specs.Layout.{IsCode};

use super::code::Code;
use super::layout::Layout;

// The parts of a code.
pub(crate) fn parts<F: Layout>(code: F) -> Code
    ensures { result ≡ split F.FORMAT (F.bits code) }
{
    let upper = code.upper();
    let field = upper % F::FIELDS;
    Code {
        negative: upper / F::FIELDS > 0,
        field,
        significand: code.stored() + leading_one::<F>(field),
    }
}

// The code with these parts.
pub(crate) fn from_parts<F: Layout>(code: Code) -> F
    requires { IsCode F.FORMAT code }
    ensures { F.bits result ≡ join F.FORMAT code }
{
    F::from_upper(
        u32::from(code.negative) * F::FIELDS + code.field,
        code.significand,
    )
}

// The leading one of a normal number, where a code does not store it.
fn leading_one<F: Layout>(field: u32) -> u64
    ensures { result ≡ leading_one F.FORMAT field }
{
    let format = F::FORMAT;
    if format.stored < format.precision && field > 0 {
        1 << format.stored
    } else {
        0
    }
}
