// The number that a code stands for, in either format.
ghost use Rattle.std.specs.Prelude.{◌≡◌, true};
ghost use Rattle.numbers.specs.Answer.{answer_outcome};
ghost use Rattle.codes.specs.Codes.{split, counted, decoded, normalized, is_canonical, judged_code, number_of};
ghost use Rattle.codes.specs.Layout.{is_normalizable};

use super::code::Code;
use super::layout::Layout;
use super::parts::parts;
use numbers::number::Number;
use refusals::Refusal;

// The fit number that a code stands for. A code that is no number ends the reading with its refusal.
pub(crate) fn fit_number<F: Layout>(code: F) -> Result<Number, Refusal>
    ensures { answer_outcome result ≡ number_of F.FORMAT (F.bits code) }
{
    let found = decode(code);
    // Kept: a let-else and no `?`, as document 01 asks.
    let Ok(x) = found else {
        return found;
    };
    Ok(normalize(x))
}

// The number as the code has it: below normal the top bit of its significand is clear.
fn decode<F: Layout>(code: F) -> Result<Number, Refusal>
    ensures { answer_outcome result ≡ judged_code F.FORMAT (split F.FORMAT (F.bits code)) (decoded F.FORMAT (split F.FORMAT (F.bits code))) }
{
    let format = F::FORMAT;
    let parts = parts(code);
    let field = parts.field;
    let all_ones = 2 * format.bias + 1;
    let canonical = is_canonical::<F>(parts);
    if field == all_ones {
        return Err(Refusal::AllOnes);
    }
    if !canonical {
        return Err(Refusal::Noncanonical);
    }
    Ok(Number::Finite {
        negative: parts.negative,
        exponent: counted(field) as i32 - format.bias as i32,
        significand: parts.significand << (64 - format.precision),
    })
}

// Is the top bit of the significand set at every field but 0, and is it no negative zero?
fn is_canonical<F: Layout>(code: Code) -> bool
    ensures { result ≡ is_canonical F.FORMAT code }
{
    let has_top = 1u64 << (F::FORMAT.precision - 1) <= code.significand;
    let is_normal = code.field > 0;
    let has_bits = code.significand > 0;
    if has_top != is_normal {
        return false;
    }
    if has_bits {
        return true;
    }
    !code.negative
}

// Field 0 counts as field 1.
fn counted(field: u32) -> u32
    ensures { result ≡ counted field }
{
    field.max(1)
}

// The same value with the top bit of the significand set, or zero.
fn normalize(x: Number) -> Number
    requires { is_normalizable x ≡ true }
    ensures { result ≡ normalized x }
{
    let Number::Finite {
        negative,
        exponent,
        significand,
    } = x
    else {
        return Number::Zero;
    };
    if significand == 0 {
        return Number::Zero;
    }
    let zeros = u64::leading_zeros(significand);
    Number::Finite {
        negative,
        exponent: exponent - zeros as i32,
        significand: significand << zeros,
    }
}
