// What is written for a number, in either format: the code that equals it, or a refusal.
ghost use Rattle.std.specs.Prelude.{◌≡◌, true};
ghost use Rattle.numbers.specs.Number.{is_working_exponent, is_working};
ghost use Rattle.codes.specs.Codes.{field_of, below_normal, equal_code};
ghost use Rattle.codes.specs.Layout.{IsPacking, packing_of};

use super::code::Code;
use super::layout::Layout;
use numbers::number::{Number, is_working};
use numbers::words::cut;
use refusals::Refusal;

// What is written for x into so many bytes: the refusals in the order of document 01's table, and then
// the code.
pub(crate) fn pack<F: Layout>(x: Number, length: usize) -> Result<Code, Refusal>
    ensures { IsPacking F.FORMAT x length result }
{
    let fit = is_working(x);
    let room = F::FORMAT.length;
    if !fit {
        return Err(Refusal::FirstUnfit);
    }
    if length != room {
        return Err(Refusal::WrongLength);
    }
    equal_code::<F>(x)
}

// The code that equals a working number, if there is one: the exponent is not above the highest, and
// no bit of the significand falls off.
// Kept: a demand. `pack` alone calls this, and has asked it.
fn equal_code<F: Layout>(x: Number) -> Result<Code, Refusal>
    requires { is_working x ≡ true }
    ensures { result ≡ packing_of (equal_code F.FORMAT x) }
{
    let format = F::FORMAT;
    let Number::Finite {
        negative,
        exponent,
        significand,
    } = x
    else {
        return Ok(Code {
            negative: false,
            field: 0,
            significand: 0,
        });
    };
    let above = format.highest < exponent;
    if above {
        return Err(Refusal::NoEqualCode);
    }
    let place = place_of::<F>(exponent);
    let part = cut(significand, place.below + (64 - format.precision));
    let kept = part.value;
    let exact = !part.rest;
    if exact {
        return Ok(Code {
            negative,
            field: place.field,
            significand: kept,
        });
    }
    Err(Refusal::NoEqualCode)
}

// The field of an exponent, and how far the exponent lies below the lowest one.
#[derive(Clone, Copy)]
struct Place {
    field: u32,
    below: u32,
}

fn place_of<F: Layout>(exponent: i32) -> Place
    requires { is_working_exponent exponent ≡ true }
    ensures { (result.field ≡ field_of F.FORMAT exponent) × (result.below ≡ below_normal F.FORMAT exponent) }
{
    let format = F::FORMAT;
    if format.lowest <= exponent {
        Place {
            field: (exponent + format.bias as i32) as u32,
            below: 0,
        }
    } else {
        Place {
            field: 0,
            below: (format.lowest - exponent) as u32,
        }
    }
}
