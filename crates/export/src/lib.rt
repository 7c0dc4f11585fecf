// Add, subtract, multiply and divide for programs in other languages. A number is lent as sixteen
// bytes (layout.rt). Each function answers 0 and has written the result, and −1, 0 or 1 to `accuracy`
// where that lies below, at or above the exact one; or it answers a refusal and has left both as they
// were: 1 to 8 for the row of document 01's table, 9 where a buffer has not sixteen bytes, 64 where the
// bytes of an operand are no number.
#![tactic(auto)]

ghost use Rattle.std.specs.Prelude.{◌≡◌};
ghost use Rattle.numbers.specs.Accuracy.{marked};
ghost use Rattle.numbers.specs.Fraction.{value, sum, difference, product, quotient};
ghost use Rattle.arithmetic.specs.Operations.{sum_of, difference_of, product_of};
ghost use Rattle.division.specs.Quotient.{quotient_of};
ghost use Rattle.export.specs.Calls.{call, call_of};

use arithmetic::operation;
use division::quotient;

mod call;
mod layout;

use call::called;

// a + b.
// Kept: numbers and six parameters, here and below, as C hands them in.
#[unsafe(no_mangle)]
pub extern "C" fn navehuro_add(
    a: &[u8],
    b: &[u8],
    mode: u32,
    precision: u32,
    res: &mut [u8],
    accuracy: &mut i8,
) -> u32
    ensures { call result res.new accuracy.new ≡ call_of (λ x y. marked (sum (value x) (value y)) (sum_of x y mode precision)) a.now b.now res.old accuracy.old }
{
    called(
        a,
        b,
        res,
        accuracy,
        |x, y| operation::add(x, y, mode, precision),
    )
}

// a − b.
#[unsafe(no_mangle)]
pub extern "C" fn navehuro_subtract(
    a: &[u8],
    b: &[u8],
    mode: u32,
    precision: u32,
    res: &mut [u8],
    accuracy: &mut i8,
) -> u32
    ensures { call result res.new accuracy.new ≡ call_of (λ x y. marked (difference (value x) (value y)) (difference_of x y mode precision)) a.now b.now res.old accuracy.old }
{
    called(
        a,
        b,
        res,
        accuracy,
        |x, y| operation::subtract(x, y, mode, precision),
    )
}

// a × b.
#[unsafe(no_mangle)]
pub extern "C" fn navehuro_multiply(
    a: &[u8],
    b: &[u8],
    mode: u32,
    precision: u32,
    res: &mut [u8],
    accuracy: &mut i8,
) -> u32
    ensures { call result res.new accuracy.new ≡ call_of (λ x y. marked (product (value x) (value y)) (product_of x y mode precision)) a.now b.now res.old accuracy.old }
{
    called(
        a,
        b,
        res,
        accuracy,
        |x, y| operation::multiply(x, y, mode, precision),
    )
}

// a / b.
#[unsafe(no_mangle)]
pub extern "C" fn navehuro_divide(
    a: &[u8],
    b: &[u8],
    mode: u32,
    precision: u32,
    res: &mut [u8],
    accuracy: &mut i8,
) -> u32
    ensures { call result res.new accuracy.new ≡ call_of (λ x y. marked (quotient (value x) (value y)) (quotient_of x y mode precision)) a.now b.now res.old accuracy.old }
{
    called(
        a,
        b,
        res,
        accuracy,
        |x, y| quotient::divide(x, y, mode, precision),
    )
}
