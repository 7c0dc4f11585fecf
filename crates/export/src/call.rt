// What every call does around its operation: the operands are read from their bytes, and what the
// operation gives is left in `res`, in `accuracy` and in the answer.
ghost use Rattle.std.specs.Prelude.{◌≡◌, length};
ghost use Rattle.numbers.specs.Accuracy.{Marked, marked_answer};
ghost use Rattle.numbers.specs.declared.number.Number.{Number};
ghost use Rattle.export.specs.Calls.{ternary_of, call, call_of};
ghost use Rattle.export.specs.Enums.{code_of, operands_of};

use super::layout;
use super::layout::NUMBER_BYTES;
use numbers::answer::{Accuracy, Rounded};
use numbers::number::Number;
use refusals::Refusal;

// The answer where the result is written.
const WRITTEN: u32 = 0;

// Why a call has no operands, each by its answer: a buffer has not sixteen bytes, or the bytes of an operand
// are no number.
#[derive(Clone, Copy)]
pub(crate) enum NoOperands {
    WrongLength = 9,
    NoNumber = 64,
}

impl NoOperands {
    // The answer.
    fn code(self) -> u32
        ensures { result ≡ code_of self }
    {
        self as u32
    }
}

// The operands in a and b, where both and the room for the result are sixteen bytes.
fn operands_in(a: &[u8], b: &[u8], room: usize) -> Result<(Number, Number), NoOperands>
    ensures { result ≡ operands_of a.now b.now room }
{
    if a.len() != NUMBER_BYTES || b.len() != NUMBER_BYTES || room != NUMBER_BYTES {
        return Err(NoOperands::WrongLength);
    }
    let x = layout::read(a).ok_or(NoOperands::NoNumber)?;
    let y = layout::read(b).ok_or(NoOperands::NoNumber)?;
    Ok((x, y))
}

// The mark of an accuracy: −1, 0 or 1 where the result lies below, at or above the exact one.
// Kept: −1, 0 and 1 are the C interface's, and neither type is this crate's, so it can have no From.
fn ternary_of(accuracy: Accuracy) -> i8
    ensures { result ≡ ternary_of accuracy }
{
    match accuracy {
        Accuracy::Below => -1,
        Accuracy::Exact => 0,
        Accuracy::Above => 1,
    }
}

// A call by its operation: writes the number and its accuracy, or leaves both as they were.
// Kept: the answer is a number, as C takes it.
pub(crate) fn called<F: Fn(Number, Number) -> Result<Rounded, Refusal>>(
    a: &[u8],
    b: &[u8],
    res: &mut [u8],
    accuracy: &mut i8,
    operation: F,
) -> u32
    requires { F.IsAlwaysCallable operation }
    ensures { (gives : Number → Number → Marked) → ((x y : Number) (r : _) → F.post operation x y r → marked_answer r ≡ gives x y) → call result res.new accuracy.new ≡ call_of gives a.now b.now res.old accuracy.old }
{
    let (x, y) = match operands_in(a, b, res.len()) {
        Ok(pair) => pair,
        Err(why) => return why.code(),
    };
    match operation(x, y) {
        Ok(rounded) => {
            layout::write(rounded.number, res);
            *accuracy = ternary_of(rounded.accuracy);
            WRITTEN
        }
        Err(refusal) => refusal.row(),
    }
}
