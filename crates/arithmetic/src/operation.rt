// Add, subtract, multiply and round by itself: any numbers and any task, or any mode code and
// precision, and always an answer, its number marked by where it lies against the exact result. The
// operands are working numbers, the codes 0 to 6; anything else is refused.
ghost use Rattle.std.specs.Prelude.{◌≡◌, true};
ghost use Rattle.numbers.specs.Accuracy.{marked, marked_answer};
ghost use Rattle.numbers.specs.Fraction.{value, sum, difference, product};
ghost use Rattle.arithmetic.specs.Private.{operand_value, IsExact};
ghost use Rattle.arithmetic.specs.Operations.{exact_of, operation_of, coded_of, rounding_of, sum_of, difference_of, product_of};

use super::exact::{Difference, Exactly, Product, Sum};
use super::judgement::judged;
use super::operand::Operand;
use super::rounding::Exact;
use numbers::answer::Rounded;
use numbers::number::{Number, is_working};
use numbers::task::{Task, is_precision, precision_of, task_of};
use numbers::words::{Cell, Words};
use refusals::Refusal;

// The last mode code.
const LAST_CODE: u32 = 6;

// What is added to an operand's exponent where its significand is a two-word magnitude.
const UNRAISED_STEP: u32 = 65_598;

// a + b.
// Kept: two numbers, a code and a precision, here and below. Any may be handed in, and rows 1 to 4 refuse.
pub fn add(a: Number, b: Number, code: u32, precision: u32) -> Result<Rounded, Refusal>
    ensures { marked_answer result ≡ marked (sum (value a) (value b)) (sum_of a b code precision) }
{
    by_code(Sum, a, b, code, precision)
}

// a − b.
pub fn subtract(a: Number, b: Number, code: u32, precision: u32) -> Result<Rounded, Refusal>
    ensures { marked_answer result ≡ marked (difference (value a) (value b)) (difference_of a b code precision) }
{
    by_code(Difference, a, b, code, precision)
}

// a × b.
pub fn multiply(a: Number, b: Number, code: u32, precision: u32) -> Result<Rounded, Refusal>
    ensures { marked_answer result ≡ marked (product (value a) (value b)) (product_of a b code precision) }
{
    by_code(Product, a, b, code, precision)
}

// An operation on two numbers.
#[derive(Clone, Copy)]
pub enum Operation {
    Sum,
    Difference,
    Product,
}

// Kept: `operate` is public and takes the operation as a value.
impl Exactly for Operation {
    ghost of = { exact_of };

    fn exact(self, a: Number, b: Number) -> Exact {
        match self {
            Operation::Sum => Sum.exact(a, b),
            Operation::Difference => Difference.exact(a, b),
            Operation::Product => Product.exact(a, b),
        }
    }
}

// a + b, a − b or a × b by a task.
pub fn operate(operation: Operation, a: Number, b: Number, task: Task) -> Result<Rounded, Refusal>
    ensures { marked_answer result ≡ marked (exact_of operation (value a) (value b)) (operation_of (exact_of operation) a b task) }
{
    by_task(operation, a, b, task)
}

// x by itself by a task.
pub fn round(x: Number, task: Task) -> Result<Rounded, Refusal>
    ensures { marked_answer result ≡ marked (value x) (rounding_of x task) }
{
    if !is_precision(precision_of(task)) {
        return Err(Refusal::BadPrecision);
    }
    if !is_working(x) {
        return Err(Refusal::FirstUnfit);
    }
    exact_operand(Operand::of(x)).rounded(task)
}

// An operation by a mode code and a precision.
fn by_code<E: Exactly>(
    operation: E,
    a: Number,
    b: Number,
    code: u32,
    precision: u32,
) -> Result<Rounded, Refusal>
    ensures { marked_answer result ≡ marked (E.of operation (value a) (value b)) (coded_of (E.of operation) a b code precision) }
{
    if LAST_CODE < code {
        return Err(Refusal::UnknownMode);
    }
    by_task(operation, a, b, task_of(code, precision))
}

// An operation by a task.
fn by_task<E: Exactly>(operation: E, a: Number, b: Number, task: Task) -> Result<Rounded, Refusal>
    ensures { marked_answer result ≡ marked (E.of operation (value a) (value b)) (operation_of (E.of operation) a b task) }
{
    judged(a, b, precision_of(task))?;
    operation.exact(a, b).rounded(task)
}

// a.
// Kept: a function. It has one caller, and `IsExact` is its promise as of each exact value.
fn exact_operand(a: Operand) -> Exact
    ensures { IsExact result (operand_value a) }
{
    Exact {
        negative: a.negative,
        exponent: a.exponent + UNRAISED_STEP,
        cell: Cell {
            magnitude: Words {
                high: 0,
                low: a.significand,
            },
            rest: false,
        },
    }
}
