// An exact value up to a cell, and its rounding. Exponents are those of operands: the two-word magnitude
// F at the exponent x stands for F × 2^(x − 131,196).
ghost use Rattle.std.specs.Prelude.{◌≡◌, ◌*◌, ◌≤◌};
ghost use Rattle.numbers.specs.Accuracy.{marked_answer, marked_by};
ghost use Rattle.numbers.specs.Biased.{highest_biased};
ghost use Rattle.numbers.specs.Rounding.{precision_of};

use numbers::answer::Rounded;
use numbers::rounding::round_cell;
use numbers::task::Task;
use numbers::words::Cell;
use refusals::Refusal;

// Where the last bit of a magnitude stands at exponent 0: 2^−131,196.
const LAST_BIT: i32 = 131_196;

// A sign, an exponent, a magnitude in two words, and whether something nonzero lies below its last bit.
// The highest exponent is that of a product.
#[derive(Clone, Copy)]
pub(crate) struct Exact {
    pub negative: bool,
    pub exponent: u32,
    pub cell: Cell,
    ghost biased: { exponent ≤ 2 * highest_biased },
}

impl Exact {
    ghost use Rattle.arithmetic.specs.Private.{exact_value};

    // The value rounded once, or claimed exact, by its task.
    pub(crate) fn rounded(self, task: Task) -> Result<Rounded, Refusal>
        requires { (1 ≤ precision_of task) × (precision_of task ≤ 64) }
        ensures { marked_answer result ≡ marked_by task (exact_value self) }
    {
        let exponent = self.exponent as i32 - LAST_BIT;
        round_cell(self.negative, self.cell, exponent, task)
    }
}
