// The task of a step: a rounding mode with a precision, or an exactness claim.
ghost use Rattle.std.specs.Prelude.{◌≡◌};
ghost use Rattle.numbers.specs.Rounding.{IsModeOf, task_of, precision_of, is_precision};

use refusals::Refusal;

// The largest precision; the smallest is 1.
const LARGEST_PRECISION: u32 = 64;

// How a value between two numbers is rounded: the mode codes 0 to 5.
#[derive(Clone, Copy)]
pub enum Mode {
    Trunc,
    Away,
    Near,
    Sticky,
    Up,
    Down,
}

impl TryFrom<u32> for Mode {
    type Error = Refusal;

    ghost try_from_gives = { IsModeOf };

    // The mode with this code.
    fn try_from(code: u32) -> Result<Mode, Refusal> {
        match code {
            0 => Ok(Mode::Trunc),
            1 => Ok(Mode::Away),
            2 => Ok(Mode::Near),
            3 => Ok(Mode::Sticky),
            4 => Ok(Mode::Up),
            5 => Ok(Mode::Down),
            _ => Err(Refusal::UnknownMode),
        }
    }
}

// A rounding mode with a precision.
#[derive(Clone, Copy)]
pub struct Rounding {
    pub mode: Mode,
    pub precision: u32,
}

// An exactness claim: the value has at most this many significant bits.
#[derive(Clone, Copy)]
pub struct Claim {
    pub precision: u32,
}

// The task of a step.
#[derive(Clone, Copy)]
pub enum Task {
    Round(Rounding),
    Exact(Claim),
}

// The task that a mode code and a precision name. Codes end at 6, the exact claim; the entries refuse a
// higher one, which here is a claim too.
// Kept: a code. Public entries take any number for one, and row 1 refuses those that name no task.
pub fn task_of(code: u32, precision: u32) -> Task
    ensures { result ≡ task_of code precision }
{
    match Mode::try_from(code) {
        Ok(mode) => Task::Round(Rounding { mode, precision }),
        Err(_) => Task::Exact(Claim { precision }),
    }
}

// Is n a precision: 1 to 64?
// Kept: two tests, as the definition has them.
pub fn is_precision(n: u32) -> bool
    ensures { result ≡ is_precision n }
{
    1 <= n && n <= LARGEST_PRECISION
}

// The precision of the task.
pub fn precision_of(task: Task) -> u32
    ensures { result ≡ precision_of task }
{
    match task {
        Task::Round(rounding) => rounding.precision,
        Task::Exact(claim) => claim.precision,
    }
}
