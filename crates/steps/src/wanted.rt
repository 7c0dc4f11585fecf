// All thirty-two steps: the value after any one of them, for board testers.
ghost use Rattle.std.specs.Prelude.{◌≡◌, true, ◌≤◌};
ghost use Rattle.numbers.specs.Answer.{answer_outcome};
ghost use Rattle.numbers.specs.Number.{is_admissible};
ghost use Rattle.steps.specs.Run.{line_outcome};
ghost use Rattle.steps.specs.Wanted.{is_step, step_of};
ghost use Rattle.steps.specs.Steps.{after_step};

use super::halves::{high_half, low_half};
use super::line::{combined, rounded};
use super::operands::{Divisor, Line, Working};
use super::reciprocal::reciprocal;
use super::tasks::{AWAY_24, EXACT_64, LineTask, STICKY_64, TRUNC_24, TRUNC_32};
use arithmetic::operation::Operation;
use division::judgement::judged;
use numbers::number::Number;
use numbers::task::task_of;
use refusals::Refusal;

// The last step.
pub const LAST_STEP: u32 = 32;

// The value after the wanted step of p / d, or the lowest refusal that applies.
// Kept: a mode code and the number of a step. Any may be handed in, and rows 1 and 6 refuse.
pub fn step(p: Number, d: Number, code: u32, precision: u32, wanted: u32) -> Result<Number, Refusal>
    ensures { answer_outcome result ≡ step_of p d code precision wanted }
{
    judged(p, d, code, precision)?;
    if !is_step(wanted) {
        return Err(Refusal::NoSuchStep);
    }
    let task = LineTask {
        task: task_of(code, precision),
    };
    let value = value_after(p, Divisor { number: d }, task, wanted)?;
    Ok(value.number)
}

// Is there such a step: 1 to 32?
// Kept: beside `is_precision`, which has another row and another definition.
#[tactic(auto, unfolding(crate::specs::Wanted::is_step))]
fn is_step(wanted: u32) -> bool
    ensures { result ≡ is_step wanted }
{
    (1..=LAST_STEP).contains(&wanted)
}

// The value after the wanted step, with nothing to refuse. Here and where it leads, the lines stand by their
// names in Figure 1 of source document 001, and a run of them ends at the wanted one.
fn value_after(p: Number, d: Divisor, task: LineTask, wanted: u32) -> Line
    requires { (is_admissible p ≡ true) × (1 ≤ wanted) × (wanted ≤ 32) }
    ensures { line_outcome result ≡ after_step p d.number task.task wanted }
{
    if wanted <= 6 {
        return reciprocal(d, wanted);
    }
    return_at!(wanted == 7, high_half(d));
    return_at!(wanted == 8, low_half(d, high_half(d)));
    digits(p, d, task, wanted)
}

// The value after one of the steps 9 to 32: the first remainder, four digits and their sum.
// Kept: six lines for each of the first three digits. Each is a step of its own, where a run may end.
fn digits(p: Number, d: Divisor, task: LineTask, wanted: u32) -> Line
    requires { (is_admissible p ≡ true) × (9 ≤ wanted) × (wanted ≤ 32) }
    ensures { line_outcome result ≡ after_step p d.number task.task wanted }
{
    let p0 = rounded(Ok(Working { number: p }), EXACT_64);
    return_at!(wanted == 9, p0);
    // Steps 6 to 8.
    let sd2 = reciprocal(d, 6);
    let dh = high_half(d);
    let dl = low_half(d, dh);
    // Steps 10 to 15.
    let ph0 = rounded(p0, TRUNC_32);
    return_at!(wanted == 10, ph0);
    let q0 = combined(Operation::Product, ph0, sd2, AWAY_24);
    return_at!(wanted == 11, q0);
    let qdh0 = combined(Operation::Product, q0, dh, EXACT_64);
    return_at!(wanted == 12, qdh0);
    let qdl0 = combined(Operation::Product, q0, dl, EXACT_64);
    return_at!(wanted == 13, qdl0);
    let pt1 = combined(Operation::Difference, p0, qdh0, EXACT_64);
    return_at!(wanted == 14, pt1);
    let p1 = combined(Operation::Difference, pt1, qdl0, EXACT_64);
    return_at!(wanted == 15, p1);
    // Steps 16 to 21.
    let ph1 = rounded(p1, TRUNC_32);
    return_at!(wanted == 16, ph1);
    let q1 = combined(Operation::Product, ph1, sd2, AWAY_24);
    return_at!(wanted == 17, q1);
    let qdh1 = combined(Operation::Product, q1, dh, EXACT_64);
    return_at!(wanted == 18, qdh1);
    let qdl1 = combined(Operation::Product, q1, dl, EXACT_64);
    return_at!(wanted == 19, qdl1);
    let pt2 = combined(Operation::Difference, p1, qdh1, EXACT_64);
    return_at!(wanted == 20, pt2);
    let p2 = combined(Operation::Difference, pt2, qdl1, EXACT_64);
    return_at!(wanted == 21, p2);
    // Steps 22 to 27.
    let ph2 = rounded(p2, TRUNC_32);
    return_at!(wanted == 22, ph2);
    let q2 = combined(Operation::Product, ph2, sd2, AWAY_24);
    return_at!(wanted == 23, q2);
    let qdh2 = combined(Operation::Product, q2, dh, EXACT_64);
    return_at!(wanted == 24, qdh2);
    let qdl2 = combined(Operation::Product, q2, dl, EXACT_64);
    return_at!(wanted == 25, qdl2);
    let pt3 = combined(Operation::Difference, p2, qdh2, EXACT_64);
    return_at!(wanted == 26, pt3);
    let p3 = combined(Operation::Difference, pt3, qdl2, EXACT_64);
    return_at!(wanted == 27, p3);
    // Steps 28 and 29.
    let ph3 = rounded(p3, TRUNC_32);
    return_at!(wanted == 28, ph3);
    let q3 = combined(Operation::Product, ph3, sd2, TRUNC_24);
    return_at!(wanted == 29, q3);
    // Steps 30 to 32: the sum of the digits.
    let qq2 = combined(Operation::Sum, q2, q3, STICKY_64);
    return_at!(wanted == 30, qq2);
    let qq1 = combined(Operation::Sum, qq2, q1, STICKY_64);
    return_at!(wanted == 31, qq1);
    combined(Operation::Sum, qq1, q0, task)
}
