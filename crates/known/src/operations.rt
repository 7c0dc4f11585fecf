// Cases of add, subtract, multiply and divide.
use super::arguments;
use super::arguments::Arguments;
use lines::answer::Answer;
use lines::line::Line;
use lines::number::Marked;
use lines::out;
use numbers::answer::Rounded;
use numbers::number::Number;
use refusals::Refusal;

// Prints the answer of the operation to the case whose token stood before.
pub(crate) fn answer<F>(case: Line, operation: F) -> Option<()>
where
    F: FnOnce(Number, Number, u32, u32) -> Result<Rounded, Refusal>,
    requires { F.IsAlwaysCallable operation }
{
    let Arguments {
        code,
        precision,
        first,
        second,
    } = arguments::read(case)?;
    out::line(Answer(operation(first, second, code, precision).map(Marked)));
    Some(())
}
