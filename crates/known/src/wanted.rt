// Cases of a step of a division.
use super::arguments;
use super::arguments::Arguments;
use lines::answer::Answer;
use lines::line::Line;
use lines::number::Shown;
use lines::out;
use steps::wanted::step;

// Prints the answer to the case whose token stood before: the wanted step, and the arguments.
pub fn answer(mut case: Line) -> Option<()> {
    let wanted = case.word()?;
    let Arguments {
        code,
        precision,
        first,
        second,
    } = arguments::read(case)?;
    out::line(Answer(step(first, second, code, precision, wanted).map(Shown)));
    Some(())
}
