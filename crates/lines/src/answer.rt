// Prints what a call answers: what it gives, or `refused` with the row of the table that refused.
use refusals::Refusal;
use std::fmt;

// An answer as it is printed.
#[derive(Clone, Copy)]
pub struct Answer<T>(pub Result<T, Refusal>);

impl<T: fmt::Display> fmt::Display for Answer<T> {
    fn fmt<W: fmt::Write>(&self, f: &mut fmt::Formatter<W>) -> fmt::Result {
        match &self.0 {
            Ok(given) => write!(f, "{given}"),
            Err(refusal) => write!(f, "refused {}", refusal.row()),
        }
    }
}
