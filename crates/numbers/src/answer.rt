// What an operation gives: a number, and where it lies.
use super::number::Number;

// Where a result lies, seen from the true value: below it, at it or above it. Signs count, so −1/4 lies
// above −1/3.
#[derive(Clone, Copy)]
pub enum Accuracy {
    Below,
    Exact,
    Above,
}

// A rounded number with its accuracy.
#[derive(Clone, Copy)]
pub struct Rounded {
    pub number: Number,
    pub accuracy: Accuracy,
}
