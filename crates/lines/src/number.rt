// Reads and prints a number: `zero`, or its sign, the sixteen hexadecimal digits of its significand
// and its exponent in decimal; behind it, where it has one, its accuracy: `below`, `exact` or `above`.
use super::line::Line;
use numbers::answer::{Accuracy, Rounded};
use numbers::number::Number;
use std::fmt;

// A space and a number.
pub fn read(line: &mut Line) -> Option<Number> {
    if line.skip(b" zero").is_some() {
        return Some(Number::Zero);
    }
    let negative = read_sign(line)?;
    let significand = line.sixteen_digits()?;
    let exponent = read_exponent(line)?;
    Some(Number::Finite {
        negative,
        exponent,
        significand,
    })
}

// A sign with a space on each side. Is it a minus?
fn read_sign(line: &mut Line) -> Option<bool> {
    if line.skip(b" + ").is_some() {
        return Some(false);
    }
    line.skip(b" - ")?;
    Some(true)
}

// A space and an exponent.
fn read_exponent(line: &mut Line) -> Option<i32> {
    if line.skip(b" -").is_some() {
        return i32::try_from(-i64::from(line.decimal()?)).ok();
    }
    i32::try_from(line.word()?).ok()
}

// A number as it is printed.
#[derive(Clone, Copy)]
pub struct Shown(pub Number);

impl fmt::Display for Shown {
    fn fmt<W: fmt::Write>(&self, f: &mut fmt::Formatter<W>) -> fmt::Result {
        match self.0 {
            Number::Zero => write!(f, "zero"),
            Number::Finite {
                negative,
                exponent,
                significand,
            } => {
                let sign = if negative { '-' } else { '+' };
                write!(f, "{sign} {significand:016x} {exponent}")
            }
        }
    }
}

// A number and its accuracy as they are printed.
#[derive(Clone, Copy)]
pub struct Marked(pub Rounded);

impl fmt::Display for Marked {
    fn fmt<W: fmt::Write>(&self, f: &mut fmt::Formatter<W>) -> fmt::Result {
        let mark = match self.0.accuracy {
            Accuracy::Below => "below",
            Accuracy::Exact => "exact",
            Accuracy::Above => "above",
        };
        write!(f, "{} {mark}", Shown(self.0.number))
    }
}

// A low and a high number as they are printed.
// Kept: beside the bracket of a depot, which this crate doesn't know.
#[derive(Clone, Copy)]
pub struct Bounds {
    pub low: Number,
    pub high: Number,
}

impl fmt::Display for Bounds {
    fn fmt<W: fmt::Write>(&self, f: &mut fmt::Formatter<W>) -> fmt::Result {
        write!(f, "low {} high {}", Shown(self.low), Shown(self.high))
    }
}
