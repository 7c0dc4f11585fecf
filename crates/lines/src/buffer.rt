// Reads and prints a buffer: two hexadecimal digits for each byte, in lower case, or `-` where it has
// none.
use super::line::Line;
use arrayvec::ArrayVec;
use std::fmt;

// The most bytes that a buffer has: more than a code of either format.
pub const MOST: usize = 16;

// A buffer: as many bytes as stand there, and the most if there are more.
pub fn read(line: &mut Line) -> Option<ArrayVec<u8, MOST>> {
    let mut bytes = ArrayVec::new();
    for _ in 0..MOST {
        let Some(byte) = line.two_digits() else {
            break;
        };
        bytes.push(byte);
    }
    if bytes.is_empty() {
        line.skip(b"-")?;
    }
    Some(bytes)
}

// The bytes of a buffer as they are printed.
#[derive(Clone, Copy)]
pub struct Shown<'a>(pub &'a [u8]);

impl fmt::Display for Shown<'_> {
    fn fmt<W: fmt::Write>(&self, f: &mut fmt::Formatter<W>) -> fmt::Result {
        if self.0.is_empty() {
            return write!(f, "-");
        }
        for byte in self.0 {
            write!(f, "{byte:02x}")?;
        }
        Ok(())
    }
}
