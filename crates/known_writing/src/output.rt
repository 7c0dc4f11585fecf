// An output: the pattern that it holds before it is written, and how it is printed.
use super::hash;
use arrayvec::ArrayVec;
use lines::{buffer, out};

// The most bytes of an output: 208 blocks, and no depot takes more than 205.
pub const MOST: usize = 106_496;

// The most bytes that are printed, and how many of them to a line.
const MOST_PRINTED: usize = 1_100;

const LINE_BYTES: usize = 32;

// The pattern has no zeros, and a period that does not divide a block.
const PERIOD: usize = 251;

// The bytes of an output.
pub type Output = ArrayVec<u8, MOST>;

// Makes an output of so many bytes of the pattern, if it has room for them.
pub fn fill(bytes: &mut Output, count: usize) -> Option<()> {
    if count > MOST {
        return None;
    }
    bytes.clear();
    for i in 0..count {
        bytes.push((i % PERIOD + 1) as u8);
    }
    Some(())
}

// Prints how many bytes there are, and all of them, or their hash if they are many.
pub fn print(bytes: &[u8]) {
    let count = bytes.len();
    if count > MOST_PRINTED {
        return out::line(format_args!("bytes {count} fnv1a {:016x}", hash::fnv1a(bytes)));
    }
    out::line(format_args!("bytes {count}"));
    for part in bytes.chunks(LINE_BYTES) {
        out::line(buffer::Shown(part));
    }
}
