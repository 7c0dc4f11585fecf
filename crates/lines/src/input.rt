// Reads standard input.
ghost use Rattle.std.specs.Prelude.{◌≡◌, ◌-◌, ◌^◌};
ghost use Rattle.io.specs.Counts.{IsPrefixLen};
ghost use Rattle.std.specs.Iterator.{at_most};

use super::line::WIDTH;

// The descriptor of standard input.
const STDIN_FILENO: i32 = 0;

// The lines of the input. They end where no whole line is left.
#[derive(Drop)]
pub struct Lines {
    // The turns that are left: a proved loop has to end, and nothing says that the input does.
    left: u64,
}

impl Lines {
    // The lines from where the input stands. No run uses up so many turns.
    pub fn new() -> Lines
        ensures { result.left ≡ 2 ^ 64 - 1 }
    {
        Lines { left: u64::MAX }
    }
}

impl Iterator for Lines {
    type Item = [u8; WIDTH];

    ghost remaining = { λ s. at_most s.left };

    fn next(&mut self) -> Option<[u8; WIDTH]> {
        self.left = self.left.checked_sub(1)?;
        let mut text = [0; WIDTH];
        if fill(&mut text) < WIDTH {
            return None;
        }
        Some(text)
    }
}

// Fills the bytes with the next ones of the input, as far as it goes, and answers how many it had.
// Kept: `read_exact` doesn't say how many.
pub fn fill(bytes: &mut [u8]) -> usize
    ensures { IsPrefixLen result bytes.new }
{
    io::read_full(STDIN_FILENO, bytes)
}
