// Writes to standard output, a line by one call. A write that fails is left alone, and what follows is
// written: the output is then short, and the comparison with what is expected tells.
// Kept: the writer of its own. `println!` takes the runtime, which only `main` is handed.
use arrayvec::ArrayString;
use std::fmt;
use std::fmt::{Display, Write};

// The descriptor of standard output.
const STDOUT_FILENO: i32 = 1;

// The bytes that one call writes at most: more than the lines of the programs have.
const MOST: usize = 256;

// What is not yet written of a line.
#[derive(Drop)]
struct Stdout {
    text: ArrayString<MOST>,
}

impl Stdout {
    fn flush(&mut self) {
        io::write_all(STDOUT_FILENO, self.text.as_bytes());
        self.text.clear();
    }
}

impl Write for Stdout {
    // What has no room beside the rest is written behind it.
    fn write_str(&mut self, text: &str) -> fmt::Result {
        if self.text.try_push_str(text).is_err() {
            self.flush();
            if self.text.try_push_str(text).is_err() {
                io::write_all(STDOUT_FILENO, text.as_bytes());
            }
        }
        Ok(())
    }
}

// Writes a text and a newline.
pub fn line<D: Display + Drop>(text: D) {
    let mut stdout = Stdout {
        text: ArrayString::new(),
    };
    let _ = stdout.writeln(text);
    stdout.flush();
}
