// Writes the finished text, and what went wrong to standard error.
use std::io::{Stderr, Stdout, Write};
use text::text::Text;

// Writes the text to standard output, and tells standard error where that fails.
pub fn print(stdout: &mut Stdout, stderr: &mut Stderr, text: Text) {
    let bytes = text.bytes;
    if stdout.write_all(&bytes[..text.count()]).is_err() {
        complain(stderr, b"report: cannot write to standard output\n");
    }
}

// Writes a message to standard error. Where that fails too there is no one left to tell.
pub fn complain(stderr: &mut Stderr, message: &[u8]) {
    let _ = stderr.write_all(message);
}
