// Reads the call of a line: `list` brings the numbers of vans, `edition` asks for an edition, `write` has
// the blocks of the vans written, and `load` has these loaded.
use lines::line::Line;

// What a line asks for: that so many numbers behind the line are the list, an edition, that the first
// numbers of the list are written into an output of so many bytes, or that what the output holds is
// loaded.
#[derive(Clone, Copy)]
pub enum Call {
    List(u32),
    Edition(u32),
    Write { numbers: u32, bytes: u32 },
    Load,
}

// The call of a line.
pub fn read(mut line: Line) -> Option<Call> {
    let call = read_call(&mut line)?;
    line.end()?;
    Some(call)
}

// Kept: tests in a row. A table of tokens would need a match on their numbers besides.
fn read_call(line: &mut Line) -> Option<Call> {
    if line.skip(b"list").is_some() {
        return Some(Call::List(line.word()?));
    }
    if line.skip(b"edition").is_some() {
        return Some(Call::Edition(line.word()?));
    }
    if line.skip(b"write").is_some() {
        return Some(Call::Write {
            numbers: line.word()?,
            bytes: line.word()?,
        });
    }
    line.skip(b"load")?;
    Some(Call::Load)
}
