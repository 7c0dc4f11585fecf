// Reads and prints a state. It has four parts: the blocks taken, `open` or `closed`, and the last van;
// how many vans moved, were parked and were over; the sums; and the edition that is remembered, which is
// printed where it is not 0. A line hands in one part, the others stay.
use depot::state::Depot;
use lines::line::Line;
use lines::number;
use std::fmt;

// The state that a line hands in, for a depot in this state.
// Kept: tests in a row. A table of tokens would need a match on their numbers besides.
pub fn read(line: &mut Line, mut depot: Depot) -> Option<Depot> {
    if line.skip(b"fresh").is_some() {
        return Some(Depot::fresh());
    }
    if line.skip(b"blocks").is_some() {
        depot.blocks = line.word()?;
        depot.closed = read_closed(line)?;
        depot.latest = line.word()?;
        return Some(depot);
    }
    if line.skip(b"vans").is_some() {
        depot.moved = line.word()?;
        depot.parked = line.word()?;
        depot.over = line.word()?;
        return Some(depot);
    }
    if line.skip(b"sums").is_some() {
        depot.low = number::read(line)?;
        depot.high = number::read(line)?;
        return Some(depot);
    }
    line.skip(b"edition")?;
    depot.edition = line.word()?;
    Some(depot)
}

// A space and whether the depot is closed.
fn read_closed(line: &mut Line) -> Option<bool> {
    if line.skip(b" open").is_some() {
        return Some(false);
    }
    line.skip(b" closed")?;
    Some(true)
}

// A state as it is printed, in one line, its parts as the lines have them.
#[derive(Clone, Copy)]
pub struct Shown(pub Depot);

impl fmt::Display for Shown {
    fn fmt<W: fmt::Write>(&self, f: &mut fmt::Formatter<W>) -> fmt::Result {
        let depot = self.0;
        let closed = if depot.closed { "closed" } else { "open" };
        write!(f, "blocks {} {closed} {}", depot.blocks, depot.latest)?;
        write!(f, " vans {} {} {}", depot.moved, depot.parked, depot.over)?;
        write!(
            f,
            " sums {} {}",
            number::Shown(depot.low),
            number::Shown(depot.high)
        )?;
        if depot.edition != 0 {
            write!(f, " edition {}", depot.edition)?;
        }
        Ok(())
    }
}
