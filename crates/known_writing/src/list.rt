// Reads a list from standard input: numbers of four bytes, the lowest byte first.
use arrayvec::ArrayVec;
use lines::input;

// The most numbers of a list: as many as 205 blocks full of vans have, and no depot takes so many.
pub const MOST: usize = 20_500;

// The numbers of a list.
pub type List = ArrayVec<u32, MOST>;

// Reads so many next numbers of the input over the list, if that has room for them. Where the input ends
// before, the list has as many numbers as it had, the first ones those that were read.
pub fn read(list: &mut List, count: usize) -> Option<()> {
    if count > MOST {
        return None;
    }
    let before = list.len();
    for i in 0..count {
        let Some(number) = read_number() else {
            list.truncate(before);
            return None;
        };
        if i < list.len() {
            list[i] = number;
        } else {
            list.push(number);
        }
    }
    list.truncate(count);
    Some(())
}

fn read_number() -> Option<u32> {
    let mut bytes = [0; 4];
    if input::fill(&mut bytes) < 4 {
        return None;
    }
    Some(u32::from_le_bytes(bytes))
}
