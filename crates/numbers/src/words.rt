// Words: the upper bits of one, and magnitudes of two. `wide high low` is high × 2^64 + low.
ghost use Rattle.std.specs.Prelude.{◌≡◌, ◌*◌, ◌/◌, ◌%◌, ◌^◌, ◌≤◌, ◌<◌, ltb};
ghost use Rattle.numbers.specs.Cell.{wide};

// One word, and whether something nonzero lies below its last bit.
#[derive(Clone, Copy)]
pub struct Part {
    pub value: u64,
    pub rest: bool,
}

// a / 2^by as a whole number, and whether a bit that was set is dropped.
pub fn cut(a: u64, by: u32) -> Part
    ensures { (result.value ≡ a / 2 ^ by) × (result.rest ≡ ltb 0 (a % 2 ^ by)) }
{
    if by == 0 {
        return Part {
            value: a,
            rest: false,
        };
    }
    if by < 64 {
        return Part {
            value: a >> by,
            rest: a << (64 - by) > 0,
        };
    }
    Part {
        value: 0,
        rest: a > 0,
    }
}

// A magnitude of 128 bits in two words: high × 2^64 + low.
#[derive(Clone, Copy)]
pub struct Words {
    pub high: u64,
    pub low: u64,
}

// A magnitude, and whether something nonzero lies below its last bit.
#[derive(Clone, Copy)]
pub struct Cell {
    pub magnitude: Words,
    pub rest: bool,
}

// How far a nonzero magnitude is shifted left to bring its top bit to bit 127.
pub(crate) fn leading_zeros(a: Words) -> u32
    requires { 0 < wide a.high a.low }
    ensures { (result ≤ 127) × (2 ^ 127 ≤ wide a.high a.low * 2 ^ result) × (wide a.high a.low * 2 ^ result < 2 ^ 128) }
{
    if a.high == 0 {
        64 + u64::leading_zeros(a.low)
    } else {
        u64::leading_zeros(a.high)
    }
}

// a × 2^by, where no bit is lost.
pub(crate) fn shift_left(a: Words, by: u32) -> Words
    requires { (by ≤ 127) × (wide a.high a.low * 2 ^ by < 2 ^ 128) }
    ensures { wide result.high result.low ≡ wide a.high a.low * 2 ^ by }
{
    if by == 0 {
        return a;
    }
    if by < 64 {
        return Words {
            high: (a.high << by) + (a.low >> (64 - by)),
            low: a.low << by,
        };
    }
    Words {
        high: a.low << (by - 64),
        low: 0,
    }
}

// a / 2^by as a whole number, and whether a bit that was set is dropped.
// Kept: the parts of the answer come from different words, so none is taken over whole.
pub fn shift_right(a: Words, by: u32) -> Cell
    ensures { (wide result.magnitude.high result.magnitude.low ≡ wide a.high a.low / 2 ^ by) × (result.rest ≡ ltb 0 (wide a.high a.low % 2 ^ by)) }
{
    if by == 0 {
        return Cell {
            magnitude: a,
            rest: false,
        };
    }
    if by < 64 {
        let low = cut(a.low, by);
        return Cell {
            magnitude: Words {
                high: a.high >> by,
                low: (a.high << (64 - by)) + low.value,
            },
            rest: low.rest,
        };
    }
    let high = cut(a.high, by - 64);
    let magnitude = Words {
        high: 0,
        low: high.value,
    };
    if a.low > 0 {
        return Cell {
            magnitude,
            rest: true,
        };
    }
    Cell {
        magnitude,
        rest: high.rest,
    }
}
