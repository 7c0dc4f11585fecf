// Magnitudes of 128 bits in two words. `wide high low` is high × 2^64 + low.
ghost use Rattle.std.specs.Prelude.{◌≡◌, ◌+◌, ◌*◌, ◌^◌, ◌<◌, ◌≤◌};
ghost use Rattle.numbers.specs.Cell.{wide};

use numbers::words::Words;

// a × b.
pub(crate) fn product(a: u64, b: u64) -> Words
    ensures { wide result.high result.low ≡ a * b }
{
    let product = u128::from(a) * u128::from(b);
    Words {
        high: (product / 0x1_0000_0000_0000_0000) as u64,
        low: (product % 0x1_0000_0000_0000_0000) as u64,
    }
}

// a + b, where the sum has 128 bits.
pub(crate) fn sum(a: Words, b: Words) -> Words
    requires { wide a.high a.low + wide b.high b.low < 2 ^ 128 }
    ensures { wide result.high result.low ≡ wide a.high a.low + wide b.high b.low }
{
    let (low, carry) = a.low.overflowing_add(b.low);
    Words {
        high: a.high + b.high + u64::from(carry),
        low,
    }
}

// a − b, where b is no larger.
// Kept: beside `sum`. A borrow in place of a carry, and another demand: no parameter makes them one.
pub(crate) fn difference(a: Words, b: Words) -> Words
    requires { wide b.high b.low ≤ wide a.high a.low }
    ensures { wide result.high result.low + wide b.high b.low ≡ wide a.high a.low }
{
    let (low, borrow) = a.low.overflowing_sub(b.low);
    Words {
        high: a.high - b.high - u64::from(borrow),
        low,
    }
}
