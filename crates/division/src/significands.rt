// The quotient of two significands, in words: a reciprocal made as in steps 1 to 6, by the seed table
// and two Newton steps, then a bit and three digits of 27 bits with their exact remainders. The boards
// have no divide instruction, so every divisor in this file is a constant power of two.
ghost use Rattle.std.specs.Prelude.{◌≡◌, ◌+◌, ◌*◌, ◌^◌, ◌<◌, ◌≤◌};
ghost use Rattle.numbers.specs.Cell.{wide};
ghost use Rattle.division.specs.Words.{IsSignificand, refined_word, HasProducts, IsReciprocalWord, IsQuotient};

use super::seed::entry_for;
use numbers::words::Words;

// How many numbers half a word holds: 2^32.
const HALF: u64 = 0x1_0000_0000;

// Of a Newton step: a reciprocal is in units of 2^−31, and what it is multiplied by in units of 2^−32, so
// that 2 is 2^33; 3 is taken off for 2^−31 and for rounding a product up.
const RECIPROCAL_UNIT: u64 = 0x8000_0000;

const TWO_LESS: u64 = 0x1_FFFF_FFFD;

// An entry's eight bits become the upper ones of half a word: 2^24.
const SEED_UNIT: u64 = 0x100_0000;

// A digit has 27 bits, and the product that estimates it 36 more: 2^27 and 2^36.
const DIGIT_UNIT: u64 = 0x800_0000;

const ESTIMATE_UNIT: u64 = 0x10_0000_0000;

// What is lent to the lower half of what a digit leaves, 2^61, and the same in upper halves, 2^29.
const LOAN: u64 = 0x2000_0000_0000_0000;

const UPPER_LOAN: u64 = 0x2000_0000;

// The places of the first bit and of the first digit in two words: bit 17 of the high word; ten bits of
// the digit are the upper ones of the low word, from bit 54 on.
const FIRST_BIT: u64 = 0x2_0000;

const LOW_PART: u64 = 0x400;

const LOW_PART_PLACE: u64 = 0x40_0000_0000_0000;

// A word with its top bit set.
#[derive(Clone, Copy)]
pub(crate) struct Significand {
    pub word: u64,
    ghost in_range: { IsSignificand word },
}

// A quotient digit, and the remainder after it.
#[derive(Clone, Copy)]
pub(crate) struct Digit {
    pub value: u64,
    pub remainder: u64,
}

// 82 bits of a quotient, the first of which may be 0, in two words, and the remainder after them.
#[derive(Clone, Copy)]
pub(crate) struct Digits {
    pub magnitude: Words,
    pub remainder: u64,
}

// p × 2^81 / d.
// Kept: `IsQuotient` in each promise, since it joins the answer with another dividend each time.
pub(crate) fn digits_of(p: Significand, d: Significand) -> Digits
    ensures { IsQuotient (p.word * 2 ^ 81) d.word (wide result.magnitude.high result.magnitude.low) result.remainder }
{
    let divisor = Divisor::new(d);
    let bit = first_bit(p, d);
    let first = divisor.next_digit(bit.remainder);
    let second = divisor.next_digit(first.remainder);
    let third = divisor.next_digit(second.remainder);
    Digits {
        magnitude: Words {
            high: bit.value * FIRST_BIT + first.value / LOW_PART,
            low: first.value % LOW_PART * LOW_PART_PLACE + second.value * DIGIT_UNIT + third.value,
        },
        remainder: third.remainder,
    }
}

// The bit before the binary point of p / d.
fn first_bit(p: Significand, d: Significand) -> Digit
    ensures { IsQuotient p.word d.word result.value result.remainder × (result.value ≤ 1) }
{
    if p.word < d.word {
        Digit {
            value: 0,
            remainder: p.word,
        }
    } else {
        Digit {
            value: 1,
            remainder: p.word - d.word,
        }
    }
}

// A divisor's significand with its reciprocal.
#[derive(Clone, Copy)]
struct Divisor {
    word: u64,
    reciprocal: u64,
    ghost significand: { IsSignificand word },
    ghost near: { IsReciprocalWord word reciprocal },
}

impl Divisor {
    // The reciprocal is the seed, refined twice. The divisor is rounded up to 32 bits.
    fn new(d: Significand) -> Divisor
        ensures { result.word ≡ d.word }
    {
        let word = d.word;
        let dr = (word - 1) / HALF + 1;
        let seed = u64::from(entry_for(word)) * SEED_UNIT;
        let once = refined(dr, seed);
        Divisor {
            word,
            reciprocal: refined(dr, once),
        }
    }

    // The next 27 bits of a remainder. The upper half of the remainder times the reciprocal gives the digit,
    // or one less; what is left of remainder × 2^27 is held in an upper and a lower half, and where it is
    // not below the divisor d, d is taken off once more.
    fn next_digit(self, remainder: u64) -> Digit
        requires { remainder < self.word }
        ensures { IsQuotient (remainder * 2 ^ 27) self.word result.value result.remainder }
    {
        let d = self.word;
        let d1 = d / HALF;
        let d0 = d % HALF;
        let r1 = remainder / HALF;
        let r0 = remainder % HALF;
        let digit = r1 * self.reciprocal / ESTIMATE_UNIT;
        // remainder × 2^27 − digit × d, with a loan to the lower half so that it is not negative.
        let low = LOAN + r0 * DIGIT_UNIT - digit * d0;
        let left1 = r1 * DIGIT_UNIT + low / HALF - (digit * d1 + UPPER_LOAN);
        let left0 = low % HALF;
        // The same less d, with 2^32 lent: `over` is above d1 where d can be taken off. No branch depends on
        // it: the correction is a digit, 0 or 1.
        let lent = HALF + left0 - d0;
        let over = left1 + lent / HALF;
        let correction = u64::from(over > d1);
        let left = left1 % HALF * HALF + left0;
        Digit {
            value: digit + correction,
            remainder: left.wrapping_sub(correction * d),
        }
    }
}

// A Newton step.
#[tactic(auto, unfolding(crate::specs::Words::refined_word))]
fn refined(dr: u64, x: u64) -> u64
    requires { HasProducts dr x }
    ensures { result ≡ refined_word dr x }
{
    let turned = TWO_LESS - x * dr / RECIPROCAL_UNIT;
    x * turned / HALF
}
