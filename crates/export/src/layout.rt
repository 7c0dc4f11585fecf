// A number in sixteen bytes: the significand in eight, the exponent in four as a two's complement
// number, and the kind in four, 0 for zero, 1 for positive and 2 for negative; the lowest byte first in
// each. Zero is sixteen zero bytes.
ghost use Rattle.std.specs.Prelude.{◌++◌, ◌≡◌, length};
ghost use Rattle.little_endian.specs.Bytes.{little_endian, bytes_of};
ghost use Rattle.export.specs.Layout.{kind_of, number_of, number_in, layout_of};

use numbers::number::Number;

// Bytes of a number.
pub(crate) const NUMBER_BYTES: usize = 16;

// The highest kind.
const HIGHEST_KIND: u64 = 2;

// How many numbers four bytes hold.
const FOUR_BYTES: u64 = 0x1_0000_0000;

// The number in sixteen bytes, if they hold one.
pub(crate) fn read(bytes: &[u8]) -> Option<Number>
    requires { length bytes.now ≡ 16 }
    ensures { result ≡ number_in bytes.now }
{
    let significand = read_word(&bytes[..8]);
    let upper = read_word(&bytes[8..]);
    number_of(upper / FOUR_BYTES, (upper % FOUR_BYTES) as u32, significand)
}

// The number with this kind, the word of its exponent and its significand, if there is one.
// Kept: a kind is a number of the layout, and `Number` already tells the kinds apart.
fn number_of(kind: u64, word: u32, significand: u64) -> Option<Number>
    ensures { result ≡ number_of kind word significand }
{
    if kind > HIGHEST_KIND {
        return None;
    }
    if kind > 0 {
        return Some(Number::Finite {
            negative: kind == 2,
            exponent: word.cast_signed(),
            significand,
        });
    }
    if significand > 0 || word > 0 {
        return None;
    }
    Some(Number::Zero)
}

// The kind of a number that is not zero.
// Kept: 1 and 2 are numbers of the layout.
fn kind_of(negative: bool) -> u64
    ensures { result ≡ kind_of negative }
{
    if negative { 2 } else { 1 }
}

// The sixteen bytes of a number, as two words.
#[derive(Clone, Copy)]
struct Words {
    significand: u64,
    upper: u64,
}

// Kept: a function. It has one caller, and its promise is on both words together.
fn words_of(x: Number) -> Words
    ensures { bytes_of 8 result.significand ++ bytes_of 8 result.upper ≡ layout_of x }
{
    match x {
        Number::Zero => Words {
            significand: 0,
            upper: 0,
        },
        Number::Finite {
            negative,
            exponent,
            significand,
        } => Words {
            significand,
            upper: kind_of(negative) * FOUR_BYTES + u64::from(exponent.cast_unsigned()),
        },
    }
}

// Puts a number into sixteen bytes.
pub(crate) fn write(x: Number, bytes: &mut [u8])
    requires { length bytes.old ≡ 16 }
    ensures { bytes.new ≡ layout_of x }
{
    let words = words_of(x);
    write_word(&mut bytes[..8], words.significand);
    write_word(&mut bytes[8..], words.upper);
}

// The word in eight bytes.
fn read_word(bytes: &[u8]) -> u64
    requires { length bytes.now ≡ 8 }
    ensures { result ≡ little_endian bytes.now }
{
    u64::from_le_bytes(*bytes.as_array().unwrap())
}

// Puts a word into eight bytes.
fn write_word(bytes: &mut [u8], w: u64)
    requires { length bytes.old ≡ 8 }
    ensures { bytes.new ≡ bytes_of 8 w }
{
    *bytes.as_mut_array().unwrap() = w.to_le_bytes();
}
