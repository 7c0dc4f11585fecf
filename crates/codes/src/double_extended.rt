// Double-extended: 10 bytes, the lowest first, that hold the 64 bits of the significand with its
// explicit top bit, 15 exponent bits and the sign bit.
ghost use Rattle.std.specs.Prelude.{◌≡◌};
ghost use Rattle.codes.specs.Codes.{double_extended, bits_of};
ghost use Rattle.codes.specs.Formats.{double_extended_format, double_extended_fields};

use super::code::Format;
use super::coded::Coded;
use super::layout::Layout;

// The bits of a code: the significand, and above it the exponent field and the sign.
#[derive(Clone, Copy)]
pub struct DoubleExtended {
    pub upper: u16,
    pub significand: u64,
}

// How many values the bits above the significand have: 2^16.
const UPPERS: u64 = 65_536;

impl DoubleExtended {
    // Bytes of a code, bits of a significand, what is added to an exponent, and the exponents of the
    // normal numbers.
    pub const LENGTH: usize = 10;

    pub const PRECISION: u32 = 64;

    pub const BIAS: u32 = 16_383;

    pub const LOWEST: i32 = -16_382;

    pub const HIGHEST: i32 = 16_383;

    // The code with this significand, and above it the exponent field and the sign.
    pub fn from_bits(upper: u16, significand: u64) -> DoubleExtended
        ensures { (result.upper ≡ upper) × (result.significand ≡ significand) }
    {
        DoubleExtended { upper, significand }
    }
}

impl Coded for DoubleExtended {}

impl Layout for DoubleExtended {
    ghost bits = { bits_of };

    ghost FORMAT = { double_extended };

    ghost FIELDS = { 32768 };

    ghost formed = { double_extended_format };

    ghost fields_are = { double_extended_fields };

    const FORMAT: Format = Format {
        length: Self::LENGTH,
        precision: Self::PRECISION,
        stored: Self::PRECISION,
        bias: Self::BIAS,
        lowest: Self::LOWEST,
        highest: Self::HIGHEST,
    };

    const FIELDS: u32 = 0x8000;

    // The code in ten bytes.
    fn from_bytes(bytes: &[u8]) -> DoubleExtended {
        let middle = bytes.len().min(8);
        let significand = little_endian::read(&bytes[..middle]);
        let upper = little_endian::read(&bytes[middle..]);
        Self::from_bits((upper % UPPERS) as u16, significand)
    }

    // Puts the code into ten bytes.
    fn write_bytes(self, bytes: &mut [u8]) {
        let middle = bytes.len().min(8);
        little_endian::write(&mut bytes[..middle], self.significand);
        little_endian::write(&mut bytes[middle..], u64::from(self.upper));
    }

    fn from_upper(upper: u32, significand: u64) -> DoubleExtended {
        Self::from_bits((u64::from(upper) % UPPERS) as u16, significand)
    }

    fn upper(self) -> u32 {
        u32::from(self.upper)
    }

    fn stored(self) -> u64 {
        self.significand
    }
}
