// Binary64: 8 bytes, the lowest first, that hold 52 fraction bits, 11 exponent bits and the sign bit.
// The leading one of a normal number is not stored.
ghost use Rattle.std.specs.Prelude.{◌≡◌};
ghost use Rattle.codes.specs.Codes.{binary64};
ghost use Rattle.codes.specs.Formats.{binary64_format, binary64_fields};

use super::code::Format;
use super::coded::Coded;
use super::layout::Layout;

// The bits of a code: the fraction, above it the exponent field, and the sign.
#[derive(Clone, Copy)]
pub struct Binary64 {
    pub bits: u64,
}

// How many fractions there are: 2^52.
const FRACTIONS: u64 = 0x10_0000_0000_0000;

// How many values the bits above the fraction have: 2^12.
const UPPERS: u32 = 4_096;

impl Binary64 {
    // Bytes of a code, bits of a significand with its leading one, what is added to an exponent, and
    // the exponents of the normal numbers.
    pub const LENGTH: usize = 8;

    pub const PRECISION: u32 = 53;

    pub const BIAS: u32 = 1_023;

    pub const LOWEST: i32 = -1_022;

    pub const HIGHEST: i32 = 1_023;

    // The code with these bits.
    // Kept: beside that of `DoubleExtended`, which takes two parts. Both are public.
    pub fn from_bits(bits: u64) -> Binary64
        ensures { result.bits ≡ bits }
    {
        Binary64 { bits }
    }
}

impl Coded for Binary64 {}

impl Layout for Binary64 {
    ghost bits = { λ code. code.bits };

    ghost FORMAT = { binary64 };

    ghost FIELDS = { 2048 };

    ghost formed = { binary64_format };

    ghost fields_are = { binary64_fields };

    const FORMAT: Format = Format {
        length: Self::LENGTH,
        precision: Self::PRECISION,
        stored: Self::PRECISION - 1,
        bias: Self::BIAS,
        lowest: Self::LOWEST,
        highest: Self::HIGHEST,
    };

    const FIELDS: u32 = 0x800;

    // The code in eight bytes.
    fn from_bytes(bytes: &[u8]) -> Binary64 {
        Self::from_bits(little_endian::read(bytes))
    }

    // Puts the code into eight bytes.
    fn write_bytes(self, bytes: &mut [u8]) {
        little_endian::write(bytes, self.bits);
    }

    fn from_upper(upper: u32, significand: u64) -> Binary64 {
        Self::from_bits(u64::from(upper % UPPERS) * FRACTIONS + significand % FRACTIONS)
    }

    fn upper(self) -> u32 {
        (self.bits / FRACTIONS) as u32
    }

    fn stored(self) -> u64 {
        self.bits % FRACTIONS
    }
}
