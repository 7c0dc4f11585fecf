// How a type holds the codes of its format: their bytes, and their bits above and below.
ghost use Rattle.std.specs.Prelude.{◌≡◌, ℕ, ◌+◌, ◌*◌, ◌/◌, ◌%◌, ◌^◌, ◌<◌, length};
ghost use Rattle.little_endian.specs.Bytes.{little_endian, bytes_of};
ghost use Rattle.codes.specs.Codes.{exponent_bits};
ghost use Rattle.codes.specs.Layout.{IsFormat};
ghost use Rattle.codes.specs.declared.code.Format.{Format};

use super::code::Format;

// A type whose values are the codes of one format.
pub(crate) trait Layout: Copy {
    // The bits of a code as a whole number.
    ghost bits: { Self → ℕ };

    // The format's constants.
    // Kept: each type lists its own, since document 01 asks for associated constants of each type.
    ghost FORMAT: { Format };

    const FORMAT: Format;

    // How many exponent fields there are.
    ghost FIELDS: { ℕ };

    const FIELDS: u32;

    // The code in the bytes, where they are as many as the format has.
    fn from_bytes(bytes: &[u8]) -> Self
        ensures { length bytes.now ≡ FORMAT.length → bits result ≡ little_endian bytes.now };

    // Puts the code into the bytes, where they are as many as the format has.
    fn write_bytes(self, bytes: &mut [u8])
        ensures { length bytes.old ≡ FORMAT.length → bytes.new ≡ bytes_of FORMAT.length (bits self) };

    // The code with this sign and field, `upper`, above the stored bits of this significand. A leading
    // one that is not stored is dropped, and so is what `upper` has above the sign.
    fn from_upper(upper: u32, significand: u64) -> Self
        ensures { upper < 2 * 2 ^ exponent_bits FORMAT → bits result ≡ upper * 2 ^ FORMAT.stored + significand % 2 ^ FORMAT.stored };

    // The sign and the field, which stand above the stored bits of the significand.
    fn upper(self) -> u32
        ensures { result ≡ bits self / 2 ^ FORMAT.stored };

    // The stored bits of the significand.
    fn stored(self) -> u64
        ensures { result ≡ bits self % 2 ^ FORMAT.stored };

    // The constants have to do with each other as those of a format do.
    ghost formed: { IsFormat FORMAT };

    // There are as many fields as their bits give.
    ghost fields_are: { FIELDS ≡ 2 ^ exponent_bits FORMAT };
}
