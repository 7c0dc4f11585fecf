// Whole numbers in bytes, the lowest byte first.
#![tactic(auto)]

ghost use Rattle.std.specs.Prelude.{◌≡◌, ◌%◌, ◌^◌, length};
ghost use Rattle.little_endian.specs.Bytes.{little_endian, bytes_of};

// The number that the bytes hold; what a word has no room for, past eight bytes, is dropped.
pub fn read(bytes: &[u8]) -> u64
    ensures { result ≡ little_endian bytes.now % 2 ^ 64 }
{
    let mut w: u64 = 0;
    for &byte in bytes.iter().rev() {
        w = w % 0x100_0000_0000_0000 * 256 + u64::from(byte);
    }
    w
}

// Fills the bytes with a number; what they have no room for is dropped.
pub fn write(bytes: &mut [u8], w: u64)
    ensures { bytes.new ≡ bytes_of (length bytes.old) w }
{
    let mut left = w;
    for byte in bytes.iter_mut() {
        *byte = (left % 256) as u8;
        left /= 256;
    }
}
