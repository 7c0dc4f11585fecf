// The 64-bit hash FNV-1a.

// What the hash begins with, and its prime.
const BASIS: u64 = 0xcbf2_9ce4_8422_2325;

const PRIME: u64 = 0x100_0000_01b3;

// The hash of the bytes.
pub fn fnv1a(bytes: &[u8]) -> u64 {
    bytes.iter().fold(
        BASIS,
        |hash, byte| (hash ^ u64::from(*byte)).wrapping_mul(PRIME),
    )
}
