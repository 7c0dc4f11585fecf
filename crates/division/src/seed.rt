// The seed table of document 01.
ghost use Rattle.std.specs.Prelude.{◌≡◌};
ghost use Rattle.division.specs.Seed.{entry_of, index_of};

// T(k) for k from 0 to 127: the whole number nearest 65,536 / (257 + 2k).
const SEEDS: [u8; 128] = [
    255, 253, 251, 249, 247, 245, 244, 242, 240, 238, 237, 235, 233, 232, 230, 228, 227, 225, 224,
    222, 221, 219, 218, 216, 215, 213, 212, 211, 209, 208, 207, 205, 204, 203, 202, 200, 199, 198,
    197, 196, 194, 193, 192, 191, 190, 189, 188, 187, 186, 185, 184, 183, 182, 181, 180, 179, 178,
    177, 176, 175, 174, 173, 172, 171, 170, 169, 168, 168, 167, 166, 165, 164, 163, 163, 162, 161,
    160, 159, 159, 158, 157, 156, 156, 155, 154, 153, 153, 152, 151, 151, 150, 149, 149, 148, 147,
    147, 146, 145, 145, 144, 143, 143, 142, 142, 141, 140, 140, 139, 139, 138, 137, 137, 136, 136,
    135, 135, 134, 133, 133, 132, 132, 131, 131, 130, 130, 129, 129, 128,
];

// The entry of a significand: k is the seven bits after its leading one.
pub fn entry_for(significand: u64) -> u8
    ensures { result ≡ entry_of (index_of significand) }
{
    let k = (significand >> 56) % 128;
    SEEDS[k as usize]
}
