// A code taken apart, and the constants of its format.

// The constants of a format: its length in bytes, the bits of its significands and those that a code
// stores, the bias, and the lowest and the highest exponent of its normal numbers.
#[derive(Clone, Copy)]
pub struct Format {
    pub length: usize,
    pub precision: u32,
    pub stored: u32,
    pub bias: u32,
    pub lowest: i32,
    pub highest: i32,
}

// A code taken apart. The significand has its leading one, stored or not.
#[derive(Clone, Copy)]
pub struct Code {
    pub negative: bool,
    pub field: u32,
    pub significand: u64,
}
