// The two sides of a bracket.
ghost use Rattle.std.specs.Prelude.{◌≡◌};
ghost use Rattle.depot.specs.Room.{code_of};

// The low side is rounded down, the high side up: each with its mode code.
// Kept: codes in place of a `Mode`. The public functions `divide` and `add` take a mode code.
#[derive(Clone, Copy)]
pub(crate) enum Side {
    Low = 5,
    High = 4,
}

// The precision of every figure.
pub(crate) const PRECISION: u32 = 64;

impl Side {
    // The mode code of the side.
    pub(crate) fn code(self) -> u32
        ensures { result ≡ code_of self }
    {
        self as u32
    }
}
