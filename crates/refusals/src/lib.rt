// Why a call refuses.
#![tactic(auto)]

ghost use Rattle.std.specs.Prelude.{◌≡◌};
ghost use Rattle.refusals.specs.Row.{row_number};

// The rows of the documents' table of answers, each with its number.
#[derive(Clone, Copy, Debug, PartialEq, Eq)]
pub enum Refusal {
    UnknownMode = 1,
    BadPrecision = 2,
    FirstUnfit = 3,
    SecondUnfit = 4,
    ZeroDivisor = 5,
    NoSuchStep = 6,
    ExponentOutside = 7,
    TooManyBits = 8,
    WrongLength = 9,
    AllOnes = 10,
    Noncanonical = 11,
    NoEqualCode = 12,
    Closed = 13,
    WrongCheck = 14,
    WrongLayout = 15,
    WrongRecord = 16,
    NoneMoved = 17,
    PartialVan = 18,
    TooManyVans = 19,
    OutputTooShort = 20,
    WrongEdition = 21,
}

impl Refusal {
    // The number of its row.
    pub fn row(self) -> u32
        ensures { result ≡ row_number self }
    {
        self as u32
    }
}
