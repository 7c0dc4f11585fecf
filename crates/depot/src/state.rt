// The state of a depot.
ghost use Rattle.std.specs.Prelude.{◌≡◌, ◌&&◌, ◌+◌, leb};
ghost use Rattle.depot.specs.Depot.{fresh, most_vans, is_negative_number, is_fit_sum, are_blocks_fit, is_fit_depot};

use numbers::number::{Number, is_fit};

// The most vans of a depot, and the most blocks.
pub const MOST_VANS: u64 = 4_096;

const MOST_BLOCKS: u32 = 205;

// The ends of the exponents of its sums.
const LOWEST_SUM: i32 = -64;

const HIGHEST_SUM: i32 = 64;

// What a depot has taken: how many blocks, whether one of them closed it, the last van and the edition
// that is remembered (0 in a fresh depot), how many vans moved, were parked and were over, and the sums of
// the rates, rounded down and up.
#[derive(Clone, Copy)]
pub struct Depot {
    pub blocks: u32,
    pub closed: bool,
    pub latest: u32,
    pub edition: u32,
    pub moved: u32,
    pub parked: u32,
    pub over: u32,
    pub low: Number,
    pub high: Number,
}

impl Depot {
    // An open depot that has taken no block.
    pub fn fresh() -> Depot
        ensures { result ≡ fresh }
    {
        Depot {
            blocks: 0,
            closed: false,
            latest: 0,
            edition: 0,
            moved: 0,
            parked: 0,
            over: 0,
            low: Number::Zero,
            high: Number::Zero,
        }
    }

    // Is the state fit: at most 4,096 vans moved or parked, no more of them over, fewer than 205 blocks
    // taken unless it is closed, and both sums fit?
    #[tactic(auto, unfolding(crate::specs::Depot::is_fit_depot))]
    pub fn is_fit(self) -> bool
        ensures { result ≡ is_fit_depot self }
    {
        self.are_counts_fit()
            && self.are_blocks_fit()
            && is_fit_sum(self.low)
            && is_fit_sum(self.high)
    }

    // Did at most 4,096 vans move or park, and are no more of them over?
    fn are_counts_fit(self) -> bool
        ensures { result ≡ (leb (self.moved + self.parked) most_vans && leb self.over (self.moved + self.parked)) }
    {
        let vans = u64::from(self.moved) + u64::from(self.parked);
        vans <= MOST_VANS && u64::from(self.over) <= vans
    }

    // Are fewer blocks taken than a depot can take, unless it is closed?
    #[tactic(auto, unfolding(crate::specs::Depot::are_blocks_fit))]
    fn are_blocks_fit(self) -> bool
        ensures { result ≡ are_blocks_fit self }
    {
        self.blocks < MOST_BLOCKS || self.closed
    }
}

// Is x zero, or fit and positive with its exponent between the two ends?
fn is_fit_sum(x: Number) -> bool
    ensures { result ≡ is_fit_sum x }
{
    is_fit(x, LOWEST_SUM, HIGHEST_SUM) && !is_negative(x)
}

// Is x below zero?
fn is_negative(x: Number) -> bool
    ensures { result ≡ is_negative_number x }
{
    match x {
        Number::Zero => false,
        Number::Finite { negative, .. } => negative,
    }
}
