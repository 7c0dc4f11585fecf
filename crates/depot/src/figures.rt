// The figures of a depot: the mean of its rates lies between them.
ghost use Rattle.std.specs.Prelude.{◌≡◌, true, ◌<◌};
ghost use Rattle.depot.specs.Figures.{mean_of, bracket_figures};
ghost use Rattle.depot.specs.Depot.{is_fit_sum, figures_of};
ghost use Rattle.depot.specs.Room.{mode_of};

use super::side::{PRECISION, Side};
use super::state::Depot;
use super::whole::number_of;
use division::quotient::divide;
use numbers::number::Number;
use refusals::Refusal;

// The low and the high figure.
#[derive(Clone, Copy)]
pub struct Bracket {
    pub low: Number,
    pub high: Number,
}

impl Depot {
    // The figures of the vans taken so far.
    pub fn figures(self) -> Result<Bracket, Refusal>
        ensures { bracket_figures result ≡ figures_of self }
    {
        if !self.is_fit() {
            return Err(Refusal::FirstUnfit);
        }
        if self.moved == 0 {
            return Err(Refusal::NoneMoved);
        }
        Ok(Bracket {
            low: mean(Side::Low, self.low, self.moved),
            high: mean(Side::High, self.high, self.moved),
        })
    }
}

// A fit sum divided by the moved count, on the sum's side. The division is never refused here.
fn mean(side: Side, total: Number, moved: u32) -> Number
    requires { (is_fit_sum total ≡ true) × (0 < moved) }
    ensures { result ≡ mean_of (mode_of side) total moved }
{
    let mean = divide(total, number_of(moved), side.code(), PRECISION).unwrap();
    mean.number
}
