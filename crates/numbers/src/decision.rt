// What is decided at the last place of a magnitude, cut to a whole number, a fraction word and a rest:
// whether anything is dropped, whether the whole number goes up, and where the result then lies.
ghost use Rattle.std.specs.Prelude.{◌≡◌, ◌+◌, ◌*◌, ◌^◌, ltb};
ghost use Rattle.numbers.specs.Rounding.{goes_up};
ghost use Rattle.numbers.specs.Grid.{bit_of};
ghost use Rattle.numbers.specs.Magnitude.{accuracy_by};

use super::answer::Accuracy;
use super::number::TOP_BIT;
use super::task::Mode;

// Is there a fraction? It is fraction / 2^64, and a little more where rest is set.
pub(crate) fn has_fraction(fraction: u64, rest: bool) -> bool
    ensures { result ≡ ltb 0 (2 * fraction + bit_of rest) }
{
    if fraction > 0 {
        return true;
    }
    rest
}

// Does the whole number go up by one?
pub(crate) fn goes_up(mode: Mode, negative: bool, whole: u64, fraction: u64, rest: bool) -> bool
    ensures { result ≡ goes_up mode negative whole (2 * fraction + bit_of rest) (2 ^ 65) }
{
    if !has_fraction(fraction, rest) {
        return false;
    }
    match mode {
        Mode::Trunc => false,
        Mode::Away => true,
        Mode::Near => {
            // Kept: tests in a row. A match on `cmp` is no shorter, since the tie has two tests of its own.
            if fraction < TOP_BIT {
                return false;
            }
            if TOP_BIT < fraction {
                return true;
            }
            if rest {
                return true;
            }
            whole % 2 == 1
        }
        Mode::Sticky => whole % 2 == 0,
        Mode::Up => !negative,
        Mode::Down => negative,
    }
}

// Where a result lies of which the magnitude goes up, or else down, unless nothing is dropped.
pub(crate) fn accuracy_of(negative: bool, up: bool, inexact: bool) -> Accuracy
    ensures { result ≡ accuracy_by negative up inexact }
{
    if !inexact {
        return Accuracy::Exact;
    }
    if up != negative {
        Accuracy::Above
    } else {
        Accuracy::Below
    }
}
