// Translated from src/algorithms/convex/line_convex_checker.rs of portgraph (88172a3c8e, Apache-2.0, see NOTICE), and changed: the guess of
// `find_index` is a function of its own, and `round` is worked out by comparison.
ghost use Rattle.std.specs.Prelude.{◌≡◌};
ghost use Rattle.paper.specs.Lookup.{rounded, guess as guessed};
ghost use Rattle.lookup.specs.Ends.{Ends, Roundable};

use std::num::truncating_f64_to_u64;

// Rounds half away from zero. The half above the whole part is exact, and nothing is added to x: x + 0.5 would round.
fn round(x: f64) -> usize
    requires { Roundable x }
    ensures { result ≡ rounded x }
{
    let whole = truncating_f64_to_u64(x);
    let half = ((2 * whole + 1) as f64) * 0.5;
    if half <= x {
        return (whole as usize) + 1;
    }
    whole as usize
}

// Where to look for `pos` between the ends at `low` and `high`, whose positions are `left` and `right`: as far along as positions that are
// evenly spread would put it, and never at an end.
pub fn guess(low: usize, high: usize, left: usize, right: usize, pos: usize) -> usize
    requires { Ends low high left right pos }
    ensures { result ≡ guessed low high left right pos }
{
    let alpha = ((pos - left) as f64) / ((right - left) as f64);
    let along = low + round(alpha * ((high - low) as f64));
    if along == low {
        return along + 1;
    }
    if along == high {
        return along - 1;
    }
    along
}
