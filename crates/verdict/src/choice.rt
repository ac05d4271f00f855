// The search of the ladder.
ghost use Rattle.std.specs.Prelude.{◌≡◌, ◌≤◌, ◌<◌};
ghost use Rattle.lengths.specs.Ladder.{rungs};
ghost use Rattle.verdict.specs.Choice.{verdict_for, searched};

use crate::{Verdict, judge};
use estimate::likely_rung;
use fractions::Bounds;
use lengths::Ladder;
use provision::Provision;

// A rung of the ladder: its index, its have and the verdict on it.
#[derive(Clone, Copy, Debug, PartialEq, Eq)]
pub struct Rung {
    pub index: u64,
    pub provided: Bounds,
    pub verdict: Verdict,
}

// Searches the ladder for the first rung that does not miss the need `required`; where all miss, there is none. What is provided grows with
// the rung, so each trial rules out the rungs on one side of it. It is inlined where it is called.
#[inline(always)]
pub fn search(prepared: Provision, required: Bounds) -> Option<Rung>
    ensures { result ≡ searched prepared.line.line (verdict_for prepared.line.line required) }
{
    let likely = likely_rung(prepared.line, prepared.film, required);
    // Every rung below low misses, and none from high on does; `provided` is what rung high provides, where there is one.
    let mut low = 0;
    let mut high = Ladder::count();
    let mut provided = Bounds::exact(0);
    'ladder: while low < high {
        let r = next_trial(low, high, likely);
        let tried = prepared.at(Ladder::thickness(r));
        if judge(tried, required).not_insufficient() {
            high = r;
            provided = tried;
        } else {
            low = r + 1;
        }
    }
    if high == Ladder::count() {
        return None;
    }
    Some(Rung {
        index: high,
        provided,
        verdict: judge(provided, required),
    })
}

// The rung to try next, from low on and below high: the likely one, after it the one beside it, and then the middle one. Two trials
// are enough where the rung found is the likely one or the next above it; otherwise the search goes on by bisection.
fn next_trial(low: u64, high: u64, likely: u64) -> u64
    requires { (low < high) × (high ≤ rungs) × (likely ≤ rungs) }
    ensures { (low ≤ result) × (result < high) }
{
    if likely == high {
        return high - 1;
    }
    if likely + 1 == low {
        return low;
    }
    if low <= likely && likely < high {
        return likely;
    }
    (low + high) / 2
}
