// Whether a thickness is enough: have compared with need.
#![tactic(auto)]

mod choice;

ghost use Rattle.std.specs.Prelude.{◌≡◌};
ghost use Rattle.verdict.specs.Verdict.{judged, not_insufficient, is_undecided};

pub use choice::{Rung, search};
use fractions::Bounds;

#[derive(Clone, Copy, Debug, PartialEq, Eq)]
pub enum Verdict {
    // It meets: under-have is at or above high need. Under goal 7 squares are compared, here and below.
    Sufficient,
    // It misses: over-have is below low need.
    Insufficient,
    // It is open.
    Undecided,
}

impl Verdict {
    // Does a rung with this verdict not miss? No open rung is skipped.
    pub fn not_insufficient(self) -> bool
        ensures { result ≡ not_insufficient self }
    {
        self != Self::Insufficient
    }

    // Is it open?
    pub fn is_undecided(self) -> bool
        ensures { result ≡ is_undecided self }
    {
        self == Self::Undecided
    }
}

// The verdict on a thickness: `provided` is its have, `required` the need, each rounded down and up.
pub fn judge(provided: Bounds, required: Bounds) -> Verdict
    ensures { result ≡ judged provided required }
{
    if required.upper <= provided.lower {
        return Verdict::Sufficient;
    }
    if provided.upper < required.lower {
        return Verdict::Insufficient;
    }
    Verdict::Undecided
}
