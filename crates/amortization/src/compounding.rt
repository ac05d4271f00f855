// Growth by compound interest.
ghost use Rattle.std.specs.Prelude.{◌≡◌, ℕ, ◌+◌, ◌*◌, ◌≤◌, ◌<◌};
ghost use Rattle.fractions.specs.Fraction.{Fraction, ◌over◌};
ghost use Rattle.fractions.specs.Rounding.{floor, ceiling};
ghost use Rattle.fractions.proofs.Rounding.{floor_ceiling};
ghost use Rattle.amortization.specs.Growth.{growth as growth_growth};
ghost use Rattle.std.proofs.Common.{le_refl};

use fractions::quotient;

// What is compounded.
pub(crate) const PRINCIPAL: u64 = 1_000_000_000;

// How the growth of a year is rounded: to a whole number between the two next ones.
pub(crate) trait Rounding {
    ghost rounded: { Fraction → ℕ };

    fn round(num: u64, den: u64) -> u64
        requires { 0 < den }
        ensures { result ≡ rounded (num over den) };

    ghost at_least: { (p : Fraction) → 0 < p.den → floor p ≤ rounded p };

    ghost at_most: { (p : Fraction) → 0 < p.den → rounded p ≤ ceiling p };
}

pub(crate) struct Down;

impl Rounding for Down {
    ghost rounded = { floor };

    ghost at_least = { λ p _. le_refl (floor p) };

    ghost at_most = { floor_ceiling };

    fn round(num: u64, den: u64) -> u64 {
        quotient(num, den).lower
    }
}

pub(crate) struct Up;

impl Rounding for Up {
    ghost rounded = { ceiling };

    ghost at_least = { floor_ceiling };

    ghost at_most = { λ p _. le_refl (ceiling p) };

    fn round(num: u64, den: u64) -> u64 {
        quotient(num, den).upper
    }
}

// The growth of the principal with so many years left to compound: 01, "Matching forms to places", names the form, a recursion on the years
// left.
#[tactic(auto, unfolding(crate::specs::Growth::growth))]
pub(crate) fn growth<R: Rounding>(rate: u64, left: u64) -> u64
    requires rate_bound { rate ≤ 3_000 }
    requires left_bound { left ≤ 30 }
    ensures value { result ≡ growth_growth R.rounded rate left }
    ensures fits { result * (10_000 + rate) < 1_000_000_000_000_000_000 }
{
    let more = 0 < left;
    if more {
        let before = growth::<R>(rate, left - 1);
        R::round(before * (10_000 + rate), 10_000)
    } else {
        PRINCIPAL
    }
}
