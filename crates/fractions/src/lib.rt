// Quotients of whole numbers, rounded down, rounded up and to the nearest.
#![tactic(auto)]

ghost use Rattle.std.specs.Prelude.{◌≡◌, ◌+◌, ◌-◌, ◌*◌, ◌^◌, ◌≤◌, ◌<◌, true, false, cond};
ghost use Rattle.fractions.specs.Fraction.{◌over◌};
ghost use Rattle.fractions.specs.Rounding.{rounded};
ghost use Rattle.fractions.specs.Rounding.{nearest as rounding_nearest};

use std::ops::{Add, Sub};

// Two whole numbers that enclose a number: lower is not above it, upper is not below it.
#[derive(Clone, Copy, Debug, PartialEq, Eq)]
pub struct Bounds {
    pub lower: u64,
    pub upper: u64,
}

impl Bounds {
    // Those of a whole number: the number itself on both sides.
    pub fn exact(n: u64) -> Bounds
        ensures { result ≡ record { lower = n; upper = n } }
    {
        Bounds { lower: n, upper: n }
    }

    // Those of a number with the whole part `floor`, which is the number itself where it is whole, and else lies next below it.
    pub fn from_floor(floor: u64, whole: bool) -> Bounds
        requires { (whole ≡ false) → (floor + 1 < 2 ^ 64) }
        ensures { result ≡ record { lower = floor; upper = cond whole floor (floor + 1) } }
    {
        if whole {
            Bounds::exact(floor)
        } else {
            Bounds {
                lower: floor,
                upper: floor + 1,
            }
        }
    }
}

// The bounds of a sum: each side is added.
impl Add for Bounds {
    type Output = Bounds;

    ghost can_add = { λ p q. (p.lower + q.lower < 2 ^ 64) × (p.upper + q.upper < 2 ^ 64) };

    ghost add_gives = { λ p q r. r ≡ record { lower = p.lower + q.lower; upper = p.upper + q.upper } };

    fn add(self, other: Bounds) -> Bounds {
        Bounds {
            lower: self.lower + other.lower,
            upper: self.upper + other.upper,
        }
    }
}

// The bounds of what is left of a sum, once a term is taken off: each side is taken off.
impl Sub for Bounds {
    type Output = Bounds;

    ghost can_sub = { λ p q. (q.lower ≤ p.lower) × (q.upper ≤ p.upper) };

    ghost sub_gives = { λ p q r. r ≡ record { lower = p.lower - q.lower; upper = p.upper - q.upper } };

    fn sub(self, other: Bounds) -> Bounds {
        Bounds {
            lower: self.lower - other.lower,
            upper: self.upper - other.upper,
        }
    }
}

// num / den rounded down and rounded up, by one division.
#[tactic(auto, using(crate::proofs::Rounding::ceiling_by_parts))]
pub fn quotient(num: u64, den: u64) -> Bounds
    requires { 0 < den }
    ensures { result ≡ rounded (num over den) }
{
    let exact = num % den == 0;
    Bounds::from_floor(num / den, exact)
}

// num / den to the nearest whole number, a half going up.
pub fn nearest(num: u64, den: u64) -> u64
    requires den_nonzero { 0 < den }
    requires den_bound { 2 * num + 2 * den < 2 ^ 64 }
    ensures { result ≡ rounding_nearest (num over den) }
{
    (2 * num + den) / (2 * den)
}
