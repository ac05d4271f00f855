// The area under 1/x between two diameters, which is the logarithm of their ratio: the figures of one step of a tenth of a millimetre.
#![tactic(auto)]

ghost use Rattle.std.specs.Prelude.{◌≡◌, ◌≤◌, ◌<◌};
ghost use Rattle.quadrature.specs.Figures.{step_bounds};

use fractions::{Bounds, quotient};

// Figures count units of 10⁻¹².
const TERA: u64 = 1_000_000_000_000;

// The step from i to i + 1, rounded down and rounded up.
#[tactic(auto, unfolding(crate::specs::Figures::lower_step, crate::specs::Figures::upper_step))]
pub fn step(i: u64) -> Bounds
    requires { (1 ≤ i) × (i < 16000) }
    ensures { result ≡ step_bounds i }
{
    let odd = 2 * i + 1;
    let midpoint = quotient(2 * TERA, odd);
    let trapezoid = quotient(TERA * odd, 2 * i * (i + 1));
    Bounds {
        lower: midpoint.lower,
        upper: trapezoid.upper,
    }
}
