// The checks of a thickness and the bound on the surface's temperature, for an admitted sheet.
#![tactic(auto)]

mod admitted;

ghost use Rattle.std.specs.Prelude.{◌≡◌, ◌^◌, ◌≤◌};
ghost use Rattle.fractions.specs.Fraction.{◌over◌};
ghost use Rattle.fractions.specs.Rounding.{ceiling};
ghost use Rattle.sheet.specs.Answer.{surface_difference, surface_bound};
ghost use Rattle.sheet.specs.Checks.{loss_check, surface_check};

pub use admitted::AdmittedSheet;
use fractions::{Bounds, quotient};
use limits::surface_limit;
use line::OperatingLine;
use requirement::{Goal, required};
use temperatures::Temperature;
use verdict::{Verdict, judge};

// The checks of an admitted sheet, and the bound on its surface's temperature, at a thickness that provides `provided`.
impl AdmittedSheet {
    // The loss check, where a limit is printed.
    #[tactic(auto, unfolding(sheet::specs::Checks::loss_check))]
    pub fn loss_check(self, provided: Bounds) -> Option<Verdict>
        ensures { result ≡ loss_check self.sheet provided }
    {
        let limit = self.limit?;
        Some(judge(provided, required(self.at, Goal::Loss(limit))))
    }

    // The surface check: a pipe that is itself no warmer than the limit is within it.
    #[tactic(auto, unfolding(sheet::specs::Checks::surface_check))]
    pub fn surface_check(self, provided: Bounds) -> Verdict
        ensures { result ≡ surface_check self.sheet provided }
    {
        let limit = surface_limit(self.sheet.ambient);
        if self.sheet.temperature <= limit {
            return Verdict::Sufficient;
        }
        let goal = Goal::Surface((limit.0 - self.sheet.ambient.0) as u64);
        judge(provided, required(self.at, goal))
    }

    // The temperature that the surface does not lie beyond, as seen from the air.
    #[tactic(auto, unfolding(sheet::specs::Answer::surface_bound))]
    pub fn surface_bound(self, provided: Bounds) -> Temperature
        requires { (1 ≤ provided.lower) × (provided.lower ≤ 2 ^ 40) }
        ensures { result ≡ surface_bound self.sheet provided }
    {
        let sheet = self.sheet;
        let most = surface_difference(self.at, provided.lower);
        sheet
            .flow
            .bound(sheet.temperature, sheet.ambient, self.at.difference, most)
    }
}

// How far the surface lies beyond the air at the most: 2LΔ × 10⁷ / (α × under-have), and on a flat wall LΔ × 10⁷ / (α × under-have),
// rounded up. The quotient is that of a surface requirement, with under-have in the place of s; but s is at most 700.0 °C, and under-have goes
// up to 2⁴⁰, so the two functions ask for different ranges.
#[tactic(auto, unfolding(provision::specs::Provided::film))]
fn surface_difference(at: OperatingLine, lower: u64) -> u64
    requires { (1 ≤ lower) × (lower ≤ 2 ^ 40) }
    ensures { result ≡ ceiling (surface_difference at.line.line at.difference (lower over 1)) }
{
    quotient(
        at.conduction() * 10_000_000,
        at.line.line.coefficient * lower,
    )
    .upper
}
