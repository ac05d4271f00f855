// What a goal requires, in nanometres: the paper's need.
#![tactic(auto)]

ghost use Rattle.std.specs.Prelude.{◌≡◌, ◌*◌, ◌≤◌, ◌<◌};
ghost use Rattle.requirement.specs.declared.Goal.TheVariants.{Economy};
ghost use Rattle.requirement.specs.Ranges.{EconomyInRange, GoalInRange};
ghost use Rattle.requirement.specs.Required.{economy_factor, requirement, enclosing};

use fractions::{Bounds, quotient};
use line::{OperatingLine, Shape};
use roots::root;

// f, the price of heat in 0.01 yuan/GJ; τ, the hours a year; P, the price of insulation in yuan/m³; S, the yearly share in 0.0001.
#[derive(Clone, Copy, Debug, PartialEq, Eq)]
pub struct EconomyTerms {
    pub heat: u64,
    pub hours: u64,
    pub insulation: u64,
    pub share: u64,
}

#[derive(Clone, Copy, Debug, PartialEq, Eq)]
pub enum Goal {
    Economy(EconomyTerms),
    // A heat loss, in 0.1 W/m².
    Loss(u64),
    // How far the surface's temperature is from the air's, in 0.1 °C.
    Surface(u64),
}

// Low and high need: what a goal requires of a line at its temperature difference, rounded down and rounded up.
#[tactic(auto, unfolding(crate::specs::Required::requirement, crate::specs::Required::enclosing))]
pub fn required(at: OperatingLine, goal: Goal) -> Bounds
    requires { GoalInRange goal }
    ensures { result ≡ enclosing (requirement at.line.line at.difference goal) }
{
    match goal {
        Goal::Economy(terms) => economy(at, terms),
        Goal::Loss(aim) => quotient(at.conduction() * 100_000, aim),
        Goal::Surface(s) => quotient(at.conduction() * 10_000_000, at.line.line.coefficient * s),
    }
}

#[tactic(auto, using(crate::proofs::Sizes::economy_sizes))]
fn economy(at: OperatingLine, terms: EconomyTerms) -> Bounds
    requires { EconomyInRange terms }
    ensures { result ≡ enclosing (requirement at.line.line at.difference (Economy terms)) }
{
    let line = at.line.line;
    let numerator = 1000 * (terms.heat * line.conductivity * terms.hours * at.difference);
    root(
        printed_coefficient(line.shape()),
        numerator,
        terms.insulation * terms.share,
    )
}

// The printed coefficient in units of 10⁻⁶: the equation's factor is 1,000 times its square.
fn printed_coefficient(shape: Shape) -> u64
    ensures { (result * result * 1000 ≡ economy_factor shape) × (0 < result) × (result < 4096) }
{
    match shape {
        Shape::Cylinder => 3795,
        Shape::Flat => 1897,
    }
}
