// What a thickness provides, in nanometres: the paper's have.
#![tactic(auto)]

ghost use Rattle.std.specs.Prelude.{◌≡◌, ◌^◌, ◌≤◌};
ghost use Rattle.lengths.specs.declared.units.Diameter.{Diameter};
ghost use Rattle.lengths.specs.Units.{tenths};
ghost use Rattle.quadrature.specs.Figures.{log_bounds};
ghost use Rattle.line.specs.declared.Shape.TheVariants.{Cylinder, Flat};
ghost use Rattle.line.specs.Line.{shape_of};
ghost use Rattle.provision.specs.Provided.{insulation_bounds, film_bounds, provided};
ghost use Rattle.provision.specs.Prepared.{inner_log};

use fractions::{Bounds, quotient};
use lengths::{Diameter, Thickness};
use line::{CheckedLine, Shape};
use logarithm::{log_beyond, log_from_10mm};

// A line with the figures that are the same at every thickness: its logarithm from 10.0 mm, and its surface film.
#[derive(Clone, Copy, Debug, PartialEq, Eq)]
pub struct Provision {
    pub line: CheckedLine,
    pub inner: Bounds,
    pub film: Bounds,
    pub ghost inner_is: { inner ≡ inner_log (shape_of line.line) line.line.diameter },
    pub ghost film_is: { film ≡ film_bounds line.line },
}

impl Provision {
    pub fn of(line: CheckedLine) -> Provision
        ensures { result.line ≡ line }
    {
        Provision {
            line,
            inner: inner_log(line),
            film: film(line),
        }
    }

    // Under-have and over-have: what a thickness provides, rounded down and rounded up. The range of a thickness is asked for here and
    // below: 01 asks for a tuple struct, which has no ghost field, and each caller has its thickness from `Ladder::thickness`.
    #[tactic(auto, using(crate::proofs::Sizes::insulation_fits, crate::proofs::Sizes::film_small), unfolding(crate::specs::Provided::provided))]
    pub fn at(self, k: Thickness) -> Bounds
        requires { k.0 ≤ 300 }
        ensures { result ≡ provided self.line.line k }
    {
        insulation(self, k) + self.film
    }
}

// The logarithm from 10.0 mm to the pipe; a flat wall has none.
fn inner_log(line: CheckedLine) -> Bounds
    ensures { result ≡ inner_log (shape_of line.line) line.line.diameter }
{
    match line.line.shape() {
        Shape::Cylinder => log_from_10mm(line.line.diameter),
        Shape::Flat => Bounds::exact(0),
    }
}

// What the surface film provides.
#[tactic(auto, unfolding(crate::specs::Provided::film, crate::specs::Provided::film_bounds))]
fn film(line: CheckedLine) -> Bounds
    ensures { result ≡ film_bounds line.line }
{
    quotient(
        line.multiplied_conductivity() * 10_000_000,
        line.line.coefficient,
    )
}

// What the insulation provides.
fn insulation(p: Provision, k: Thickness) -> Bounds
    requires { k.0 ≤ 300 }
    ensures { result ≡ insulation_bounds (shape_of p.line.line) p.line.line.diameter k }
{
    let line = p.line.line;
    match line.shape() {
        Shape::Cylinder => cylinder_insulation(p.inner, line.diameter, k),
        Shape::Flat => flat_insulation(k),
    }
}

// What insulation of thickness k provides around a pipe of diameter d, to which the logarithm from 10.0 mm is `inner`. A diameter is the tuple
// struct that 01 asks for, which has no ghost field, so its range is asked for.
fn cylinder_insulation(inner: Bounds, d: Diameter, k: Thickness) -> Bounds
    requires { (inner ≡ log_bounds (tenths 100) d) × (100 ≤ d.0) × (d.0 ≤ 10_000) × (k.0 ≤ 300) }
    ensures { result ≡ insulation_bounds Cylinder d k }
{
    let e = d.outer(k);
    let log = log_beyond(inner, d, e);
    Bounds {
        lower: e.0 * log.lower / 10_000_000,
        upper: quotient(e.0 * log.upper, 10_000_000).upper,
    }
}

// What it provides on a flat wall, whatever its diameter.
#[tactic(auto, unfolding(crate::specs::Provided::insulation, crate::specs::Provided::insulation_bounds))]
fn flat_insulation(k: Thickness) -> Bounds
    requires { k.0 ≤ 300 }
    ensures { (D : Diameter) → result ≡ insulation_bounds Flat D k }
{
    Bounds::exact(1_000_000 * (k.0 as u64))
}
