// Where the search of the ladder starts: a rough estimate of the rung. No answer rests on it.
#![tactic(auto)]

ghost use Rattle.std.specs.Prelude.{◌≤◌, ◌<◌};
ghost use Rattle.lengths.specs.Ladder.{rungs};

use fractions::Bounds;
use lengths::{Diameter, Ladder};
use line::{CheckedLine, Shape};

// About the index of the first rung that does not miss the need `required`: the rung nearest to the thickness that just provides it.
// `film` is what the surface film provides.
pub fn likely_rung(line: CheckedLine, film: Bounds, required: Bounds) -> u64
    ensures { result ≤ rungs }
{
    // what the insulation has to provide, in micrometres
    let rest = required.lower.saturating_sub(film.upper) / 1000;
    // no rung provides 4 m
    if 4_000_000 <= rest {
        return Ladder::count();
    }
    let rung = (likely_thickness(line, rest) + 5_000) / 10_000;
    rung.min(Ladder::count())
}

// About the thickness at which insulation provides `rest`, both in micrometres.
fn likely_thickness(line: CheckedLine, rest: u64) -> u64
    requires { rest < 4_000_000 }
    ensures { result ≤ rest }
{
    match line.line.shape() {
        Shape::Cylinder => around_pipe(line.line.diameter, rest),
        Shape::Flat => rest,
    }
}

// The same around a pipe of diameter d. With z = rest / d, the outer diameter is about d (1 + z factor / divisor), where the factor is
// 1 + 0.376 z + 0.0044 z² and the divisor 1 + 0.783 z + 0.0215 z²: up to 300 mm within 1.7 per cent of the thickness. The range of a diameter
// is asked for here, since 01 asks for a tuple struct, which has no ghost field.
fn around_pipe(d: Diameter, rest: u64) -> u64
    requires { (100 ≤ d.0) × (rest < 4_000_000) }
    ensures { result ≤ rest }
{
    let z = rest / d.0; // in hundredths: d counts 100 micrometres
    let factor = 100_000_000 + z * (376_000 + 44 * z);
    let divisor = 100_000_000 + z * (783_000 + 215 * z);
    rest * factor / (2 * divisor)
}
