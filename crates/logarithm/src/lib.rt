// The bounds of the logarithm between two diameters.
#![tactic(auto)]

ghost use Rattle.std.specs.Prelude.{◌≡◌, ◌+◌, ◌-◌, ◌^◌, ◌≤◌, ◌<◌};
ghost use Rattle.lengths.specs.Units.{tenths};
ghost use Rattle.quadrature.specs.Figures.{log_bounds};

use fractions::Bounds;
use lengths::Diameter;
use quadrature::step;

// Each function asks for the range of its diameters: 01 asks for a tuple struct, which has no ghost field, and the range differs from place to
// place.

// The logarithm from d to e, step by step.
fn log_by_steps(d: Diameter, e: Diameter) -> Bounds
    requires { (100 ≤ d.0) × (d.0 ≤ e.0) × (e.0 ≤ 16000) }
    ensures { result ≡ log_bounds d e }
{
    let mut log = Bounds::exact(0);
    for i in d.0..e.0 {
        log = log + step(i);
    }
    log
}

// The logarithm from 10.0 mm to e: the annex at the nearest whole millimetre, and at most five steps down or up from there.
pub fn log_from_10mm(e: Diameter) -> Bounds
    requires { (100 ≤ e.0) × (e.0 ≤ 16000) }
    ensures { result ≡ log_bounds (tenths 100) e }
{
    let k = (e.0 - 95) / 10;
    let near = Diameter(100 + 10 * k);
    let start = annex_tables::entry(k as usize);
    if e.0 < near.0 {
        start - log_by_steps(e, near)
    } else {
        start + log_by_steps(near, e)
    }
}

// The logarithm from d to e: what lies below d, the logarithm `inner` from 10.0 mm to d, taken off.
pub fn log_beyond(inner: Bounds, d: Diameter, e: Diameter) -> Bounds
    requires { (inner ≡ log_bounds (tenths 100) d) × (100 ≤ d.0) × (d.0 ≤ e.0) × (e.0 ≤ 16000) }
    ensures { result ≡ log_bounds d e }
{
    log_from_10mm(e) - inner
}
