// Diameters and thicknesses, and the ladder of thicknesses.
#![tactic(auto)]

mod ladder;
mod units;

pub use ladder::Ladder;
pub use units::{Diameter, Thickness};
