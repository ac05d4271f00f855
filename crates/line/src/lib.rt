// The insulated line, and its shape.
#![tactic(auto)]

ghost use Rattle.std.specs.Prelude.{◌≡◌, ◌*◌, ◌≤◌};
ghost use Rattle.line.specs.Line.{shape_of, multiplier};
ghost use Rattle.line.specs.Range.{LineInRange};

use lengths::Diameter;

#[derive(Clone, Copy, Debug, PartialEq, Eq)]
pub enum Shape {
    Cylinder,
    Flat,
}

// D, L and α: the diameter, the insulation's conductivity in 0.0001 W/(m·K) and the surface coefficient in 0.01 W/(m²·K).
#[derive(Clone, Copy, Debug, PartialEq, Eq)]
pub struct Line {
    pub diameter: Diameter,
    pub conductivity: u64,
    pub coefficient: u64,
}

impl Line {
    pub fn shape(self) -> Shape
        ensures { result ≡ shape_of self }
    {
        if self.diameter.0 <= 10_000 {
            Shape::Cylinder
        } else {
            Shape::Flat
        }
    }
}

// A line in a range in which no divisor is 0 and every figure fits 64 bits.
#[derive(Clone, Copy, Debug, PartialEq, Eq)]
pub struct CheckedLine {
    pub line: Line,
    pub ghost in_range: { LineInRange line },
}

impl CheckedLine {
    // 2L, and on a flat wall L.
    pub fn multiplied_conductivity(self) -> u64
        ensures { (result ≡ multiplier (shape_of self.line) * self.line.conductivity) × (result ≤ 4_000) }
    {
        match self.line.shape() {
            Shape::Cylinder => 2 * self.line.conductivity,
            Shape::Flat => self.line.conductivity,
        }
    }
}

// A line in operation, at a temperature difference Δ in 0.1 °C.
#[derive(Clone, Copy, Debug, PartialEq, Eq)]
pub struct OperatingLine {
    pub line: CheckedLine,
    pub difference: u64,
    pub ghost difference_to: { difference ≤ 7_000 },
}

impl OperatingLine {
    // 2LΔ, and on a flat wall LΔ.
    pub fn conduction(self) -> u64
        ensures { (result ≡ multiplier (shape_of self.line.line) * self.line.line.conductivity * self.difference) × (result ≤ 28_000_000) }
    {
        self.line.multiplied_conductivity() * self.difference
    }
}
