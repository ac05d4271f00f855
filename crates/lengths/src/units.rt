// Lengths in two units, which one function joins: two types, as 01 asks, so that neither is taken for the other.
ghost use Rattle.std.specs.Prelude.{◌≡◌, ◌^◌, ◌<◌};
ghost use Rattle.lengths.specs.Units.{outer_diameter};

// A diameter, in tenths of a millimetre.
#[derive(Clone, Copy, Debug, PartialEq, Eq, PartialOrd, Ord)]
pub struct Diameter(pub u64);

// A thickness, in whole millimetres.
#[derive(Clone, Copy, Debug, PartialEq, Eq, PartialOrd, Ord)]
pub struct Thickness(pub u16);

impl Diameter {
    // The outer diameter with insulation of thickness k on it.
    pub fn outer(self, k: Thickness) -> Diameter
        requires { (outer_diameter self k).0 < 2 ^ 64 }
        ensures { result ≡ outer_diameter self k }
    {
        Diameter(self.0 + 20 * (k.0 as u64))
    }
}
