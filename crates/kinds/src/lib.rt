// The two kinds of sheets, and of the books that keep them.
#![tactic(auto)]

ghost use Rattle.std.specs.Prelude.{◌≡◌, ◌≤◌};
ghost use Rattle.kinds.specs.Kind.{longer, sheet_size};

// Standard: line numbers of two bytes. Larger: of four.
#[derive(Clone, Copy, Debug, PartialEq, Eq)]
pub enum Kind {
    Standard,
    Larger,
}

impl Kind {
    // By how many bytes a line number is longer than a standard one.
    pub fn longer(self) -> usize
        ensures { (result ≡ longer self) × (result ≤ 2) }
    {
        match self {
            Kind::Standard => 0,
            Kind::Larger => 2,
        }
    }

    // The bytes of a sheet.
    pub fn sheet_size(self) -> usize
        ensures { result ≡ sheet_size self }
    {
        24 + self.longer()
    }
}
