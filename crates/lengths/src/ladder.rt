// The thicknesses that insulation comes in.
ghost use Rattle.std.specs.Prelude.{◌≡◌};
ghost use Rattle.lengths.specs.Ladder.{rungs, thickness_at};

use crate::Thickness;

#[derive(Clone, Copy, Debug, PartialEq, Eq)]
pub struct Ladder;

impl Ladder {
    // The step from one rung to the next and the last rung, in millimetres.
    pub const GRADE: u16 = 10;

    pub const TOP: u16 = 300;

    // How many rungs there are: bare pipe is the first.
    pub const RUNGS: u64 = 1 + (Self::TOP / Self::GRADE) as u64;

    pub fn count() -> u64
        ensures { result ≡ rungs }
    {
        Self::RUNGS
    }

    // The thickness of the rung with index r; an index above the last rung's means the last rung.
    pub fn thickness(r: u64) -> Thickness
        ensures { result ≡ thickness_at r }
    {
        let last = Self::RUNGS - 1;
        Thickness(Self::GRADE * r.min(last) as u16)
    }
}
