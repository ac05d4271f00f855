// Why a call sends back what it was given.
#![tactic(auto)]

ghost use Rattle.std.specs.Prelude.{◌≡◌};
ghost use Rattle.refusals.specs.Numbers.{number_of};
ghost use Rattle.refusals.specs.Range.{outside as range_outside};

#[derive(Clone, Copy, Debug, PartialEq, Eq)]
pub enum Refusal {
    // Of a sheet: its length, an unknown goal or service, a field outside its range, a field that must be zero.
    SheetLength = 11,
    UnknownCode = 12,
    OutOfRange = 13,
    NotZero = 14,
    // No temperature difference that drives heat in the goal's direction; a loss aim of 0, or a surface aim that is not between the air and
    // the pipe; a jacket counted on a flat wall.
    NoDrivingDifference = 15,
    InvalidAim = 16,
    NotCylinder = 43,
    // No thickness of the ladder is enough; the first that may be enough is not known to be.
    NoneSufficient = 17,
    TooClose = 18,
    // Of a book: its length or capacity, a count above the capacity, no such entry, no slot left, an entry that is not a sheet with its
    // answer.
    BookSize = 31,
    CountAboveCapacity = 32,
    NoSuchEntry = 33,
    BookFull = 34,
    EntryUnsound = 35,
    // Of a yearly share: a rate or a term outside its range, a share whose two ends round differently.
    RateOrTerm = 41,
    ShareUndecided = 42,
}

impl Refusal {
    pub fn number(self) -> u8
        ensures { result ≡ number_of self }
    {
        self as u8
    }
}

// Is a number outside its range?
pub fn outside(value: u64, least: u64, most: u64) -> bool
    ensures { result ≡ range_outside value least most }
{
    !(least..=most).contains(&value)
}
