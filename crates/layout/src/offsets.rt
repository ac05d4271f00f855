// Where a book keeps what.
ghost use Rattle.std.specs.Prelude.{◌≡◌, ◌≤◌};
ghost use Rattle.layout.specs.Layout.{layout_of, header as layout_header, count_offset, sheet_offset, answer_offset};
ghost use Rattle.layout.specs.OwnKind.{own_layout};
ghost use Rattle.layout.specs.Refusals.{wrong_size};
ghost use Rattle.layout.specs.Usable.{Usable};

use big_endian::unsigned;
use kinds::Kind;
use refusals::outside;

// The bytes before the sizes, the bytes of a size, the largest capacity, and the kind of the sheets.
#[derive(Clone, Copy, Debug, PartialEq, Eq)]
pub struct Layout {
    pub lead: usize,
    pub width: usize,
    pub largest: u64,
    pub sheets: Kind,
}

// A layout whose sizes and offsets fit.
#[derive(Clone, Copy, Debug, PartialEq, Eq)]
pub struct BookLayout {
    pub plain: Layout,
    pub ghost usable: { Usable plain },
}

impl BookLayout {
    // That of a book for sheets of a kind.
    pub fn of(kind: Kind) -> BookLayout
        ensures { result.plain ≡ layout_of kind }
    {
        let plain = match kind {
            Kind::Standard => Layout {
                lead: 0,
                width: 2,
                largest: 1_000,
                sheets: Kind::Standard,
            },
            Kind::Larger => Layout {
                lead: 2,
                width: 4,
                largest: 100_000,
                sheets: Kind::Larger,
            },
        };
        BookLayout { plain }
    }

    // The one that a book's first two bytes tell.
    #[tactic(auto, unfolding(crate::specs::OwnKind::own_kind))]
    pub fn own(book: &[u8]) -> BookLayout
        ensures { result.plain ≡ own_layout book.now }
    {
        let larger = book.len() >= 2 && unsigned(book, 0) == 0;
        let kind = if larger { Kind::Larger } else { Kind::Standard };
        BookLayout::of(kind)
    }

    // Where the count stands.
    pub fn count_offset(self) -> usize
        ensures { result ≡ count_offset self.plain }
    {
        self.plain.lead + self.plain.width
    }

    // Where the sizes end.
    pub(crate) fn header(self) -> usize
        ensures { result ≡ layout_header self.plain }
    {
        self.count_offset() + self.plain.width
    }

    // Where an entry's sheet stands, and its answer in a book of this capacity.
    pub fn sheet_offset(self, entry: u64) -> usize
        requires { entry ≤ self.plain.largest }
        ensures { result ≡ sheet_offset self.plain entry }
    {
        self.header() + self.plain.sheets.sheet_size() * entry as usize
    }

    pub fn answer_offset(self, capacity: u64, entry: u64) -> usize
        requires { (capacity ≤ self.plain.largest) × (entry ≤ capacity) }
        ensures { result ≡ answer_offset self.plain capacity entry }
    {
        self.sheet_offset(capacity) + 8 * entry as usize
    }

    // Whether bytes of this length cannot be a book of this capacity.
    pub fn wrong_size(self, size: usize, capacity: u64) -> bool
        ensures { result ≡ wrong_size self.plain size capacity }
    {
        size < self.header()
            || outside(capacity, 1, self.plain.largest)
            || size != self.answer_offset(capacity, capacity)
    }
}
