// Whether a book is sound.
ghost use Rattle.std.specs.Prelude.{◌≡◌, [], ◌∷◌, IfOk};
ghost use Rattle.refusals.specs.Response.{respond};
ghost use Rattle.layout.specs.Sizes.{capacity as sizes_capacity, count as sizes_count};
ghost use Rattle.layout.specs.Refusals.{book_cases};
ghost use Rattle.layout.specs.Examination.{examined};

use crate::book::Book;
use crate::offsets::BookLayout;
use big_endian::read_number;
use refusals::Refusal;

#[derive(Clone, Copy, Debug, PartialEq, Eq)]
pub struct Sizes {
    pub capacity: u64,
    pub count: u64,
}

impl BookLayout {
    // The book that these bytes are, or what is wrong with its sizes.
    #[tactic(auto, unfolding(refusals::specs::Response::respond))]
    pub fn examine(self, bytes: &[u8]) -> Result<Book<'_>, Refusal>
        ensures response { let l = self.plain in
            let b = bytes.now in
            examined result ≡ respond (book_cases l b) (sizes_capacity l b ∷ sizes_count l b ∷ []) }
        ensures same { IfOk result (λ b. (b.layout ≡ self) × (b.bytes.now ≡ bytes.now)) }
    {
        if bytes.len() < self.header() {
            return Err(Refusal::BookSize);
        }
        let capacity = read_number(bytes, self.plain.lead, self.plain.width);
        let count = read_number(bytes, self.count_offset(), self.plain.width);
        if self.wrong_size(bytes.len(), capacity) {
            return Err(Refusal::BookSize);
        }
        if capacity < count {
            return Err(Refusal::CountAboveCapacity);
        }
        Ok(Book {
            layout: self,
            bytes,
            sizes: Sizes { capacity, count },
        })
    }
}
