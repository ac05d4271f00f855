// A new book.
ghost use Rattle.std.specs.Prelude.{◌≡◌, []};
ghost use Rattle.layout.specs.Layout.{layout_of};
ghost use Rattle.book.specs.Refusals.{making, made};
ghost use Rattle.refusals.specs.Returned.{response_with};

use big_endian::write_number;
use kinds::Kind;
use layout::BookLayout;
use refusals::Refusal;

// Makes the lent bytes a new book of this kind and capacity.
#[tactic(auto, unfolding(refusals::specs::Response::respond, crate::specs::Book::new_book))]
pub fn new_book(kind: Kind, book: &mut [u8], capacity: u64) -> Result<(), Refusal>
    ensures response { response_with result [] ≡ making (layout_of kind) book.old capacity }
    ensures book_after { book.new ≡ made (layout_of kind) book.old capacity }
{
    let layout = BookLayout::of(kind);
    if layout.wrong_size(book.len(), capacity) {
        return Err(Refusal::BookSize);
    }
    book.fill(0);
    write_number(book, layout.plain.lead, layout.plain.width, capacity);
    Ok(())
}
