// Filing a sheet with its answer.
#![tactic(auto)]

ghost use Rattle.std.specs.Prelude.{◌≡◌};
ghost use Rattle.outcome.specs.Outcome.{response};
ghost use Rattle.book.specs.Refusals.{filing_either, filed_either};

use answer::Answer;
use entry::enter;
use layout::BookLayout;
use outcome::work_out_as;
use refusals::Refusal;

// Works out the sheet, of the kind of the book, and files it with its answer.
pub fn file(book: &mut [u8], sheet: &[u8]) -> Result<Answer, Refusal>
    ensures response { response result ≡ filing_either book.old sheet.now }
    ensures book_after { book.new ≡ filed_either book.old sheet.now }
{
    let layout = BookLayout::own(book);
    let sizes = layout.examine(book)?.sizes;
    if sizes.count == sizes.capacity {
        return Err(Refusal::BookFull);
    }
    let answer = work_out_as(layout.plain.sheets, sheet)?;
    enter(layout, book, sizes, sheet, answer);
    Ok(answer)
}
