// Reading an entry back.
#![tactic(auto)]

mod entry;

ghost use Rattle.std.specs.Prelude.{◌≡◌, ◌++◌, take};
ghost use Rattle.kinds.specs.Kind.{sheet_size};
ghost use Rattle.overlay.specs.Overlay.{overlay};
ghost use Rattle.refusals.specs.Response.{after};
ghost use Rattle.refusals.specs.Returned.{response_with};
ghost use Rattle.layout.specs.Layout.{standard};
ghost use Rattle.layout.specs.OwnKind.{own_layout};
ghost use Rattle.book.specs.Book.{stored_sheet, stored_answer};
ghost use Rattle.book.specs.Refusals.{reading, reading_either};

use crate::entry::entry_in;
use kinds::Kind;
use layout::BookLayout;
use overlay::put;
use refusals::Refusal;

// Reads an entry of a standard book into the two arrays, which are lent as the C interface lends them, after working its sheet out again. A
// larger book is refused with 31, as an old reader refuses it.
pub fn read(
    book: &[u8],
    entry: u64,
    sheet: &mut [u8; 24],
    answer: &mut [u8; 8],
) -> Result<(), Refusal>
    ensures response { response_with result (sheet.new ++ answer.new) ≡ reading standard book.now entry }
    ensures sheet_after { sheet.new ≡ after (reading standard book.now entry) (stored_sheet standard book.now entry) sheet.old }
    ensures answer_after { answer.new ≡ after (reading standard book.now entry) (stored_answer standard book.now entry) answer.old }
{
    let stored = entry_in(BookLayout::of(Kind::Standard), book, entry)?;
    sheet.copy_from_slice(stored.sheet);
    answer.copy_from_slice(stored.answer);
    Ok(())
}

// The same of a book of either kind. A standard entry's sheet is put into the first 24 bytes, and the other two stay as they were.
pub fn read_either(
    book: &[u8],
    entry: u64,
    sheet: &mut [u8; 26],
    answer: &mut [u8; 8],
) -> Result<(), Refusal>
    ensures response { let size = sheet_size (own_layout book.now).sheets in
        response_with result (take size sheet.new ++ answer.new) ≡ reading_either book.now entry }
    ensures sheet_after { let stored = stored_sheet (own_layout book.now) book.now entry in
        sheet.new ≡ after (reading_either book.now entry) (overlay sheet.old 0 stored) sheet.old }
    ensures answer_after { answer.new ≡ after (reading_either book.now entry) (stored_answer (own_layout book.now) book.now entry) answer.old }
{
    let stored = entry_in(BookLayout::own(book), book, entry)?;
    put(sheet, 0, stored.sheet);
    answer.copy_from_slice(stored.answer);
    Ok(())
}
