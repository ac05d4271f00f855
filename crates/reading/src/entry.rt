// An entry as it is stored, and whether it is a sheet with its answer.
ghost use Rattle.std.specs.Prelude.{◌≡◌, ◌+◌, ◌≤◌, ◌++◌, length, IfOk};
ghost use Rattle.overlay.specs.Overlay.{part};
ghost use Rattle.refusals.specs.Returned.{response_of};
ghost use Rattle.kinds.specs.Kind.{sheet_size};
ghost use Rattle.sheet.specs.Refusals.{response_as};
ghost use Rattle.book.specs.Book.{stored_sheet, stored_answer};
ghost use Rattle.book.specs.Refusals.{gives, reading};

use kinds::Kind;
use layout::BookLayout;
use outcome::work_out_as;
use refusals::Refusal;

// An entry's two slots.
#[derive(Clone, Copy)]
pub(crate) struct Entry<'a> {
    pub sheet: &'a [u8],
    pub answer: &'a [u8],
}

// The entry of this number in the book that these bytes are in a layout, after working its sheet out again. Inlined: of a standard book the
// layout is known then, and reading takes some 15 to 20 ns less.
#[inline(always)]
#[tactic(auto, unfolding(refusals::specs::Response::respond))]
pub(crate) fn entry_in(layout: BookLayout, bytes: &[u8], number: u64) -> Result<Entry<'_>, Refusal>
    ensures response { response_of (λ e. e.sheet.now ++ e.answer.now) result ≡ reading layout.plain bytes.now number }
    ensures stored { let l = layout.plain in
        IfOk result (λ e. (e.sheet.now ≡ stored_sheet l bytes.now number) × (e.answer.now ≡ stored_answer l bytes.now number)) }
    ensures sizes { IfOk result (λ e. (length e.sheet.now ≡ sheet_size layout.plain.sheets) × (length e.answer.now ≡ 8)) }
{
    let sizes = layout.examine(bytes)?.sizes;
    if sizes.count <= number {
        return Err(Refusal::NoSuchEntry);
    }
    let sheet_offset = layout.sheet_offset(number);
    let answer_offset = layout.answer_offset(sizes.capacity, number);
    let kind = layout.plain.sheets;
    let sheet = slot(bytes, sheet_offset, kind.sheet_size());
    let answer = slot(bytes, answer_offset, 8);
    let right = is_answer(kind, sheet, answer);
    if right {
        Ok(Entry { sheet, answer })
    } else {
        Err(Refusal::EntryUnsound)
    }
}

// The bytes of a slot.
fn slot(book: &[u8], offset: usize, size: usize) -> &[u8]
    requires { offset + size ≤ length book.now }
    ensures { (result.now ≡ part book.now offset size) × (length result.now ≡ size) }
{
    let end = offset + size;
    &book[offset..end]
}

// Whether the sheet of this kind is answered, and with these bytes. Not `is_ok_and`: tried, and the proof that the bytes decide did not
// close.
fn is_answer(kind: Kind, sheet: &[u8], filed: &[u8]) -> bool
    ensures { result ≡ gives (response_as kind sheet.now) filed.now }
{
    match work_out_as(kind, sheet) {
        Ok(answer) => answer.encode().as_slice() == filed,
        Err(_) => false,
    }
}
