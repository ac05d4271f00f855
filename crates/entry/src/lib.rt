// The entry that a filing makes.
#![tactic(auto)]

ghost use Rattle.std.specs.Prelude.{◌≡◌, ◌<◌, length};
ghost use Rattle.answer.specs.Answer.{encoded};
ghost use Rattle.kinds.specs.Kind.{sheet_size};
ghost use Rattle.layout.specs.SoundBook.{SoundBook};
ghost use Rattle.book.specs.Book.{with_entry};

use answer::Answer;
use big_endian::write_number;
use layout::{BookLayout, Sizes};
use overlay::put;

// Files a sheet with its answer where there is room: writes slot n of both arrays and raises the count by one.
pub fn enter(layout: BookLayout, book: &mut [u8], sizes: Sizes, sheet: &[u8], answer: Answer)
    requires sound_book { SoundBook layout.plain book.old sizes }
    requires fits { (sizes.count < sizes.capacity) × (length sheet.now ≡ sheet_size layout.plain.sheets) }
    ensures { book.new ≡ with_entry layout.plain book.old sheet.now (encoded answer) }
{
    let sheet_offset = layout.sheet_offset(sizes.count);
    let answer_offset = layout.answer_offset(sizes.capacity, sizes.count);
    let bytes = answer.encode();
    put(book, sheet_offset, sheet);
    put(book, answer_offset, &bytes);
    write_number(
        book,
        layout.count_offset(),
        layout.plain.width,
        sizes.count + 1,
    );
}
