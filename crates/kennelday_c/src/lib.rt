// The static library of the calls for Rust and C: each function is the one of that name in `kennelday`, and promises what it promises. The C
// interface has each contract stated twice: an export stands in a static library, which no crate can use.
#![tactic(auto)]

ghost use Rattle.std.specs.Prelude.{◌≡◌};
ghost use Rattle.refusals.specs.Response.{after};
ghost use Rattle.kinds.specs.declared.Kind.TheVariants.{Larger};
ghost use Rattle.overlay.specs.Overlay.{overlay};
ghost use Rattle.sheet.specs.Refusals.{response_as, response_to};
ghost use Rattle.layout.specs.Layout.{standard, larger};
ghost use Rattle.layout.specs.OwnKind.{own_layout};
ghost use Rattle.book.specs.Book.{stored_sheet, stored_answer};
ghost use Rattle.book.specs.Refusals.{making, made, reading, filing_either, filed_either, reading_either};
ghost use Rattle.amortization.specs.Share.{exact_share};
ghost use Rattle.amortization.specs.Refusals.{share_response};
ghost use Rattle.kennelday.specs.Code.{code, handed};

// The answer to a standard sheet.
#[unsafe(no_mangle)]
pub extern "C" fn kd_answer(sheet: &[u8], answer: &mut [u8; 8]) -> u8
    ensures value { result ≡ code (response_to sheet.now) }
    ensures answer_after { answer.new ≡ handed (response_to sheet.now) answer.old }
{
    kennelday::kd_answer(sheet, answer)
}

// The answer to a larger sheet.
#[unsafe(no_mangle)]
pub extern "C" fn kd_answer_larger(sheet: &[u8], answer: &mut [u8; 8]) -> u8
    ensures value { result ≡ code (response_as Larger sheet.now) }
    ensures answer_after { answer.new ≡ handed (response_as Larger sheet.now) answer.old }
{
    kennelday::kd_answer_larger(sheet, answer)
}

// A new standard book.
#[unsafe(no_mangle)]
pub extern "C" fn kd_new_book(book: &mut [u8], capacity: u64) -> u8
    ensures value { result ≡ code (making standard book.old capacity) }
    ensures book_after { book.new ≡ made standard book.old capacity }
{
    kennelday::kd_new_book(book, capacity)
}

// A new larger book.
#[unsafe(no_mangle)]
pub extern "C" fn kd_new_larger_book(book: &mut [u8], capacity: u64) -> u8
    ensures value { result ≡ code (making larger book.old capacity) }
    ensures book_after { book.new ≡ made larger book.old capacity }
{
    kennelday::kd_new_larger_book(book, capacity)
}

// A sheet filed with its answer, in a book of either kind.
#[unsafe(no_mangle)]
pub extern "C" fn kd_file(book: &mut [u8], sheet: &[u8], answer: &mut [u8; 8]) -> u8
    ensures value { result ≡ code (filing_either book.old sheet.now) }
    ensures book_after { book.new ≡ filed_either book.old sheet.now }
    ensures answer_after { answer.new ≡ handed (filing_either book.old sheet.now) answer.old }
{
    kennelday::kd_file(book, sheet, answer)
}

// An entry of a standard book; a larger one is refused with 31.
#[unsafe(no_mangle)]
pub extern "C" fn kd_read(book: &[u8], entry: u64, sheet: &mut [u8; 24], answer: &mut [u8; 8]) -> u8
    ensures value { result ≡ code (reading standard book.now entry) }
    ensures sheet_after { sheet.new ≡ after (reading standard book.now entry) (stored_sheet standard book.now entry) sheet.old }
    ensures answer_after { answer.new ≡ after (reading standard book.now entry) (stored_answer standard book.now entry) answer.old }
{
    kennelday::kd_read(book, entry, sheet, answer)
}

// An entry of a book of either kind. The sheet of a standard one is put into the first 24 bytes, and the other two stay as they were.
#[unsafe(no_mangle)]
pub extern "C" fn kd_read_either(
    book: &[u8],
    entry: u64,
    sheet: &mut [u8; 26],
    answer: &mut [u8; 8],
) -> u8
    ensures value { result ≡ code (reading_either book.now entry) }
    ensures sheet_after { let stored = stored_sheet (own_layout book.now) book.now entry in
        sheet.new ≡ after (reading_either book.now entry) (overlay sheet.old 0 stored) sheet.old }
    ensures answer_after { answer.new ≡ after (reading_either book.now entry) (stored_answer (own_layout book.now) book.now entry) answer.old }
{
    kennelday::kd_read_either(book, entry, sheet, answer)
}

// The yearly share of an investment.
#[unsafe(no_mangle)]
pub extern "C" fn kd_share(rate: u64, years: u64, share: &mut u16) -> u8
    ensures value { result ≡ code (share_response rate years) }
    ensures share_after { share.new ≡ after (share_response rate years) (exact_share rate years) share.old }
{
    kennelday::kd_share(rate, years, share)
}
