// The calls that `kennelday_c` exports for Rust and C, word for word. Each returns a number and no Result, as the C interface needs: 0, or
// that of the refusal. A refused call leaves every lent byte as it was.
#![tactic(auto)]

ghost use Rattle.std.specs.Prelude.{◌≡◌, ℕ, List};
ghost use Rattle.std.specs.Result.{MatchResult};
ghost use Rattle.refusals.specs.Response.{after};
ghost use Rattle.kinds.specs.declared.Kind.TheVariants.{Larger};
ghost use Rattle.overlay.specs.Overlay.{overlay};
ghost use Rattle.sheet.specs.Refusals.{response_as, response_to};
ghost use Rattle.outcome.specs.Outcome.{response};
ghost use Rattle.layout.specs.Layout.{standard, larger};
ghost use Rattle.layout.specs.OwnKind.{own_layout};
ghost use Rattle.book.specs.Book.{stored_sheet, stored_answer};
ghost use Rattle.refusals.specs.Returned.{response_of};
ghost use Rattle.book.specs.Refusals.{making, made, reading, filing_either, filed_either, reading_either};
ghost use Rattle.amortization.specs.Share.{exact_share};
ghost use Rattle.amortization.specs.Refusals.{share_response};
ghost use Rattle.kennelday.specs.Code.{code, handed};

use amortization::share as yearly_share;
use answer::Answer;
use book::new_book;
use filing::file;
use kinds::Kind;
use outcome::{work_out, work_out_as};
use reading::{read, read_either};
use refusals::Refusal;

// The answer to a standard sheet.
pub fn kd_answer(sheet: &[u8], answer: &mut [u8; 8]) -> u8
    ensures value { result ≡ code (response_to sheet.now) }
    ensures answer_after { answer.new ≡ handed (response_to sheet.now) answer.old }
{
    hand_over(encoded(work_out(sheet)), answer)
}

// The answer to a larger sheet.
pub fn kd_answer_larger(sheet: &[u8], answer: &mut [u8; 8]) -> u8
    ensures value { result ≡ code (response_as Larger sheet.now) }
    ensures answer_after { answer.new ≡ handed (response_as Larger sheet.now) answer.old }
{
    hand_over(encoded(work_out_as(Kind::Larger, sheet)), answer)
}

// A new standard book.
pub fn kd_new_book(book: &mut [u8], capacity: u64) -> u8
    ensures value { result ≡ code (making standard book.old capacity) }
    ensures book_after { book.new ≡ made standard book.old capacity }
{
    hand_over(new_book(Kind::Standard, book, capacity), &mut ())
}

// A new larger book.
pub fn kd_new_larger_book(book: &mut [u8], capacity: u64) -> u8
    ensures value { result ≡ code (making larger book.old capacity) }
    ensures book_after { book.new ≡ made larger book.old capacity }
{
    hand_over(new_book(Kind::Larger, book, capacity), &mut ())
}

// A sheet filed with its answer, in a book of either kind.
pub fn kd_file(book: &mut [u8], sheet: &[u8], answer: &mut [u8; 8]) -> u8
    ensures value { result ≡ code (filing_either book.old sheet.now) }
    ensures book_after { book.new ≡ filed_either book.old sheet.now }
    ensures answer_after { answer.new ≡ handed (filing_either book.old sheet.now) answer.old }
{
    hand_over(encoded(file(book, sheet)), answer)
}

// An entry of a standard book; a larger one is refused with 31.
pub fn kd_read(book: &[u8], entry: u64, sheet: &mut [u8; 24], answer: &mut [u8; 8]) -> u8
    ensures value { result ≡ code (reading standard book.now entry) }
    ensures sheet_after { sheet.new ≡ after (reading standard book.now entry) (stored_sheet standard book.now entry) sheet.old }
    ensures answer_after { answer.new ≡ after (reading standard book.now entry) (stored_answer standard book.now entry) answer.old }
{
    hand_over(read(book, entry, sheet, answer), &mut ())
}

// An entry of a book of either kind. The sheet of a standard one is put into the first 24 bytes, and the other two stay as they were.
pub fn kd_read_either(book: &[u8], entry: u64, sheet: &mut [u8; 26], answer: &mut [u8; 8]) -> u8
    ensures value { result ≡ code (reading_either book.now entry) }
    ensures sheet_after { let stored = stored_sheet (own_layout book.now) book.now entry in
        sheet.new ≡ after (reading_either book.now entry) (overlay sheet.old 0 stored) sheet.old }
    ensures answer_after { answer.new ≡ after (reading_either book.now entry) (stored_answer (own_layout book.now) book.now entry) answer.old }
{
    hand_over(read_either(book, entry, sheet, answer), &mut ())
}

// The yearly share of an investment.
#[tactic(auto, using(amortization::proofs::Given::given_exact))]
pub fn kd_share(rate: u64, years: u64, share: &mut u16) -> u8
    ensures value { result ≡ code (share_response rate years) }
    ensures share_after { share.new ≡ after (share_response rate years) (exact_share rate years) share.old }
{
    hand_over(yearly_share(rate, years), share)
}

// An outcome with the answer's eight bytes.
fn encoded(outcome: Result<Answer, Refusal>) -> Result<[u8; 8], Refusal>
    ensures { response_of (λ bytes. bytes) result ≡ response outcome }
{
    outcome.map(Answer::encode)
}

// Puts what is given into its place, and returns 0, or the number of the refusal.
fn hand_over<T: Copy>(outcome: Result<T, Refusal>, place: &mut T) -> u8
    ensures value { (values : T → List ℕ) → result ≡ code (response_of values outcome) }
    ensures place_after { MatchResult outcome (λ given. place.new ≡ given) (λ _. place.new ≡ place.old) }
{
    match outcome {
        Ok(given) => {
            *place = given;
            0
        }
        Err(why) => why.number(),
    }
}
