// A line of the listing.
ghost use Rattle.std.specs.Prelude.{◌≡◌, ◌+◌, ◌≤◌};
ghost use Rattle.sheet.specs.Refusals.{response_to};
ghost use Rattle.answer_text.specs.Response.{spaced, response_text};
ghost use Rattle.listing_text.specs.Line.{line_number_text, line_of};

use answer_text::{put_answer, put_refusal};
use big_endian::unsigned;
use outcome::work_out;
use text::TextSink;

// Puts the line for a sheet. A line has no more than 108 bytes.
#[tactic(auto, unfolding(crate::specs::Line::line_of))]
pub fn put_line<S: TextSink>(text: &mut S, sheet: &[u8])
    requires { S.filled text.old + 108 ≤ S.room text.old }
    ensures written { text.new ≡ S.with_text text.old (line_of sheet.now) }
    ensures upper_bound { S.filled text.new ≤ S.filled text.old + 108 }
{
    put_line_number(text, sheet);
    put_response(text, sheet);
    text.put(b"\n");
}

// The line number, and a space.
fn put_line_number<S: TextSink>(text: &mut S, sheet: &[u8])
    requires { S.filled text.old + 21 ≤ S.room text.old }
    ensures written { text.new ≡ S.with_text text.old (spaced (line_number_text sheet.now)) }
    ensures upper_bound { S.filled text.new ≤ S.filled text.old + 21 }
{
    if sheet.len() == 24 {
        return text.put_decimal_and(unsigned(sheet, 2), b' ');
    }
    text.put(b"- ");
}

// What a sheet comes to.
fn put_response<S: TextSink>(text: &mut S, sheet: &[u8])
    requires { S.filled text.old + 86 ≤ S.room text.old }
    ensures written { text.new ≡ S.with_text text.old (response_text (response_to sheet.now)) }
    ensures upper_bound { S.filled text.new ≤ S.filled text.old + 86 }
{
    match work_out(sheet) {
        Ok(answer) => put_answer(text, &answer.encode()),
        Err(why) => put_refusal(text, why),
    }
}
