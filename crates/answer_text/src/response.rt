// An answer or a refusal, as text.
ghost use Rattle.std.specs.Prelude.{◌≡◌, ◌+◌, ◌≤◌, length};
ghost use Rattle.refusals.specs.Numbers.{number_of};
ghost use Rattle.refusals.specs.Response.{refused};
ghost use Rattle.answer_text.specs.Response.{checks_text, answer_text, response_text};

use crate::words::{put_check, put_degrees, put_shape};
use big_endian::unsigned;
use refusals::Refusal;
use temperatures::Temperature;
use text::TextSink;

// Puts the word refused and the refusal's number.
pub fn put_refusal<S: TextSink>(text: &mut S, why: Refusal)
    requires { S.filled text.old + 28 ≤ S.room text.old }
    ensures written { text.new ≡ S.with_text text.old (response_text (refused (number_of why))) }
    ensures upper_bound { S.filled text.new ≤ S.filled text.old + 28 }
{
    text.put(b"refused ");
    text.put_decimal(why.number() as u64);
}

// Puts the eight bytes of an answer in words and figures.
pub fn put_answer<S: TextSink>(text: &mut S, answer: &[u8])
    requires { (length answer.now ≡ 8) × (S.filled text.old + 86 ≤ S.room text.old) }
    ensures written { text.new ≡ S.with_text text.old (answer_text answer.now) }
    ensures upper_bound { S.filled text.new ≤ S.filled text.old + 86 }
{
    put_shape(text, answer[1]);
    text.put_decimal_and(unsigned(answer, 2), b' ');
    put_checks(text, answer);
}

// The two checks of an answer, and its surface bound.
fn put_checks<S: TextSink>(text: &mut S, answer: &[u8])
    requires { (length answer.now ≡ 8) × (S.filled text.old + 56 ≤ S.room text.old) }
    ensures written { text.new ≡ S.with_text text.old (checks_text answer.now) }
    ensures upper_bound { S.filled text.new ≤ S.filled text.old + 56 }
{
    put_check(text, answer[4]);
    put_check(text, answer[5]);
    put_degrees(text, Temperature::decode(unsigned(answer, 6)));
}
