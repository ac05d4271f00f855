// The words and figures of an answer. The codes are numbers, and no enums, since an answer is printed from its eight bytes, which may hold any
// codes (01): an enum would need a variant for all others, and be no plainer.
ghost use Rattle.std.specs.Prelude.{◌≡◌, ◌+◌, ◌≤◌};
ghost use Rattle.answer_text.specs.Response.{shape_word, check_word, tenths, degrees, spaced};

use temperatures::Temperature;
use text::TextSink;

// The word for a shape, and a space.
pub(crate) fn put_shape<S: TextSink>(text: &mut S, code: u8)
    requires { S.filled text.old + 9 ≤ S.room text.old }
    ensures written { text.new ≡ S.with_text text.old (spaced (shape_word code)) }
    ensures upper_bound { S.filled text.new ≤ S.filled text.old + 9 }
{
    match code {
        1 => text.put(b"cylinder "),
        _ => text.put(b"flat "),
    }
}

// The word for a check, and a space.
pub(crate) fn put_check<S: TextSink>(text: &mut S, code: u8)
    requires { S.filled text.old + 7 ≤ S.room text.old }
    ensures written { text.new ≡ S.with_text text.old (spaced (check_word code)) }
    ensures upper_bound { S.filled text.new ≤ S.filled text.old + 7 }
{
    match code {
        0 => text.put(b"within "),
        1 => text.put(b"over "),
        2 => text.put(b"close "),
        _ => text.put(b"none "),
    }
}

// Tenths as a decimal number.
fn put_tenths<S: TextSink>(text: &mut S, n: u64)
    requires { S.filled text.old + 41 ≤ S.room text.old }
    ensures written { text.new ≡ S.with_text text.old (tenths n) }
    ensures upper_bound { S.filled text.new ≤ S.filled text.old + 41 }
{
    text.put_decimal(n / 10);
    text.put(b".");
    text.put_decimal(n % 10);
}

// A temperature in degrees.
pub(crate) fn put_degrees<S: TextSink>(text: &mut S, t: Temperature)
    requires { S.filled text.old + 42 ≤ S.room text.old }
    ensures written { text.new ≡ S.with_text text.old (degrees t) }
    ensures upper_bound { S.filled text.new ≤ S.filled text.old + 42 }
{
    let below = t.0 < Temperature::ZERO;
    if below {
        text.put(b"-");
        return put_tenths(text, (Temperature::ZERO - t.0) as u64);
    }
    put_tenths(text, (t.0 - Temperature::ZERO) as u64);
}
