// Prints the annex for the printer. No Display: see `text`.
#![tactic(auto)]

ghost use Rattle.std.specs.Prelude.{◌≡◌, ◌+◌, ◌*◌, ◌≤◌, ◌++◌, length};
ghost use Rattle.annex_tables.specs.Annex.{entries};
ghost use Rattle.text.specs.Text.{concatenated};
ghost use Rattle.annex.specs.Page.{line, entry_line, limits_line, page};

use arrayvec::ArrayVec;
use fractions::Bounds;
use std::io;
use streams::{complain_to, write};
use text::TextSink;

// Puts the line of a whole millimetre.
fn put_line<const N: usize>(text: &mut ArrayVec<u8, N>, mm: u64, figures: Bounds)
    requires { length text.old.items + 63 ≤ N }
    ensures written { text.new.items ≡ text.old.items ++ line mm figures }
    ensures upper_bound { length text.new.items ≤ length text.old.items + 63 }
{
    text.put_decimal_and(mm, b' ');
    text.put_decimal_and(figures.lower, b' ');
    text.put_decimal_and(figures.upper, b'\n');
}

// Puts the lines of all entries.
#[tactic(auto, using(text::proofs::Concatenated::concatenations))]
fn put_figures<const N: usize>(text: &mut ArrayVec<u8, N>)
    requires { length text.old.items + 63 * entries ≤ N }
    ensures written { text.new.items ≡ text.old.items ++ concatenated entry_line entries }
    ensures upper_bound { length text.new.items ≤ length text.old.items + 63 * entries }
{
    for k in 0..annex_tables::ENTRIES {
        put_line(text, 10 + k as u64, annex_tables::entry(k));
    }
}

// Puts the loss limits on one line.
#[tactic(auto, using(text::proofs::Concatenated::concatenations))]
fn put_limits<const N: usize>(text: &mut ArrayVec<u8, N>)
    requires { length text.old.items + 26 * 21 ≤ N }
    ensures written { text.new.items ≡ text.old.items ++ limits_line }
    ensures upper_bound { length text.new.items ≤ length text.old.items + 26 * 21 }
{
    let table = limits::flat_table();
    for limit in &table[..25] {
        text.put_decimal_and(*limit, b' ');
    }
    text.put_decimal_and(table[25], b'\n');
}

// Puts the whole page.
fn put_page<const N: usize>(text: &mut ArrayVec<u8, N>)
    requires { length text.old.items + 14 + 63 * entries + 7 + 26 * 21 ≤ N }
    ensures written { text.new.items ≡ text.old.items ++ page }
    ensures upper_bound { length text.new.items ≤ length text.old.items + 14 + 63 * entries + 7 + 26 * 21 }
{
    text.put(b"mm under over\n");
    put_figures(text);
    text.put(b"limits\n");
    put_limits(text);
}

fn main(rt: HostRuntime) {
    let mut text: ArrayVec<u8, 131072> = ArrayVec::new();
    put_page(&mut text);
    if let Err(failure) = write(&mut io::writer(&rt), text.as_slice()) {
        let _ = complain_to(&mut io::writer(&rt.stderr()), b"annex", failure.words());
    }
}
