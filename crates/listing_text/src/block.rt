// The lines of sheets one after another.
ghost use Rattle.std.specs.Prelude.{◌≡◌, ◌+◌, ◌*◌, ◌≤◌, length};
ghost use Rattle.listing_text.specs.Listing.{header, chunks, lines_of};

use crate::sheet_line::put_line;
use text::TextSink;

// Puts the header.
pub fn put_header<S: TextSink>(text: &mut S)
    requires { S.filled text.old + length header ≤ S.room text.old }
    ensures { text.new ≡ S.with_text text.old header }
{
    text.put(b"line shape mm loss surface upto\n");
}

// Puts the lines of all sheets. What follows the last whole sheet has a line of its own.
pub fn put_lines<S: TextSink>(text: &mut S, sheets: &[u8])
    requires { S.filled text.old + 108 * chunks sheets.now ≤ S.room text.old }
    ensures written { text.new ≡ S.with_text text.old (lines_of sheets.now) }
    ensures upper_bound { S.filled text.new ≤ S.filled text.old + 108 * chunks sheets.now }
{
    for sheet in sheets.chunks(24) {
        put_line(text, sheet);
    }
}
