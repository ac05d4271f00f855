// Lists the sheets that stand one after another on standard input: a header, and a line for each.
#![tactic(auto)]

ghost use Rattle.std.specs.Prelude.{◌≡◌, if◌then◌else◌, ◌-◌, ◌*◌, ◌%◌, ◌≤◌, length, IfOk, OnOk};
ghost use Rattle.std.specs.Io.KnownBytes.{Appends};
ghost use Rattle.listing_text.specs.Listing.{lines_of};
ghost use Rattle.listing.specs.Block.{ListsBlock, ListsAll};

use arrayvec::ArrayVec;
use std::io;
use streams::{Failure, complain_to, fill, write};

// How many bytes of a block are listed: all, but where a read failed no more than the whole sheets.
fn listed_length(length: usize, failed: bool) -> usize
    ensures value { result ≡ (if failed then length - length % 24 else length) }
    ensures upper_bound { result ≤ length }
{
    if failed {
        return length - length % 24;
    }
    length
}

// Writes the lines of a block of at most 512 sheets, which it puts in the text first. The functions that list take the stream, the block and
// the text one by one: a struct of the three would be no plainer, since nothing else takes it and each borrow is of one part.
fn list<W: io::Write>(
    out: &mut W,
    sheets: &[u8],
    text: &mut ArrayVec<u8, 65536>,
) -> Result<(), Failure>
    requires { length sheets.now ≤ 512 * 24 }
    ensures lines { text.new.items ≡ lines_of sheets.now }
    ensures written { OnOk result (Appends (W.contents out.old) (W.contents out.new) (lines_of sheets.now)) }
{
    text.clear();
    listing_text::put_lines(text, sheets);
    write(out, text.as_slice())
}

// Reads a block and lists it, and returns whether more may follow, which is so only where the block was filled.
fn list_block<W: io::Write, R: io::Read>(
    out: &mut W,
    reader: &mut R,
    block: &mut [u8; 12_288],
    text: &mut ArrayVec<u8, 65536>,
) -> Result<bool, Failure>
    ensures { IfOk result (ListsBlock (R.remaining reader.old) (R.remaining reader.new) (W.contents out.old) (W.contents out.new)) }
{
    let (length, read) = fill(reader, block);
    let listed = listed_length(length, read.is_err());
    list(out, &block[..listed], text)?;
    read?;
    Ok(length == block.len())
}

// Lists the header, and block after block. A proved loop has to end, so it counts its turns, up to a number that no run reaches.
#[tactic(auto, using(crate::proofs::Blocks::blocks))]
fn list_all<W: io::Write, R: io::Read>(
    out: &mut W,
    reader: &mut R,
    block: &mut [u8; 12_288],
    text: &mut ArrayVec<u8, 65536>,
) -> Result<(), Failure>
    ensures { OnOk result (ListsAll (R.remaining reader.old) (W.contents out.old) (W.contents out.new)) }
{
    text.clear();
    listing_text::put_header(text);
    write(out, text.as_slice())?;
    for _ in 0..u64::MAX {
        if !list_block(out, reader, block, text)? {
            break;
        }
    }
    Ok(())
}

// The block is an array and a length beside it, since a read fills lent bytes.
fn main(rt: HostRuntime) {
    let mut block = [0; 12_288];
    let mut text = ArrayVec::new();
    if let Err(failure) = list_all(&mut io::writer(&rt), &mut rt.stdin(), &mut block, &mut text) {
        let _ = complain_to(&mut io::writer(&rt.stderr()), b"listing", failure.words());
    }
}
