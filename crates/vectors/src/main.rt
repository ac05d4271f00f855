// Runs the vectors on standard input and compares. A vector is a line of text: its name, the bytes of a sheet in hexadecimal (`-` for no
// bytes), and what is expected: the word refused and a number, or the eight bytes of an answer in hexadecimal.
#![tactic(auto)]

ghost use Rattle.std.specs.Prelude.{OnOk};
ghost use Rattle.std.specs.Io.KnownBytes.{Appends, IsAtEnd};
ghost use Rattle.listing_text.specs.Line.{line_of};

use arrayvec::ArrayVec;
use hexadecimal::decode;
use outcome::work_out;
use std::io;
use streams::{Failure, complain_to, fill, write};

// Writes the sheet's line of the listing.
fn list<W: io::Write>(out: &mut W, sheet: &[u8]) -> Result<(), Failure>
    ensures { OnOk result (Appends (W.contents out.old) (W.contents out.new) (line_of sheet.now)) }
{
    let mut line: ArrayVec<u8, 128> = ArrayVec::new();
    listing_text::put_line(&mut line, sheet);
    write(out, line.as_slice())
}

// Is the text hexadecimal, and are these its bytes?
fn writes(text: &[u8], bytes: &[u8]) -> bool {
    decode(text).is_some_and(|decoded| decoded.as_slice() == bytes)
}

// Does the sheet come to what is expected?
fn comes_to(sheet: &[u8], expected: &[u8]) -> bool {
    match work_out(sheet) {
        Ok(answer) => writes(expected, &answer.encode()),
        Err(why) => {
            let mut text: ArrayVec<u8, 28> = ArrayVec::new();
            answer_text::put_refusal(&mut text, why);
            text.as_slice() == expected
        }
    }
}

// Says whether the sheet comes to what is expected, and lists it. Returns whether it does.
fn compare(out: &mut impl io::Write, sheet: &[u8], expected: &[u8]) -> Result<bool, Failure> {
    let passed = comes_to(sheet, expected);
    if passed {
        write(out, b" ok: ")?;
    } else {
        write(out, b" FAILED, expected ")?;
        write(out, expected)?;
        write(out, b": ")?;
    }
    list(out, sheet)?;
    Ok(passed)
}

// Says that a part of the vector is not hexadecimal.
fn fail(out: &mut impl io::Write, part: &[u8]) -> Result<bool, Failure> {
    write(out, b" FAILED: the ")?;
    write(out, part)?;
    write(
        out,
        b" is not hexadecimal, two digits a byte and 64 bytes at most\n",
    )?;
    Ok(false)
}

// The digits of a sheet: `-` stands for none.
fn digits(text: &[u8]) -> &[u8] {
    if text == b"-".as_slice() { &[] } else { text }
}

// Is a refusal expected, or hexadecimal text? No digit is an r.
fn readable(expected: &[u8]) -> bool {
    expected.starts_with(b"r") || decode(expected).is_some()
}

// Runs the sheet of a vector, and returns whether it passed.
fn run_sheet(out: &mut impl io::Write, text: &[u8], expected: &[u8]) -> Result<bool, Failure> {
    let Some(sheet) = decode(digits(text)) else {
        return fail(out, b"sheet");
    };
    if !readable(expected) {
        return fail(out, b"answer");
    }
    compare(out, sheet.as_slice(), expected)
}

// Runs the vector of a line: says whether it passed, and lists its sheet.
fn run_vector(out: &mut impl io::Write, line: &[u8]) -> Result<bool, Failure> {
    let mut parts = line.splitn(3, |byte| *byte == b' ');
    let name = parts.next().unwrap_or(&[]);
    let sheet = parts.next().unwrap_or(&[]);
    let expected = parts.next().unwrap_or(&[]);
    write(out, name)?;
    run_sheet(out, sheet, expected)
}

// Says how many vectors there were and how many of them failed.
fn sum_up(rt: &impl Print, count: u64, failed: u64) -> Result<(), Failure> {
    println!(rt; "{count} vectors, {failed} failed").map_err(|_| Failure::Write)
}

// Runs the vectors of all lines. With a bound in place of the runtime the loop's proof does not close.
fn run(rt: &HostRuntime, vectors: &[u8]) -> Result<(), Failure> {
    let mut count = 0;
    let mut failed = 0;
    let mut out = io::writer(rt);
    for line in vectors.split_inclusive(|byte| *byte == b'\n') {
        let vector = line.strip_suffix(b"\n").unwrap_or(line);
        if !run_vector(&mut out, vector)? {
            failed += 1;
        }
        count += 1;
    }
    sum_up(rt, count, failed)
}

// Refuses input that has not ended. Where it has, all of it was read: a read that failed before would have left it.
fn expect_end<R: io::Read>(reader: &mut R) -> Result<(), Failure>
    ensures { OnOk result (IsAtEnd (R.remaining reader.new)) }
{
    match reader.read(&mut [0]) {
        Ok(0) => Ok(()),
        _ => Err(Failure::Read),
    }
}

// The room is an array and a length beside it, since a read fills lent bytes. What `fill` says of a read that failed is not needed:
// `expect_end` finds it out.
fn main(rt: HostRuntime) {
    let mut room = [0; 327680];
    let mut input = rt.stdin();
    let (length, _) = fill(&mut input, &mut room);
    if length == room.len() {
        let _ = complain_to(
            &mut io::writer(&rt.stderr()),
            b"vectors",
            b"more than 327,679 bytes",
        );
        return;
    }
    if let Err(failure) = expect_end(&mut input).and_then(|_| run(&rt, &room[..length])) {
        let _ = complain_to(&mut io::writer(&rt.stderr()), b"vectors", failure.words());
    }
}
