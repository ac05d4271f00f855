// Standard streams: input in blocks, and what a program says where it has to stop.
#![tactic(auto)]

ghost use Rattle.std.specs.Prelude.{◌≡◌, ◌+◌, ◌<◌, ◌≤◌, length, take, drop, Some, IfOk, IfErr, OnOk, OnErr};
ghost use Rattle.std.specs.Io.KnownBytes.{Appends, Consumes, Keeps, IsAtEnd};
ghost use Rattle.streams.specs.declared.Failure.TheVariants.{Read, Write};
ghost use Rattle.streams.specs.Message.{words, complaint};

#[cfg(test)]
mod tests;

use arrayvec::ArrayVec;
use std::{fmt, io};
use text::TextSink;

// Why a program stops.
#[derive(Clone, Copy, Debug, PartialEq, Eq)]
pub enum Failure {
    Read,
    Write,
}

impl Failure {
    // What a program says of it.
    pub fn words(self) -> &'static [u8]
        ensures { result.now ≡ words self }
    {
        match self {
            Failure::Read => b"cannot read",
            Failure::Write => b"cannot write",
        }
    }
}

impl fmt::Display for Failure {
    ghost output = { λ failure. Some (words failure) };

    fn fmt<W: fmt::Write>(&self, f: &mut fmt::Formatter<W>) -> fmt::Result {
        f.write_str(str::from_utf8(self.words()).unwrap())
    }
}

// Reads until the block is full, the input ends or a read fails. Returns how many bytes that brought, and beside it whether no read failed:
// what came before a read that failed counts too.
// A loop of its own: no method of io::Read that fills lent bytes says how much came before the input ended; `read_to_end` needs the heap.
#[tactic(auto, using(crate::proofs::Consumed::more))]
pub fn fill<R: io::Read>(reader: &mut R, block: &mut [u8]) -> (usize, Result<(), Failure>)
    ensures within { result.0 ≤ length block.new }
    ensures size { length block.new ≡ length block.old }
    ensures bytes { Consumes (R.remaining reader.old) (R.remaining reader.new) (take result.0 block.new) }
    ensures end { OnOk result.1 (result.0 < length block.new → IsAtEnd (R.remaining reader.new)) }
    ensures err { IfErr result.1 (λ failure. failure ≡ Read) }
    ensures room { OnErr result.1 (result.0 < length block.new) }
{
    let mut length = 0;
    while length < block.len() {
        match read_from(reader, block, length) {
            Ok(0) => return (length, Ok(())),
            Ok(count) => length += count,
            Err(_) => return (length, Err(Failure::Read)),
        }
    }
    (length, Ok(()))
}

// One read into a block, from an offset on.
#[tactic(auto, using(crate::proofs::Consumed::part_read))]
fn read_from<R: io::Read>(reader: &mut R, block: &mut [u8], offset: usize) -> io::Result<usize>
    requires { offset < length block.old }
    ensures size { length block.new ≡ length block.old }
    ensures front { take offset block.new ≡ take offset block.old }
    ensures within { IfOk result (λ count. offset + count ≤ length block.new) }
    ensures ok { IfOk result (λ count. Consumes (R.remaining reader.old) (R.remaining reader.new) (take count (drop offset block.new))) }
    ensures err { OnErr result (Keeps (R.remaining reader.old) (R.remaining reader.new)) }
    ensures end { IfOk result (λ count. count ≡ 0 → IsAtEnd (R.remaining reader.new)) }
{
    reader.read(&mut block[offset..])
}

// Writes the bytes.
pub fn write<W: io::Write>(out: &mut W, bytes: &[u8]) -> Result<(), Failure>
    ensures ok { OnOk result (Appends (W.contents out.old) (W.contents out.new) bytes.now) }
    ensures err { IfErr result (λ failure. failure ≡ Write) }
{
    out.write_all(bytes).map_err(|_| Failure::Write)
}

// Says on standard error why a program stops, if that can be written. No contract: `Eprint` promises nothing of what it prints; `complain_to`
// promises its message.
pub fn complain(rt: &impl Eprint, program: &str, why: &impl fmt::Display) {
    let _ = eprintln!(rt; "{program}: {why}");
}

// Says why a program stops: in one write where the message has at most 64 bytes, as all messages of the programs have.
pub fn complain_to<W: io::Write>(to: &mut W, program: &[u8], why: &[u8]) -> Result<(), Failure>
    ensures ok { OnOk result (Appends (W.contents to.old) (W.contents to.new) (complaint program.now why.now)) }
    ensures err { IfErr result (λ failure. failure ≡ Write) }
{
    if program.len() + why.len() <= 61 {
        complain_at_once(to, program, why)
    } else {
        complain_in_pieces(to, program, why)
    }
}

// In one write.
fn complain_at_once<W: io::Write>(to: &mut W, program: &[u8], why: &[u8]) -> Result<(), Failure>
    requires { length program.now + length why.now ≤ 61 }
    ensures ok { OnOk result (Appends (W.contents to.old) (W.contents to.new) (complaint program.now why.now)) }
    ensures err { IfErr result (λ failure. failure ≡ Write) }
{
    let mut text: ArrayVec<u8, 64> = ArrayVec::new();
    text.put(program);
    text.put(b": ");
    text.put(why);
    text.put(b"\n");
    write(to, text.as_slice())
}

// In a write for each of its parts.
#[tactic(auto, using(crate::proofs::Message::in_pieces))]
fn complain_in_pieces<W: io::Write>(to: &mut W, program: &[u8], why: &[u8]) -> Result<(), Failure>
    ensures ok { OnOk result (Appends (W.contents to.old) (W.contents to.new) (complaint program.now why.now)) }
    ensures err { IfErr result (λ failure. failure ≡ Write) }
{
    write(to, program)?;
    write(to, b": ")?;
    write(to, why)?;
    write(to, b"\n")
}
