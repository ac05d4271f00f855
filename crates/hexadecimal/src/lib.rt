// Bytes written in hexadecimal.
#![tactic(auto)]

ghost use Rattle.std.specs.Prelude.{◌≡◌, ◌<◌, IfSome, position, ◌==◌};
ghost use Rattle.std.specs.Option.{option_map};
ghost use Rattle.hexadecimal.specs.Hex.{digit_of, byte_of, bytes_of};

use arrayvec::ArrayVec;

// The value of a digit in lower or upper case: its index among the sixteen of its case.
#[tactic(auto, unfolding(crate::specs::Hex::digit_of))]
fn digit(b: u8) -> Option<u8>
    ensures value { result ≡ digit_of b }
    ensures below { IfSome result (λ value. value < 16) }
{
    let index = find(b"0123456789abcdef0123456789ABCDEF", b)?;
    Some((index % 16) as u8)
}

// The index of the first b among digits: a function of its own, since within `digit` the proof of its value did not close.
fn find(digits: &[u8], b: u8) -> Option<usize>
    ensures { result ≡ position (λ digit. digit == b) digits.now }
{
    digits.iter().position(|digit| *digit == b)
}

// The byte that two digits write.
#[tactic(auto, unfolding(crate::specs::Hex::byte_of))]
fn pair(high: u8, low: u8) -> Option<u8>
    ensures { result ≡ byte_of (digit_of high) (digit_of low) }
{
    Some(16 * digit(high)? + digit(low)?)
}

// The bytes that a text writes, 64 at the most.
#[tactic(auto, using(crate::proofs::Pairs::laws))]
pub fn decode(text: &[u8]) -> Option<ArrayVec<u8, 64>>
    ensures { option_map (λ bytes. bytes.items) result ≡ bytes_of text.now }
{
    let odd = text.len() % 2 == 1;
    if odd || text.len() > 128 {
        return None;
    }
    let mut bytes = ArrayVec::new();
    for digits in text.chunks_exact(2) {
        bytes.push(pair(digits[0], digits[1])?);
    }
    Some(bytes)
}
