// Numbers in bytes, big-endian. Each function takes all bytes and an offset, and no part of them: so a contract says where in a sheet or a book
// a number stands.
#![tactic(auto)]

ghost use Rattle.std.specs.Prelude.{◌≡◌, ◌+◌, ◌^◌, ◌≤◌, ◌<◌, length};
ghost use Rattle.overlay.specs.Overlay.{overlay};
ghost use Rattle.big_endian.specs.Bytes.{big_endian, bytes_of};

// The number in the two bytes from an offset on.
pub fn unsigned(bytes: &[u8], offset: usize) -> u64
    requires { offset + 1 < length bytes.now }
    ensures { (result ≡ big_endian bytes.now offset 2) × (result < 65_536) }
{
    read_number(bytes, offset, 2)
}

// The number in width bytes from an offset on.
#[tactic(auto, using(crate::proofs::Numerals::numbers), unfolding(crate::specs::Bytes::big_endian))]
pub fn read_number(bytes: &[u8], offset: usize, width: usize) -> u64
    requires { (width ≤ 4) × (offset + width ≤ length bytes.now) }
    ensures { (result ≡ big_endian bytes.now offset width) × (result < 256 ^ width) }
{
    let mut n = 0;
    for byte in &bytes[offset..offset + width] {
        n = 256 * n + u64::from(*byte);
    }
    n
}

// Writes n in width bytes from an offset on, the last byte first. By index: after a loop over `iter_mut` of the part, no proof of what it holds
// closed.
#[tactic(auto, using(overlay::proofs::Overlay::nothing), unfolding(crate::specs::Bytes::bytes_of))]
pub fn write_number(bytes: &mut [u8], offset: usize, width: usize, n: u64)
    requires { offset + width ≤ length bytes.old }
    ensures { bytes.new ≡ overlay bytes.old offset (bytes_of width n) }
{
    let mut rest = n;
    for i in (0..width).rev() {
        bytes[offset + i] = (rest % 256) as u8;
        rest /= 256;
    }
}
