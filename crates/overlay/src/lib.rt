// Bytes put over lent bytes.
#![tactic(auto)]

ghost use Rattle.std.specs.Prelude.{◌+◌, ◌≤◌, length};
ghost use Rattle.overlay.specs.Overlay.{Written};

// Puts the bytes of piece from an offset on, and returns where they end.
#[tactic(auto, using(crate::proofs::Overlay::put_back))]
pub fn put(out: &mut [u8], offset: usize, piece: &[u8]) -> usize
    requires { offset + length piece.now ≤ length out.old }
    ensures { Written out.old offset piece.now out.new result }
{
    let end = offset + piece.len();
    out[offset..end].copy_from_slice(piece);
    end
}
