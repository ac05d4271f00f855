// A text in lent bytes.
ghost use Rattle.std.specs.Prelude.{◌≡◌, ◌+◌, length};
ghost use Rattle.overlay.specs.Overlay.{overlay, Written};
ghost use Rattle.overlay.proofs.Overlay.{nothing, then as one_after_another};
ghost use Rattle.overlay.proofs.Parts.{length_overlay};
ghost use Rattle.std.proofs.Common.{refl, add-zero};

use crate::sink::TextSink;
use overlay::put;

// Lent bytes, and where the text that is put in them ends: a caller lends bytes at any offset, and no vector of the library's starts in them.
#[derive(Drop)]
pub struct LentText<'a> {
    bytes: &'a mut [u8],
    end: usize,
}

impl<'a> LentText<'a> {
    // A text that is to start at an offset.
    pub fn at(bytes: &'a mut [u8], offset: usize) -> LentText<'a>
        ensures same_bytes { result.bytes.ghost_name ≡ bytes.entry.ghost_name }
        ensures start { (result.bytes.now ≡ bytes.old) × (result.end ≡ offset) }
    {
        LentText { bytes, end: offset }
    }

    // Where the text ends.
    pub fn end(&self) -> usize
        ensures { result ≡ self.now.end }
    {
        self.end
    }
}

impl TextSink for LentText<'_> {
    ghost with_text = { λ t a. record t {
      bytes = record t.bytes { now = overlay t.bytes.now t.end a };
      end = t.end + length a;
    } };

    ghost filled = { λ t. t.end };

    ghost room = { λ t. length t.bytes.now };

    fn put(&mut self, piece: &[u8]) {
        self.end = put(self.bytes, self.end, piece);
    }

    ghost none = { λ t. Prim.rw (nothing t.bytes.now t.end, add-zero) refl };

    ghost then = { λ t a b.
        let both = one_after_another {b = t.bytes.now} {v = a} {w = b} {offset = t.end} (record { end = refl; bytes = refl }) (record { end = refl; bytes = refl }) in
        Prim.rw (both.bytes, both.end) refl };

    ghost filled_after = { λ t a. refl };

    ghost room_after = { λ t. length_overlay t.bytes.now t.end };
}
