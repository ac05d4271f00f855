// Text in an `ArrayVec`, a vector of fixed capacity that needs no heap.
ghost use Rattle.std.specs.Prelude.{◌++◌, length};
ghost use Rattle.std.proofs.Common.{refl, append-nil, append_assoc, length-append};

use crate::sink::TextSink;
use arrayvec::ArrayVec;

impl<const N: usize> TextSink for ArrayVec<u8, N> {
    ghost with_text = { λ v a. record { items = v.items ++ a } };

    ghost filled = { λ v. length v.items };

    ghost room = { λ v. N };

    // The piece fits, so all of it is put.
    fn put(&mut self, piece: &[u8]) {
        let _ = self.try_extend_from_slice(piece);
    }

    ghost none = { λ v. Prim.rw (append-nil v.items) refl };

    ghost then = { λ v a b. Prim.rw (append_assoc v.items a b) refl };

    ghost filled_after = { λ v a. length-append v.items a };

    ghost room_after = { λ v a fits. refl };
}
