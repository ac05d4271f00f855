// What a text is put into, piece by piece.
ghost use Rattle.std.specs.Prelude.{◌≡◌, ℕ, ◌+◌, ◌≤◌, List, [], ◌++◌, length};
ghost use Rattle.text.specs.Text.{decimal, decimal_and};

// Room for bytes, filled up to an end, from which on a piece is put.
pub trait TextSink {
    // The sink with these bytes put at its end.
    ghost with_text: { Self → List ℕ → Self };

    // How many bytes of the room are filled.
    ghost filled: { Self → ℕ };

    // How many bytes the room has in all.
    ghost room: { Self → ℕ };

    // Puts a piece at the end.
    fn put(&mut self, piece: &[u8])
        requires { filled self.old + length piece.now ≤ room self.old }
        ensures { self.new ≡ with_text self.old piece.now };

    ghost none: { (s : Self) → with_text s [] ≡ s };

    ghost then: { (s : Self) (a b : List ℕ) → with_text (with_text s a) b ≡ with_text s (a ++ b) };

    ghost filled_after: { (s : Self) (a : List ℕ) → filled (with_text s a) ≡ filled s + length a };

    ghost room_after: { (s : Self) (a : List ℕ) → filled s + length a ≤ room s → room (with_text s a) ≡ room s };

    // Puts n in decimal digits, of which a u64 has 20 at the most. `io::decimal` fills lent bytes and returns their number.
    final fn put_decimal(&mut self, n: u64)
        requires { filled self.old + 20 ≤ room self.old }
        ensures written { self.new ≡ with_text self.old (decimal n) }
        ensures upper_bound { filled self.new ≤ filled self.old + 20 }
    {
        let mut digits = [0u8; 20];
        let k = io::decimal(n, &mut digits);
        self.put(&digits[..k]);
    }

    // Puts the digits of n and one byte after them.
    final fn put_decimal_and(&mut self, n: u64, after: u8)
        requires { filled self.old + 21 ≤ room self.old }
        ensures written { self.new ≡ with_text self.old (decimal_and n after) }
        ensures upper_bound { filled self.new ≤ filled self.old + 21 }
    {
        self.put_decimal(n);
        self.put(&[after]);
    }
}
