// The pieces of a line: amounts and numbers.
ghost use Rattle.std.specs.Prelude.{◌≡◌, List, ℕ, ◌≤◌, length};
ghost use Rattle.amounts.specs.Text.{decimal, cents_text, points_text, text_left};

use amounts::{Amount, Cents, Points};

// What is printed as a text of its own.
pub(crate) trait Piece: Copy {
    // Its text, and how long that may be.
    ghost text: { Self → List ℕ };

    ghost most: { ℕ };

    // Stores the text where the buffer has room for it, and answers its length in either case.
    fn put(self, buffer: &mut [u8]) -> usize
        ensures counted { result ≡ length (text self) }
        ensures short { result ≤ most }
        ensures stored { buffer.new ≡ text_left (text self) buffer.old };
}

// Cents and points each by the trait of amounts: one impl for every `Amount` is refused, since it might fit `u32` too.
impl Piece for Cents {
    ghost text = { cents_text };

    ghost most = { 24 };

    fn put(self, buffer: &mut [u8]) -> usize {
        Amount::put(self, buffer)
    }
}

impl Piece for Points {
    ghost text = { points_text };

    ghost most = { 24 };

    fn put(self, buffer: &mut [u8]) -> usize {
        Amount::put(self, buffer)
    }
}

// A whole number.
impl Piece for u32 {
    ghost text = { decimal };

    ghost most = { 10 };

    fn put(self, buffer: &mut [u8]) -> usize {
        amounts::text::put_whole(u64::from(self), buffer)
    }
}
