// A page: what is printed goes into a lent buffer, piece by piece.
ghost use Rattle.std.specs.Prelude.{◌≡◌, ◌+◌, ◌^◌, ◌<◌, length};
ghost use Rattle.amounts.specs.Text.{text_left};
ghost use Rattle.journal.specs.Steps.{Prints};

use crate::pieces::Piece;

// A lent buffer, and how far the pieces so far reach: past its end they are counted and not stored, where std's `Write` of a slice ends in an
// error. How far it may still reach is asked by each call, as an invariant would have to be shown after each piece. A word is bytes, which the
// contracts count.
#[derive(Drop)]
pub(crate) struct Page<'a> {
    buffer: &'a mut [u8],
    pub(crate) used: usize,
}

#[inline]
fn put_bytes(word: &[u8], part: &mut [u8]) -> usize
    ensures { (result ≡ length word.now) × (part.new ≡ text_left word.now part.old) }
{
    if word.len() <= part.len() {
        let front = &mut part[..word.len()];
        front.copy_from_slice(word);
    }
    word.len()
}

impl<'a> Page<'a> {
    pub(crate) fn new(buffer: &'a mut [u8]) -> Page<'a>
        ensures same_buffer { result.buffer.ghost_name ≡ buffer.entry.ghost_name }
        ensures empty { result.used ≡ 0 }
        ensures as_lent { result.buffer.now ≡ buffer.old }
    {
        Page { buffer, used: 0 }
    }

    #[inline]
    pub(crate) fn put<T: Piece>(&mut self, piece: T)
        requires { self.old.used + T.most < 2 ^ 64 }
        ensures { Prints (T.text piece) T.most self.old self.new }
    {
        let start = self.used.min(self.buffer.len());
        self.used += piece.put(&mut self.buffer[start..]);
    }

    #[inline]
    pub(crate) fn put_word(&mut self, word: &[u8])
        requires { self.old.used + length word.now < 2 ^ 64 }
        ensures { Prints word.now (length word.now) self.old self.new }
    {
        let start = self.used.min(self.buffer.len());
        self.used += put_bytes(word, &mut self.buffer[start..]);
    }
}
