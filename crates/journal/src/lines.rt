// The lines of the journal, piece by piece.
ghost use Rattle.std.specs.Prelude.{codes, ◌++◌, ◌+◌, ◌*◌, ◌^◌, ◌≤◌, ◌<◌, length};
ghost use Rattle.journal.specs.Lines.{answer_text, record_line, opening_refused};
ghost use Rattle.journal.specs.Steps.{Prints};

use crate::page::Page;
use crate::pieces::Piece;
use postings::Answer;
use refusals::Refusal;

// All of a line is inlined into the loop over the records, where each word is known and the page stands in registers.
impl Page<'_> {
    // A word, with the blank behind it, and what it is said of.
    #[inline(always)]
    fn put_one<T: Piece>(&mut self, word: &[u8], piece: T)
        requires { self.old.used + length word.now + T.most < 2 ^ 64 }
        ensures { Prints (word.now ++ T.text piece) (length word.now + T.most) self.old self.new }
    {
        self.put_word(word);
        self.put(piece);
    }

    // The same of both levels, parted by a blank.
    #[inline(always)]
    fn put_both<T: Piece>(&mut self, word: &[u8], secondary: T, primary: T)
        requires { self.old.used + length word.now + 2 * T.most + 1 < 2 ^ 64 }
        ensures { Prints (word.now ++ T.text secondary ++ codes " " ++ T.text primary) (length word.now + 2 * T.most + 1) self.old self.new }
    {
        self.put_one(word, secondary);
        self.put_one(b" ", primary);
    }

    #[inline(always)]
    fn put_answer(&mut self, answer: Result<Answer, Refusal>)
        requires { self.old.used ≤ 2 ^ 32 + 24 }
        ensures { Prints (answer_text answer) 58 self.old self.new }
    {
        match answer {
            Ok(Answer::Line(cents)) => self.put_one(b"line ", cents),
            Ok(Answer::FiledLevels(secondary, primary)) => {
                self.put_both(b"filed ", secondary, primary)
            }
            Ok(Answer::Filed(points)) => self.put_one(b"filed ", points),
            Ok(Answer::Interest(secondary, primary)) => {
                self.put_both(b"interest ", secondary, primary)
            }
            Ok(Answer::Done) => self.put_word(b"done"),
            Err(refusal) => self.put_one(b"refused ", u32::from(refusal.number())),
        }
    }

    // The line of a record: its number, its kind and the answer. The kind is a number, since the line says what the record does, a kind
    // that is in no book too.
    #[inline(always)]
    pub(crate) fn put_line(&mut self, number: u32, kind: u8, answer: Result<Answer, Refusal>)
        requires { self.old.used ≤ 2 ^ 32 }
        ensures { Prints (record_line number kind answer) 82 self.old self.new }
    {
        self.put(number);
        self.put_one(b" ", u32::from(kind));
        self.put_word(b" ");
        self.put_answer(answer);
        self.put_word(b"\n");
    }

    // What is printed for an input that opens no book.
    pub(crate) fn put_refused(&mut self, refusal: Refusal)
        requires { self.old.used ≤ 2 ^ 32 }
        ensures { Prints (opening_refused refusal) 82 self.old self.new }
    {
        self.put_answer(Err(refusal));
        self.put_word(b"\n");
    }
}
