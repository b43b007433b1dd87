// The records of a journal, behind its opening.
ghost use Rattle.std.specs.Prelude.{◌≡◌, ◌+◌, ◌*◌, ◌≤◌, length};
ghost use Rattle.journal.specs.Journal.{lines_from, journal_of, room_of};
ghost use Rattle.journal.specs.Steps.{Prints};

use crate::opening::{self, FreshBook};
use crate::page::Page;
use ledger::Ledger;

impl Page<'_> {
    // Prints the lines of the records from a place on, each posted to the book that the one before left.
    pub(crate) fn put_records<B: Ledger>(&mut self, fresh: B, input: &[u8], start: usize)
        requires { (self.old.used ≡ 0) × (1 ≤ start) × (start ≤ length input.now) × (length input.now ≤ 65536) }
        ensures { Prints (lines_from B.KINDS B.rules (length input.now) fresh input.now start 1) (41 * length input.now + 82) self.old self.new }
    {
        let mut book = fresh;
        let mut place = start;
        let mut number: u32 = 1;
        // A record is as long as its bits say, so the place is the reader's and no index that an iterator would count.
        while place < input.len() {
            match records::read_record(B::KINDS, input, place) {
                Ok(found) => {
                    let answer = book.take(found.posting);
                    self.put_line(number, found.posting.kind, answer);
                    place = found.place;
                    number += 1;
                }
                Err(refusal) => {
                    // The paper prints 0 for the kind of what is no record.
                    self.put_line(number, 0, Err(refusal));
                    return;
                }
            }
        }
    }

    // Prints the whole journal: the lines of the records behind the opening, or the refusal of an input that opens no book.
    pub(crate) fn put_journal(&mut self, input: &[u8])
        requires { self.old.used ≡ 0 }
        ensures { Prints (journal_of input.now) (room_of (length input.now)) self.old self.new }
    {
        match opening::opened(input) {
            Ok(FreshBook::Electric(fresh)) => self.put_records(fresh, input, 1),
            Ok(FreshBook::Steam(fresh)) => self.put_records(fresh, input, 33),
            Err(refusal) => self.put_refused(refusal),
        }
    }
}
