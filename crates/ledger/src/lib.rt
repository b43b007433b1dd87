// The ledger: one trait for both books, so that what posts to a book need not say to which. A posting is taken in place by the book's own
// call; by value it is given over that, once for both.
#![tactic(auto)]

ghost use Rattle.std.specs.Prelude.{◌≡◌};
ghost use Rattle.riders.specs.Rules.{Rules, given_of, answered_by, left_by};
ghost use Rattle.postings.specs.declared.Book as kinds;
ghost use Rattle.postings.specs.declared.Book.TheVariants.{Electric, Steam};
ghost use Rattle.electric_rules.specs.Refusals as electric_table;
ghost use Rattle.steam_rules.specs.Refusals as steam_table;

use electric_rules::ElectricBook;
use postings::{Answer, Book, Posted, Posting};
use refusals::Refusal;
use steam_rules::SteamBook;

// A book of the ledger, by its kinds of postings and its rules.
pub trait Ledger: Copy {
    ghost KINDS: { kinds.Book };

    const KINDS: Book;

    ghost rules: { Rules Self };

    // Takes a posting: its answer, with the next book in the place of this one; or its refusal, with the book as it was.
    fn take(&mut self, posting: Posting) -> Result<Answer, Refusal>
        ensures { (result ≡ answered_by rules self.old posting) × (self.new ≡ left_by rules self.old posting) };

    // The same of a book by value: the answer and the next book, or the refusal.
    final fn post(self, posting: Posting) -> Result<Posted<Self>, Refusal>
        ensures { result ≡ given_of rules self posting }
    {
        let mut next = self;
        let answer = next.take(posting)?;
        Ok(Posted { answer, book: next })
    }
}

// Each impl hands on to its own book's call.
impl Ledger for ElectricBook {
    ghost KINDS = { Electric };

    const KINDS: Book = Book::Electric;

    ghost rules = { electric_table.rules };

    fn take(&mut self, posting: Posting) -> Result<Answer, Refusal> {
        electric::take(self, posting)
    }
}

impl Ledger for SteamBook {
    ghost KINDS = { Steam };

    const KINDS: Book = Book::Steam;

    ghost rules = { steam_table.rules };

    fn take(&mut self, posting: Posting) -> Result<Answer, Refusal> {
        steam::take(self, posting)
    }
}
