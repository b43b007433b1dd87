// The electric book's call: a posting goes in with the lent book, and an answer or a refusal comes back. The book is then the next one, or with a
// refusal as it was.
#![tactic(auto)]

ghost use Rattle.std.specs.Prelude.{◌≡◌};
ghost use Rattle.riders.specs.Rules.{answered_by, left_by};
ghost use Rattle.electric_rules.specs.Refusals.{rules};

use electric_rules::ElectricBook;
use postings::{Answer, Posting};
use refusals::Refusal;

mod effects;
mod levels;
mod sharing;

// Takes a posting: its answer, with the next book in the place of this one; or its refusal, with the book as it was. In place, since
// each move of a book that a call hands back is a copy.
// The steam book has the same two steps: a trait for both would ask for two members, each with a contract.
pub fn take(book: &mut ElectricBook, posting: Posting) -> Result<Answer, Refusal>
    ensures { (result ≡ answered_by rules book.old posting) × (book.new ≡ left_by rules book.old posting) }
{
    let kind = electric_refusals::accepted(*book, posting)?;
    effects::effect(book, kind, posting)
}
