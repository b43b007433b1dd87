// What a posting does that no row before 12 refuses, a call a kind. Each tests the limits of what it changes, stores that in the lent book and
// answers; or it gives refusal 12, with the book as it was. What it leaves lay within its limits before.
ghost use Rattle.std.specs.Prelude.{◌≡◌, true, false};
ghost use Rattle.postings.specs.Ranged.{Ranged};
ghost use Rattle.postings.specs.declared.Answer.TheVariants.{Done};
ghost use Rattle.riders.specs.Months.{forbidden};
ghost use Rattle.riders.specs.Posts.{TakenWithin};
ghost use Rattle.steam_rules.specs.Calendar.{settles};
ghost use Rattle.steam_rules.specs.Settlement.{shifted};
ghost use Rattle.steam_rules.specs.Next.{month_ended};
ghost use Rattle.steam_rules.specs.Limits.{in_limits};
ghost use Rattle.steam.specs.Taken.{TakenAt};

use crate::bills::{Bill, Billed};
use crate::month_ends;
use amounts::{Cents, Stored};
use postings::kinds::Kind;
use postings::{Answer, Book, Posting};
use refusals::Refusal;
use riders::Run;
use steam_rules::{Mmbtu, Reconciliation, SteamBook, four_stored};

// The oldest quarter leaves, the newest enters.
#[tactic(auto, using(steam_rules::specs::Quarters::shifted_four))]
fn shifted(quarters: [Mmbtu; 4], newest: Mmbtu) -> [Mmbtu; 4]
    ensures { result ≡ shifted quarters newest }
{
    [quarters[1], quarters[2], quarters[3], newest]
}

fn cost(book: &mut SteamBook, posting: Posting) -> Result<Answer, Refusal>
    requires { (in_limits book.old ≡ true) × Ranged Book.Steam Kind.Cost posting }
    ensures { TakenAt Kind.Cost book.old posting result book.new }
{
    let cost = Cents(book.period.cost.0 + posting.first);
    book.period.cost = cost.stored()?;
    Ok(Answer::Done)
}

fn sales(book: &mut SteamBook, posting: Posting) -> Result<Answer, Refusal>
    requires { (in_limits book.old ≡ true) × Ranged Book.Steam Kind.Sales posting }
    ensures { TakenAt Kind.Sales book.old posting result book.new }
{
    let sales = Mmbtu(book.period.sales.0 + posting.first);
    book.period.sales = sales.stored()?;
    Ok(Answer::Done)
}

fn bill(book: &mut SteamBook, posting: Posting) -> Result<Answer, Refusal>
    requires { (in_limits book.old ≡ true) × Ranged Book.Steam Kind.Bill posting }
    ensures { TakenAt Kind.Bill book.old posting result book.new }
{
    let bill = Bill {
        book: *book,
        posting,
    };
    let lines = bill.lines();
    let billed = Billed { bill, lines };
    let dues = billed.dues();
    let reconciliation = billed.reconciliation();
    four_stored(dues)?;
    reconciliation.stored()?;
    book.dues = dues;
    book.reconciliation = reconciliation;
    Ok(Answer::Line(lines.all))
}

fn settle(book: &mut SteamBook, posting: Posting) -> Result<Answer, Refusal>
    requires { (in_limits book.old ≡ true) × Ranged Book.Steam Kind.Settle posting × (settles book.old.month ≡ true) }
    ensures { TakenAt Kind.Settle book.old posting result book.new }
{
    let shared = steam_settlement::shared_of(book.period);
    let determinants = steam_settlement::determinants::determinants_of(
        book.period.sales,
        book.quarters,
        Mmbtu(posting.first),
    );
    let filed = Run::filed(shared.share, determinants.0)?;
    book.settled = true;
    book.quarters = shifted(book.quarters, book.period.sales);
    book.period = shared.period;
    book.pending = filed;
    Ok(Answer::Filed(filed.factor))
}

// A month's end moves runs that lay within their limits: only what is carried can leave them.
fn month_end(book: &mut SteamBook) -> Result<Answer, Refusal>
    requires { in_limits book.old ≡ true }
    ensures { TakenWithin (in_limits (month_ended book.old)) Done (month_ended book.old) book.old result book.new }
{
    let next = month_ends::ended(*book);
    next.carried.stored()?;
    *book = next;
    Ok(Answer::Done)
}

fn adjust(book: &mut SteamBook, posting: Posting) -> Result<Answer, Refusal>
    requires { (in_limits book.old ≡ true) × Ranged Book.Steam Kind.Adjust posting }
    ensures { TakenAt Kind.Adjust book.old posting result book.new }
{
    let carried = Cents(book.carried.0 + posting.first);
    book.carried = carried.stored()?;
    Ok(Answer::Done)
}

fn reconcile(book: &mut SteamBook, posting: Posting) -> Result<Answer, Refusal>
    requires { (in_limits book.old ≡ true) × Ranged Book.Steam Kind.Reconcile posting }
    ensures { TakenAt Kind.Reconcile book.old posting result book.new }
{
    let run = Run::filed(book.carried, posting.second)?;
    book.carried = Cents(0);
    book.reconciliation = Reconciliation {
        run,
        // 12 or 24, which a byte holds.
        months: posting.first as u8,
    };
    Ok(Answer::Done)
}

// By the kind of the posting; one of a kind that no book has does nothing.
#[tactic(auto, unfolding(steam_rules::specs::Next::next_at, steam_rules::specs::Next::answer_at))]
pub(crate) fn effect(book: &mut SteamBook, kind: Kind, posting: Posting) -> Result<Answer, Refusal>
    requires { (in_limits book.old ≡ true) × Ranged Book.Steam kind posting × (forbidden kind (settles book.old.month) book.old.settled ≡ false) }
    ensures { TakenAt kind book.old posting result book.new }
{
    match kind {
        Kind::Cost => cost(book, posting),
        Kind::Sales => sales(book, posting),
        Kind::Bill => bill(book, posting),
        Kind::Settle => settle(book, posting),
        Kind::MonthEnd => month_end(book),
        Kind::Adjust => adjust(book, posting),
        Kind::Reconcile => reconcile(book, posting),
        Kind::Unknown => Ok(Answer::Done),
    }
}
