// What a posting does that no row before 12 refuses, a call a kind. Each tests the limits of what it changes, stores that in the lent book and
// answers; or it gives refusal 12, with the book as it was. What it leaves lay within its limits before.
ghost use Rattle.std.specs.Prelude.{◌≡◌, true, false};
ghost use Rattle.postings.specs.Ranged.{Ranged};
ghost use Rattle.riders.specs.Months.{forbidden};
ghost use Rattle.electric_rules.specs.Calendar.{settles};
ghost use Rattle.electric_rules.specs.Limits.{in_limits};
ghost use Rattle.electric.specs.Taken.{TakenAt};

use crate::levels::{self, LevelInLimits, MonthEnd};
use crate::sharing;
use amounts::{Cents, Stored};
use electric_rules::{ElectricBook, Kwh, Period, Sales};
use postings::kinds::Kind;
use postings::{Answer, Book, Posting};
use refusals::Refusal;

fn cost(book: &mut ElectricBook, posting: Posting) -> Result<Answer, Refusal>
    requires { (in_limits book.old ≡ true) × Ranged Book.Electric Kind.Cost posting }
    ensures { TakenAt Kind.Cost book.old posting result book.new }
{
    let cost = Cents(book.period.cost.0 + (posting.first + posting.second + posting.third));
    book.period.cost = cost.stored()?;
    Ok(Answer::Done)
}

fn sales(book: &mut ElectricBook, posting: Posting) -> Result<Answer, Refusal>
    requires { (in_limits book.old ≡ true) × Ranged Book.Electric Kind.Sales posting }
    ensures { TakenAt Kind.Sales book.old posting result book.new }
{
    let sales = book.period.sales;
    book.period.sales = Sales {
        secondary: Kwh(sales.secondary.0 + posting.first).stored()?,
        primary: Kwh(sales.primary.0 + posting.second).stored()?,
    };
    Ok(Answer::Done)
}

// The level is billed in its place: taken out and put back, as an adjustment's is, it made every posting slower.
fn bill(book: &mut ElectricBook, posting: Posting) -> Result<Answer, Refusal>
    requires { (in_limits book.old ≡ true) × Ranged Book.Electric Kind.Bill posting }
    ensures { TakenAt Kind.Bill book.old posting result book.new }
{
    if posting.first == 0 {
        levels::bill(&mut book.secondary, posting)
    } else {
        levels::bill(&mut book.primary, posting)
    }
}

fn adjust(book: &mut ElectricBook, posting: Posting) -> Result<Answer, Refusal>
    requires { (in_limits book.old ≡ true) × Ranged Book.Electric Kind.Adjust posting }
    ensures { TakenAt Kind.Adjust book.old posting result book.new }
{
    let level = LevelInLimits {
        level: book.level(posting.first),
    };
    let adjusted = level.adjusted(posting);
    adjusted.carried.stored()?;
    *book = book.with_level(posting.first, adjusted);
    Ok(Answer::Done)
}

// A month's end moves runs that lay within their limits: only what is carried and accrued can leave them.
fn month_end(book: &mut ElectricBook, posting: Posting) -> Result<Answer, Refusal>
    requires { (in_limits book.old ≡ true) × Ranged Book.Electric Kind.MonthEnd posting }
    ensures { TakenAt Kind.MonthEnd book.old posting result book.new }
{
    let month_end = MonthEnd {
        posting,
        entering: electric_refusals::calendar::entering(book.month),
    };
    // Each level is named where its limits are shown, here and in the settlement.
    let on_secondary = LevelInLimits {
        level: book.secondary,
    };
    let on_primary = LevelInLimits {
        level: book.primary,
    };
    let (secondary_provisional, primary_provisional) = sharing::provisional_shares(book);
    let (secondary_interest, secondary) = on_secondary.ended(month_end, secondary_provisional)?;
    let (primary_interest, primary) = on_primary.ended(month_end, primary_provisional)?;
    book.month = riders::months::month_after(book.month);
    book.settled = false;
    book.secondary = secondary;
    book.primary = primary;
    Ok(Answer::Interest(secondary_interest, primary_interest))
}

fn settle(book: &mut ElectricBook, posting: Posting) -> Result<Answer, Refusal>
    requires { (in_limits book.old ≡ true) × Ranged Book.Electric Kind.Settle posting × (settles book.old.month ≡ true) }
    ensures { TakenAt Kind.Settle book.old posting result book.new }
{
    let shares = sharing::shares_of(book);
    let on_secondary = LevelInLimits {
        level: book.secondary,
    };
    let on_primary = LevelInLimits {
        level: book.primary,
    };
    let secondary = on_secondary.filing_of(shares.secondary, Kwh(posting.first))?;
    let primary = on_primary.filing_of(shares.primary, Kwh(posting.second))?;
    book.settled = true;
    book.period = Period {
        cost: Cents(0),
        sales: Sales {
            secondary: Kwh(0),
            primary: Kwh(0),
        },
        remainder: shares.remainder,
    };
    book.secondary = levels::filed(secondary, book.secondary);
    book.primary = levels::filed(primary, book.primary);
    Ok(Answer::FiledLevels(secondary.factor, primary.factor))
}

// By the kind of the posting; one of a kind that no book has, or steam's alone, does nothing.
pub(crate) fn effect(
    book: &mut ElectricBook,
    kind: Kind,
    posting: Posting,
) -> Result<Answer, Refusal>
    requires { (in_limits book.old ≡ true) × Ranged Book.Electric kind posting × (forbidden kind (settles book.old.month) book.old.settled ≡ false) }
    ensures { TakenAt kind book.old posting result book.new }
{
    match kind {
        Kind::Cost => cost(book, posting),
        Kind::Sales => sales(book, posting),
        Kind::Bill => bill(book, posting),
        Kind::Settle => settle(book, posting),
        Kind::MonthEnd => month_end(book, posting),
        Kind::Adjust => adjust(book, posting),
        Kind::Reconcile | Kind::Unknown => Ok(Answer::Done),
    }
}
