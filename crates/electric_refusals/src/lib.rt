// The refusal table of the electric book, up to the rows that look at the next book, with the limits and the calendar that it asks for.
#![tactic(auto)]

ghost use Rattle.std.specs.Prelude.{◌≡◌, true, Ok, Err};
ghost use Rattle.refusals.specs.Rows.{by_table, before};
ghost use Rattle.postings.specs.Kinds.{kind_of};
ghost use Rattle.electric_rules.specs.Limits.{in_limits};
ghost use Rattle.electric_rules.specs.Refusals.{nothing_sold, rows_of};

use electric_rules::ElectricBook;
use postings::kinds::Kind;
use postings::{Book, Posting};
use refusals::{Refusal, refuse_if};

pub mod calendar;
pub mod limits;

// Refusal 10: a settlement of no sales.
fn sold_nothing(kind: Kind, book: ElectricBook) -> bool
    requires { in_limits book ≡ true }
    ensures { result ≡ nothing_sold kind book }
{
    match kind {
        Kind::Settle => book.period.sales.secondary.0 + book.period.sales.primary.0 == 0,
        _ => false,
    }
}

// The kind of a posting that no row refuses, or the refusal of the first row that does. A table reads row by row: a part of it that both books
// share would stand elsewhere.
#[tactic(auto, unfolding(refusals::specs::Rows::refusal_by, refusals::specs::Rows::by_table, refusals::specs::Rows::before, refusals::specs::Rows::number_of), using(refusals::proofs::TableLaws::row_accepts))]
pub fn accepted(book: ElectricBook, posting: Posting) -> Result<Kind, Refusal>
    ensures { result ≡ by_table (before Refusal.NextOutOfLimits (rows_of book posting)) (Ok (kind_of posting.kind)) Err }
{
    let kind = posting.kind();
    refuse_if(
        postings::unknown_kind(Book::Electric, posting),
        Refusal::UnknownKind,
    )?;
    refuse_if(
        postings::stray_number(Book::Electric, posting),
        Refusal::StrayNumber,
    )?;
    refuse_if(!limits::in_limits(book), Refusal::BookOutOfLimits)?;
    refuse_if(
        postings::out_of_range(Book::Electric, posting),
        Refusal::OutOfRange,
    )?;
    refuse_if(
        riders::months::is_forbidden(posting, calendar::settles(book.month), book.settled),
        Refusal::Forbidden,
    )?;
    refuse_if(sold_nothing(kind, book), Refusal::NothingSold)?;
    Ok(kind)
}
