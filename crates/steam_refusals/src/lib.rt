// The refusal table of the steam book, up to the rows that look at the next book, with the limits and the calendar that it asks for.
#![tactic(auto)]

ghost use Rattle.std.specs.Prelude.{◌≡◌, true};
ghost use Rattle.refusals.specs.Rows.{by_table, before};
ghost use Rattle.postings.specs.Kinds.{kind_of};
ghost use Rattle.postings.specs.Ranged.{Ranged};
ghost use Rattle.steam_rules.specs.Limits.{in_limits};
ghost use Rattle.steam_rules.specs.Refusals.{still_runs, nothing_sold, too_small, rows_of};

use postings::kinds::Kind;
use postings::{Book, Posting};
use refusals::{Refusal, refuse_if};
use steam_rules::{Mmbtu, SteamBook};

pub mod calendar;
pub mod limits;

// Refusal 9: a reconciliation while one runs.
fn still_runs(kind: Kind, book: SteamBook) -> bool
    ensures { result ≡ still_runs kind book }
{
    match kind {
        Kind::Reconcile => book.reconciliation.months != 0,
        _ => false,
    }
}

// Refusal 10: a settlement of no sales, or over determinants below 1.
fn sold_nothing(kind: Kind, book: SteamBook, posting: Posting) -> bool
    requires { (in_limits book ≡ true) × Ranged Book.Steam kind posting }
    ensures { result ≡ nothing_sold kind book posting }
{
    match kind {
        Kind::Settle => {
            let determinants = steam_settlement::determinants::determinants_of(
                book.period.sales,
                book.quarters,
                Mmbtu(posting.first),
            );
            (book.period.sales.0 == 0) | (determinants.0 < 1)
        }
        _ => false,
    }
}

// Refusal 11: an adjustment of no more than a tenth of the annual fuel cost.
fn too_small(kind: Kind, posting: Posting) -> bool
    requires { Ranged Book.Steam kind posting }
    ensures { result ≡ too_small kind posting }
{
    match kind {
        Kind::Adjust => posting.second >= 10 * posting.first.abs(),
        _ => false,
    }
}

// The posting's kind, or the refusal of the first row that holds. Row by row, as the electric book's.
#[tactic(auto, unfolding(refusals::specs::Rows::refusal_by, refusals::specs::Rows::by_table, refusals::specs::Rows::before, refusals::specs::Rows::number_of), using(refusals::proofs::TableLaws::row_accepts, postings::specs::Ranged::none_out_of_range))]
pub fn accepted(book: SteamBook, posting: Posting) -> Result<Kind, Refusal>
    ensures { result ≡ by_table (before Refusal.NextOutOfLimits (rows_of book posting)) (Ok (kind_of posting.kind)) Err }
{
    let kind = posting.kind();
    refuse_if(
        postings::unknown_kind(Book::Steam, posting),
        Refusal::UnknownKind,
    )?;
    refuse_if(
        postings::stray_number(Book::Steam, posting),
        Refusal::StrayNumber,
    )?;
    refuse_if(!limits::in_limits(book), Refusal::BookOutOfLimits)?;
    refuse_if(
        postings::out_of_range(Book::Steam, posting),
        Refusal::OutOfRange,
    )?;
    refuse_if(
        riders::months::is_forbidden(posting, calendar::settles(book.month), book.settled),
        Refusal::Forbidden,
    )?;
    refuse_if(still_runs(kind, book), Refusal::StillRuns)?;
    refuse_if(sold_nothing(kind, book, posting), Refusal::NothingSold)?;
    refuse_if(too_small(kind, posting), Refusal::TooSmall)?;
    Ok(kind)
}
