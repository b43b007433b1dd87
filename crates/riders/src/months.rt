// The months of both books. Which months settle, each book says for itself.
ghost use Rattle.std.specs.Prelude.{◌≡◌};
ghost use Rattle.postings.specs.Kinds.{kind_of};
ghost use Rattle.riders.specs.Months.{month_after, month_in_limits, forbidden};

use postings::Posting;
use postings::kinds::Kind;

// The next month; from December on it is January.
pub fn month_after(month: u8) -> u8
    ensures { result ≡ month_after month }
{
    if month < 12 { month + 1 } else { 1 }
}

// Whether a book may store the month, by whether the month settles.
pub fn in_limits(month: u8, settles: bool, settled: bool) -> bool
    ensures { result ≡ month_in_limits month settles settled }
{
    (1 <= month) & ((month <= 12) & (!settled | settles))
}

// Refusal 8: the month or the settled state forbids it.
pub fn is_forbidden(posting: Posting, settles: bool, settled: bool) -> bool
    ensures { result ≡ forbidden (kind_of posting.kind) settles settled }
{
    match posting.kind() {
        Kind::Cost | Kind::Sales => settled,
        Kind::Settle => settled | !settles,
        Kind::MonthEnd => settles & !settled,
        Kind::Bill | Kind::Adjust | Kind::Reconcile | Kind::Unknown => false,
    }
}
