// The limits of a steam book, with those of its runs; those of its other parts stand with their types.
ghost use Rattle.std.specs.Prelude.{◌≡◌};
ghost use Rattle.steam_rules.specs.Limits.{runs_in_limits, in_limits};

use amounts::Stored;
use steam_rules::{SteamBook, four_in_limits};

// The four runs, what is pending and the reconciliation.
#[tactic(auto, unfolding(steam_rules::specs::Limits::runs_in_limits, steam_rules::specs::Limits::factors_in_limits, steam_rules::specs::Limits::dues_in_limits))]
fn runs_in_limits(book: SteamBook) -> bool
    ensures { result ≡ runs_in_limits book }
{
    book.pending.in_limits()
        & (four_in_limits(book.factors)
            & (four_in_limits(book.dues) & book.reconciliation.in_limits()))
}

// Whether every value of the book lies within its limits.
#[tactic(auto, unfolding(steam_rules::specs::Limits::in_limits, steam_rules::specs::Limits::quarters_in_limits))]
pub fn in_limits(book: SteamBook) -> bool
    ensures { result ≡ in_limits book }
{
    riders::months::in_limits(
        book.month,
        crate::calendar::settles(book.month),
        book.settled,
    ) & (book.period.in_limits()
        & (four_in_limits(book.quarters) & (book.carried.in_limits() & runs_in_limits(book))))
}
