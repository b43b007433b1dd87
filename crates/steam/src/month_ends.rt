// What a month's end makes of the book.
#![tactic(auto, unfolding(steam_rules::specs::Next::entered, steam_rules::specs::Next::reconciled, steam_rules::specs::Next::month_ended))]

ghost use Rattle.std.specs.Prelude.{◌≡◌, ◌<◌, IfSome, true};
ghost use Rattle.ints.specs.Range.{Within};
ghost use Rattle.riders.specs.Runs.{RunWithin};
ghost use Rattle.steam_rules.specs.Next.{entered, reconciled, month_ended};
ghost use Rattle.steam_rules.specs.Ranges.{BookWithin};

use amounts::Cents;
use riders::Run;
use steam_rules::{Reconciliation, SteamBook};

// The run that enters, by its place, adds its due cents to the carried ones and becomes the pending run.
fn entered(book: SteamBook, run: Option<usize>) -> SteamBook
    requires { BookWithin book × IfSome run (λ place. place < 4) }
    ensures { result ≡ entered run book }
{
    let Some(place) = run else {
        return book;
    };
    let mut next = SteamBook {
        carried: Cents(book.carried.0 + book.dues[place].0),
        pending: Run::none(),
        ..book
    };
    next.factors[place] = book.pending.factor;
    next.dues[place] = book.pending.due;
    next
}

// The reconciliation loses a month; at none left its due cents join the carried ones.
fn reconciled(book: SteamBook) -> SteamBook
    requires { Within 2000000000000 book.carried.0 × RunWithin book.reconciliation.run }
    ensures { result ≡ reconciled book }
{
    match book.reconciliation.months {
        0 => book,
        1 => SteamBook {
            carried: Cents(book.carried.0 + book.reconciliation.run.due.0),
            reconciliation: Reconciliation::none(),
            ..book
        },
        months => SteamBook {
            reconciliation: Reconciliation {
                months: months - 1,
                ..book.reconciliation
            },
            ..book
        },
    }
}

// The run that enters, then the reconciliation's month, then the month moves on.
pub(crate) fn ended(book: SteamBook) -> SteamBook
    requires { BookWithin book }
    ensures { result ≡ month_ended book }
{
    let run = steam_refusals::calendar::entering(book.month);
    let entered = entered(book, run);
    SteamBook {
        month: riders::months::month_after(book.month),
        settled: false,
        ..reconciled(entered)
    }
}
