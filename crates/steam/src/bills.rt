// A bill: its line, and what each run loses of its due cents.
ghost use Rattle.std.specs.Prelude.{◌≡◌, [], ◌∷◌, ◌++◌, pos, ◌+ℤ◌, ◌-ℤ◌, ◌*ℤ◌};
ghost use Rattle.ints.specs.Range.{Within};
ghost use Rattle.rounding.specs.Round.{round};
ghost use Rattle.amounts.specs.Amounts.{cents};
ghost use Rattle.postings.specs.Ranged.{Ranged};
ghost use Rattle.postings.specs.declared.kinds.Kind.TheVariants.{Bill as BillKind};
ghost use Rattle.postings.specs.declared.Book.TheVariants.{Steam};
ghost use Rattle.riders.specs.Lines.{part_of};
ghost use Rattle.riders.specs.Runs.{due_less};
ghost use Rattle.steam_rules.specs.Book.{reconciliation_of};
ghost use Rattle.steam_rules.specs.Next.{factors_of, dues_less};
ghost use Rattle.steam_rules.specs.Fours.{Four};
ghost use Rattle.steam_rules.specs.Ranges.{PointsWithin, BookWithin, book_within_prop};
ghost use Rattle.steam.specs.Lines.{as_factors, totals_of, lines_of};

use amounts::{Cents, Points};
use postings::Posting;
use riders::Run;
use steam_rules::{Reconciliation, SteamBook};

// A bill, with a usage in its range, and the book that it is posted to, which is within its limits.
#[derive(Clone, Copy)]
pub(crate) struct Bill {
    pub(crate) book: SteamBook,
    pub(crate) posting: Posting,
    ghost book_within: { BookWithin book } by { book_within_prop book },
    ghost ranged: { Ranged Steam BillKind posting },
}

// A bill with its lines, from which both its answer and the runs' parts follow.
#[derive(Clone, Copy)]
pub(crate) struct Billed {
    pub(crate) bill: Bill,
    pub(crate) lines: UpTo<Cents>,
    ghost lines_are: { lines ≡ lines_of bill.posting.first (factors_of bill.book) },
}

// Factors together.
#[derive(Clone, Copy)]
struct Factors(i64);

// What there is of the factors up to each run; the last is that of all five. Names, and no array: a place would not say whose it is.
#[derive(Clone, Copy)]
pub(crate) struct UpTo<T> {
    pub first: T,
    pub second: T,
    pub third: T,
    pub fourth: T,
    pub all: T,
}

// One run's factor more.
fn with_run(before: Factors, factor: Points) -> Factors
    requires { Within 500000 before.0 × PointsWithin factor }
    ensures { result ≡ as_factors (before.0 +ℤ factor.0) }
{
    Factors(before.0 + i64::from(factor.0))
}

// The factors up to each run together, each sum by the one before it: by place, as the proofs name each run.
fn totals_of(factors: [Points; 4], last: Points) -> UpTo<Factors>
    requires { Four PointsWithin factors × PointsWithin last }
    ensures { result ≡ totals_of (factors ++ (last ∷ [])) }
{
    let first = with_run(Factors(0), factors[0]);
    let second = with_run(first, factors[1]);
    let third = with_run(second, factors[2]);
    let fourth = with_run(third, factors[3]);
    UpTo {
        first,
        second,
        third,
        fourth,
        all: with_run(fourth, last),
    }
}

// Due cents less the part between two lines.
fn due_less(due: Cents, after: Cents, before: Cents) -> Cents
    requires { Within 1000000000000 due.0 × Within 60000000000 after.0 × Within 60000000000 before.0 }
    ensures { result ≡ cents (due.0 -ℤ (after.0 -ℤ before.0)) }
{
    Cents(due.0 - (after.0 - before.0))
}

impl Bill {
    // The line of the bill's usage at factors that stand together.
    fn line_at(self, factors: Factors) -> Cents
        requires { Within 500000 factors.0 }
        ensures { result ≡ cents (round (self.posting.first *ℤ factors.0) (pos 100)) }
    {
        Cents(rounding::round_div(self.posting.first * factors.0, Points::TO_A_CENT))
    }

    pub(crate) fn lines(self) -> UpTo<Cents>
        ensures { result ≡ lines_of self.posting.first (factors_of self.book) }
    {
        let totals = totals_of(self.book.factors, self.book.reconciliation.run.factor);
        UpTo {
            first: self.line_at(totals.first),
            second: self.line_at(totals.second),
            third: self.line_at(totals.third),
            fourth: self.line_at(totals.fourth),
            all: self.line_at(totals.all),
        }
    }
}

impl Billed {
    // What is due under runs 1 to 4 falls by each run's part.
    pub(crate) fn dues(self) -> [Cents; 4]
        ensures { result ≡ dues_less (part_of self.bill.posting.first (factors_of self.bill.book)) self.bill.book.dues }
    {
        let dues = self.bill.book.dues;
        let lines = self.lines;
        let due_1 = due_less(dues[0], lines.first, Cents(0));
        let due_2 = due_less(dues[1], lines.second, lines.first);
        let due_3 = due_less(dues[2], lines.third, lines.second);
        let due_4 = due_less(dues[3], lines.fourth, lines.third);
        [due_1, due_2, due_3, due_4]
    }

    // What is due under the reconciliation falls by the rest of the line.
    pub(crate) fn reconciliation(self) -> Reconciliation
        ensures { result ≡ reconciliation_of (due_less (part_of self.bill.posting.first (factors_of self.bill.book) 4) self.bill.book.reconciliation.run) self.bill.book.reconciliation.months }
    {
        let reconciliation = self.bill.book.reconciliation;
        let run = reconciliation.run;
        let due = due_less(run.due, self.lines.all, self.lines.fourth);
        Reconciliation {
            run: Run { due, ..run },
            ..reconciliation
        }
    }
}
