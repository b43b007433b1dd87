// The steam book: its types, its opening and its limits. What a posting does to it is said in specs/, with the claim that no cent is
// lost over any list of postings.
#![tactic(auto)]

ghost use Rattle.std.specs.Prelude.{◌≡◌};
ghost use Rattle.refusals.specs.Rows.{stored_or_12};
ghost use Rattle.steam_rules.specs.Book.{no_period, no_reconciliation, fresh_of};
ghost use Rattle.steam_rules.specs.Limits.{mmbtu_in_limits, remainder_in_limits, period_in_limits, reconciliation_in_limits, all_four};
ghost use Rattle.steam_rules.specs.Opening.{opened_of, handed_back};

use amounts::{Cents, Points, Stored};
use refusals::Refusal;
use riders::Run;

// Sales of steam in million BTU.
#[repr(C)]
#[derive(Clone, Copy, Debug, PartialEq, Eq)]
pub struct Mmbtu(pub i64);

// What rounding left of the customers' shares, in ten-thousandths of a cent: document 01's rem.
// A type of its own in either book, since it counts other parts of a cent.
#[repr(C)]
#[derive(Clone, Copy, Debug, PartialEq, Eq)]
pub struct Remainder(pub i64);

// The open quarter: document 01's K and B, and the remainder of the quarters before.
#[repr(C)]
#[derive(Clone, Copy, Debug, PartialEq, Eq)]
pub struct Period {
    pub cost: Cents,
    pub sales: Mmbtu,
    pub remainder: Remainder,
}

// The reconciliation run and the months that it has left. 0 is none, and no Option, since a host's struct has the number.
#[repr(C)]
#[derive(Clone, Copy, Debug, PartialEq, Eq)]
pub struct Reconciliation {
    pub run: Run,
    pub months: u8,
}

// Past quarters stand oldest first; factors and dues are those of runs 1 to 4; carried is document 01's account A.
// Factors and dues are two arrays and no array of runs: the paper and the C interface name them apart.
#[repr(C)]
#[derive(Clone, Copy, Debug, PartialEq, Eq)]
pub struct SteamBook {
    pub month: u8,
    pub settled: bool,
    pub period: Period,
    pub quarters: [Mmbtu; 4],
    pub carried: Cents,
    pub pending: Run,
    pub factors: [Points; 4],
    pub dues: [Cents; 4],
    pub reconciliation: Reconciliation,
}

impl Stored for Mmbtu {
    ghost within = { mmbtu_in_limits };

    #[tactic(auto, unfolding(crate::specs::Limits::mmbtu_in_limits))]
    fn in_limits(self) -> bool {
        ints::in_range(self.0, 0, SteamBook::MOST_MMBTU)
    }
}

impl Stored for Remainder {
    ghost within = { remainder_in_limits };

    #[tactic(auto, unfolding(crate::specs::Limits::remainder_in_limits))]
    fn in_limits(self) -> bool {
        ints::in_range(
            self.0,
            -SteamBook::MOST_REMAINDER,
            SteamBook::MOST_REMAINDER,
        )
    }
}

impl Stored for Period {
    ghost within = { period_in_limits };

    #[tactic(auto, unfolding(crate::specs::Limits::period_in_limits))]
    fn in_limits(self) -> bool {
        self.cost.in_limits() & (self.sales.in_limits() & self.remainder.in_limits())
    }
}

impl Period {
    // Nothing open, and no remainder.
    fn none() -> Period
        ensures { result ≡ no_period }
    {
        Period {
            cost: Cents(0),
            sales: Mmbtu(0),
            remainder: Remainder(0),
        }
    }
}

// At most 24 months are left; where none is, there is neither factor nor cents.
impl Stored for Reconciliation {
    ghost within = { reconciliation_in_limits };

    #[tactic(auto, unfolding(crate::specs::Limits::reconciliation_in_limits))]
    fn in_limits(self) -> bool {
        (self.months <= SteamBook::MOST_MONTHS)
            & (self.run.in_limits()
                & ((self.months != 0) | ((self.run.factor.0 == 0) & (self.run.due.0 == 0))))
    }
}

impl Reconciliation {
    // None runs.
    pub fn none() -> Reconciliation
        ensures { result ≡ no_reconciliation }
    {
        Reconciliation {
            run: Run::none(),
            months: 0,
        }
    }
}

impl SteamBook {
    // The month of a fresh book: January.
    pub const FIRST_MONTH: u8 = 1;

    // The most open sales, and the most of a past quarter; the least is 0.
    pub const MOST_MMBTU: i64 = 100_000_000;

    // The most that the remainder is above or below 0.
    pub const MOST_REMAINDER: i64 = 5_000;

    // The most months that a reconciliation has left.
    pub const MOST_MONTHS: u8 = 24;

    // The fresh book after these four quarters, oldest first. A quarter out of range is refused.
    #[tactic(auto, unfolding(crate::specs::Opening::opened_of, crate::specs::Limits::quarters_in_limits, refusals::specs::Rows::by_table, refusals::specs::Rows::refusal_by))]
    pub fn open(quarters: [Mmbtu; 4]) -> Result<SteamBook, Refusal>
        ensures { result ≡ opened_of quarters }
    {
        if !four_in_limits(quarters) {
            return Err(Refusal::OutOfRange);
        }
        Ok(SteamBook::fresh(quarters))
    }

    // The book that an opening hands back: where it is refused, the fresh one after four zeros.
    pub fn handed_back(quarters: [Mmbtu; 4]) -> SteamBook
        ensures { result ≡ handed_back quarters }
    {
        SteamBook::open(quarters).unwrap_or(SteamBook::fresh([Mmbtu(0); 4]))
    }

    fn fresh(quarters: [Mmbtu; 4]) -> SteamBook
        ensures { result ≡ fresh_of quarters }
    {
        SteamBook {
            month: SteamBook::FIRST_MONTH,
            settled: false,
            period: Period::none(),
            quarters,
            carried: Cents(0),
            pending: Run::none(),
            factors: [Points(0); 4],
            dues: [Cents(0); 4],
            reconciliation: Reconciliation::none(),
        }
    }
}

// Whether a book may store each of the four. All four are tested, with no branch: `iter().all` was slower.
#[tactic(auto, using(crate::specs::Fours::tested_four))]
pub fn four_in_limits<T: Stored>(values: [T; 4]) -> bool
    ensures { result ≡ all_four T.within values }
{
    values[0].in_limits()
        & (values[1].in_limits() & (values[2].in_limits() & values[3].in_limits()))
}

// Row 12 of four: they, where a book may store each.
pub fn four_stored<T: Stored>(values: [T; 4]) -> Result<[T; 4], Refusal>
    ensures { result ≡ stored_or_12 (all_four T.within values) values }
{
    if !four_in_limits(values) {
        return Err(Refusal::NextOutOfLimits);
    }
    Ok(values)
}
