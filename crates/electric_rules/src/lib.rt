// The electric book: its types, its opening and its limits. What a posting does to it is said in specs/, with the claim that no cent is
// lost over any list of postings.
#![tactic(auto)]

ghost use Rattle.std.specs.Prelude.{◌≡◌};
ghost use Rattle.electric_rules.specs.Book.{fresh_level, fresh_of, opened_of, handed_back};
ghost use Rattle.electric_rules.specs.Rates.{rates_in_range};
ghost use Rattle.electric_rules.specs.Limits.{kwh_in_limits, remainder_in_limits, level_in_limits, period_in_limits};
ghost use Rattle.electric_rules.specs.Next.{level_at, with_level_at};

use amounts::{Cents, Stored};
use refusals::Refusal;
use riders::Run;

// Sales in kWh.
#[repr(C)]
#[derive(Clone, Copy, Debug, PartialEq, Eq)]
pub struct Kwh(pub i64);

// What rounding left of the customers' shares, in hundred-thousandths of a cent: document 01's rem.
// A type of its own in either book, since it counts other parts of a cent.
#[repr(C)]
#[derive(Clone, Copy, Debug, PartialEq, Eq)]
pub struct Remainder(pub i64);

// A voltage level: document 01's C, I, pending run and two runs.
#[repr(C)]
#[derive(Clone, Copy, Debug, PartialEq, Eq)]
pub struct Level {
    pub carried: Cents,
    pub interest: Cents,
    pub pending: Run,
    pub first: Run,
    pub second: Run,
}

// Sales by level, actual or estimated: document 01's Ss and Sp, or Rs and Rp.
#[repr(C)]
#[derive(Clone, Copy, Debug, PartialEq, Eq)]
pub struct Sales {
    pub secondary: Kwh,
    pub primary: Kwh,
}

// The open period: document 01's K, its sales, and the remainder of the periods before.
#[repr(C)]
#[derive(Clone, Copy, Debug, PartialEq, Eq)]
pub struct Period {
    pub cost: Cents,
    pub sales: Sales,
    pub remainder: Remainder,
}

// A division's book: the open period and both levels. The division is a number and no enum: a host may hand in any, which 6 refuses.
#[repr(C)]
#[derive(Clone, Copy, Debug, PartialEq, Eq)]
pub struct ElectricBook {
    pub division: u8,
    pub month: u8,
    pub settled: bool,
    pub period: Period,
    pub secondary: Level,
    pub primary: Level,
}

// The rates of a division: the customers' percentage of a variance, the base in hundred-thousandths of a dollar per kWh, and the loss
// factors by level over 100,000.
#[repr(C)]
#[derive(Clone, Copy, Debug, PartialEq, Eq)]
pub struct Rates {
    pub percentage: i64,
    pub base: i64,
    pub secondary: i64,
    pub primary: i64,
}

// The run of a level that pending enters at a month's end.
#[derive(Clone, Copy, Debug, PartialEq, Eq)]
pub enum EnteringRun {
    First,
    Second,
}

impl Stored for Kwh {
    ghost within = { kwh_in_limits };

    fn in_limits(self) -> bool {
        ints::in_range(self.0, 0, ElectricBook::MOST_KWH)
    }
}

impl Stored for Remainder {
    ghost within = { remainder_in_limits };

    fn in_limits(self) -> bool {
        ints::in_range(
            self.0,
            -ElectricBook::MOST_REMAINDER,
            ElectricBook::MOST_REMAINDER,
        )
    }
}

impl Stored for Period {
    ghost within = { period_in_limits };

    fn in_limits(self) -> bool {
        self.cost.in_limits()
            & (self.sales.secondary.in_limits()
                & (self.sales.primary.in_limits() & self.remainder.in_limits()))
    }
}

impl Rates {
    // The most of a percentage; the least is 1.
    const MOST_PERCENTAGE: i64 = 100;

    // The most of a base; the least is 0.
    const MOST_BASE: i64 = 99_999;

    // The least of a loss factor: nothing is lost.
    const LEAST_LOSS: i64 = 100_000;

    // The most of a loss factor.
    const MOST_LOSS: i64 = 199_999;

    // Whether a sheet may state the rates.
    pub fn in_range(self) -> bool
        ensures { result ≡ rates_in_range self }
    {
        ints::in_range(self.percentage, 1, Rates::MOST_PERCENTAGE)
            & (ints::in_range(self.base, 0, Rates::MOST_BASE)
                & (ints::in_range(self.secondary, Rates::LEAST_LOSS, Rates::MOST_LOSS)
                    & ints::in_range(self.primary, Rates::LEAST_LOSS, Rates::MOST_LOSS)))
    }
}

impl ElectricBook {
    // The month of a fresh book: June.
    pub const FIRST_MONTH: u8 = 6;

    // MPS's; L&P's is 0.
    pub const LAST_DIVISION: u8 = 1;

    // The most open kWh of a level; the least is 0.
    pub const MOST_KWH: i64 = 10_000_000_000;

    // The most that the remainder is above or below 0.
    pub const MOST_REMAINDER: i64 = 50_000;

    // The fresh book of a division, 0 L&P or 1 MPS. Any other is out of range: a number, since a host or a journal hands in any.
    #[tactic(auto, unfolding(crate::specs::Book::opened_of, refusals::specs::Rows::by_table, refusals::specs::Rows::refusal_by))]
    pub fn open(division: u8) -> Result<ElectricBook, Refusal>
        ensures { result ≡ opened_of division }
    {
        if ElectricBook::LAST_DIVISION < division {
            return Err(Refusal::OutOfRange);
        }
        Ok(ElectricBook::fresh(division))
    }

    // The book that an opening hands back: the fresh one, or L&P's where it is refused.
    pub fn handed_back(division: u8) -> ElectricBook
        ensures { result ≡ handed_back division }
    {
        ElectricBook::open(division).unwrap_or(ElectricBook::fresh(0))
    }

    // The level that a bill or an adjustment names: 0 secondary, any other primary.
    // No enum: it is a posting's number, and the definitions take any.
    pub fn level(self, named: i64) -> Level
        ensures { result ≡ level_at named self }
    {
        if named == 0 {
            self.secondary
        } else {
            self.primary
        }
    }

    // The book with another level in the place of the one so named.
    pub fn with_level(self, named: i64, level: Level) -> ElectricBook
        ensures { result ≡ with_level_at named self level }
    {
        if named == 0 {
            return ElectricBook {
                secondary: level,
                ..self
            };
        }
        ElectricBook {
            primary: level,
            ..self
        }
    }

    fn fresh(division: u8) -> ElectricBook
        ensures { result ≡ fresh_of division }
    {
        let level = Level::fresh();
        ElectricBook {
            division: division,
            month: ElectricBook::FIRST_MONTH,
            settled: false,
            period: Period {
                cost: Cents(0),
                sales: Sales {
                    secondary: Kwh(0),
                    primary: Kwh(0),
                },
                remainder: Remainder(0),
            },
            secondary: level,
            primary: level,
        }
    }
}

impl Stored for Level {
    ghost within = { level_in_limits };

    fn in_limits(self) -> bool {
        self.carried.in_limits()
            & (self.interest.in_limits()
                & (self.pending.in_limits() & (self.first.in_limits() & self.second.in_limits())))
    }
}

impl Level {
    fn fresh() -> Level
        ensures { result ≡ fresh_level }
    {
        let none = Run::none();
        Level {
            carried: Cents(0),
            interest: Cents(0),
            pending: none,
            first: none,
            second: none,
        }
    }
}
