// The quarter that a settlement finds, within its limits.
ghost use Rattle.steam_rules.specs.Ranges.{PeriodWithin};

use crate::Shared;
use amounts::Cents;
use steam_rules::{Mmbtu, Period, Remainder};

// The customers' percentage of a variance.
const PERCENTAGE: i64 = 80;

// The base, in points per million BTU.
const BASE: i64 = 30_050;

// Parts of a cent in which the remainder counts.
const PARTS: i64 = 10_000;

#[derive(Clone, Copy)]
pub(crate) struct Settling {
    pub(crate) period: Period,
    ghost period_within: { PeriodWithin period },
}

impl Settling {
    ghost use Rattle.std.specs.Prelude.{◌≡◌, pos};
    ghost use Rattle.steam_rules.specs.Book.{remainder, period_of};
    ghost use Rattle.steam_rules.specs.Settlement.{shareable_of, share_of, remainder_after};
    ghost use Rattle.steam_settlement.specs.Shares.{shared_as};

    // What is to be shared: the customers' percentage of the variance, and the remainder of the quarters before.
    fn shareable(self) -> Remainder
        ensures { result ≡ remainder (shareable_of self.period) }
    {
        let variance = 100 * self.period.cost.0 - BASE * self.period.sales.0;
        Remainder(PERCENTAGE * variance + self.period.remainder.0)
    }

    // The customers' share in whole cents, and the next quarter: nothing open, and what rounding leaves.
    pub(crate) fn shared(self) -> Shared
        ensures { result ≡ shared_as (share_of self.period) (period_of (pos 0) (pos 0) (remainder_after self.period)) }
    {
        let shareable = self.shareable();
        let share = Cents(rounding::round_div(shareable.0, PARTS));
        let remainder = Remainder(shareable.0 - PARTS * share.0);
        Shared {
            share,
            period: Period {
                cost: Cents(0),
                sales: Mmbtu(0),
                remainder,
            },
        }
    }
}
