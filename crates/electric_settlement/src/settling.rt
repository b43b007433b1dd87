// The period that a settlement finds, with the rates of its division: rates that a sheet may state, and amounts within their limits.
ghost use Rattle.std.specs.Prelude.{◌≡◌, pos};
ghost use Rattle.rounding.specs.Round.{round};
ghost use Rattle.amounts.specs.Amounts.{cents};
ghost use Rattle.electric_rules.specs.Ranges.{PeriodWithin};
ghost use Rattle.electric_rules.specs.Sizes.{RatesWithin};

use crate::{PARTS, Shares, TO_A_CENT, Weight};
use amounts::Cents;
use electric_rules::{Period, Rates, Remainder};

#[derive(Clone, Copy)]
pub(crate) struct Settling {
    pub(crate) rates: Rates,
    pub(crate) period: Period,
    ghost rates_within: { RatesWithin rates },
    ghost period_within: { PeriodWithin period },
}

impl Settling {
    ghost use Rattle.electric_rules.specs.Book.{remainder};
    ghost use Rattle.electric_rules.specs.Settlement.{shareable_of, weight_by};
    ghost use Rattle.electric_settlement.specs.Shares.{as_weight, shares_of};

    // What is to be shared: the customers' percentage of the variance, and the remainder of the periods before.
    fn shareable(self) -> Remainder
        ensures { result ≡ remainder (shareable_of self.rates self.period) }
    {
        let sold = self.period.sales.secondary.0 + self.period.sales.primary.0;
        let variance = TO_A_CENT * self.period.cost.0 - self.rates.base * sold;
        Remainder(self.rates.percentage * variance + self.period.remainder.0)
    }

    // The secondary level's part of the sales, each level's being weighed by its loss factor.
    fn weight(self) -> Weight
        ensures { result ≡ as_weight (weight_by self.rates self.period) }
    {
        Weight(rounding::weight(
            self.period.sales.secondary.0 * self.rates.secondary,
            self.period.sales.primary.0 * self.rates.primary,
        ))
    }

    // Of the customers' share in whole cents the secondary level's part, by its weight, and the rest; and what rounding leaves.
    pub(crate) fn shares(self) -> Shares
        ensures { result ≡ shares_of self.rates self.period }
    {
        let shareable = self.shareable();
        let share = whole_cents(shareable);
        let weight = self.weight();
        let secondary = whole_cents(Remainder(share.0 * weight.0));
        Shares {
            share,
            weight,
            secondary,
            primary: Cents(share.0 - secondary.0),
            remainder: Remainder(shareable.0 - PARTS * share.0),
        }
    }
}

// The whole cents next to so many parts of a cent: a name for the remainder's unit, where a bill has points.
fn whole_cents(parts: Remainder) -> Cents
    ensures { result ≡ cents (round parts.0 (pos 100000)) }
{
    Cents(rounding::round_div(parts.0, PARTS))
}
