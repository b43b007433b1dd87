// A settlement as its sheet states it, row by row.
ghost use Rattle.std.specs.Prelude.{◌≡◌, map, pos, take, drop};
ghost use Rattle.ints.specs.Range.{Between, Within};
ghost use Rattle.amounts.specs.Amounts.{cents};
ghost use Rattle.electric_rules.specs.Book.{kwh};
ghost use Rattle.electric_rules.specs.Ranges.{BookWithin};
ghost use Rattle.electric_rules.specs.Sizes.{RatesWithin};
ghost use Rattle.electric_rules.specs.Settlement.{weight_by};
ghost use Rattle.electric_settlement.specs.Shares.{as_weight, shares_of};
ghost use Rattle.sheet_rows.specs.Rows.{shown};
ghost use Rattle.sheet.specs.Figures.{base_cost, first_interim, adjusted, previous_factor, annual_factor};
ghost use Rattle.sheet.specs.Sheet.{sheet_by};

use amounts::{Cents, Points};
use electric_refusals::calendar;
use electric_rules::{ElectricBook, EnteringRun, Kwh, Level, Rates, Sales};
use electric_settlement::{PARTS, Shares, TO_A_CENT, Weight};
use riders::months;
use sheet_rows::Row;
use sheet_rows::cells::{Cell, Percentage, Thousandths};

// The rates, the book that the settlement finds, the book after it, and its estimates.
#[derive(Clone, Copy)]
pub(crate) struct Filing {
    pub(crate) rates: Rates,
    pub(crate) found: ElectricBook,
    pub(crate) settled: ElectricBook,
    pub(crate) estimates: Sales,
    ghost rates_within: { RatesWithin rates },
    ghost found_within: { BookWithin found },
    ghost settled_within: { BookWithin settled },
}

// Sales with what was lost on their way to the level, in whole kWh.
fn adjusted(sold: Kwh, loss: i64) -> Kwh
    requires { Between (pos 0) (pos 10000000000) sold.0 × Between (pos 100000) (pos 199999) loss }
    ensures { result ≡ kwh (adjusted sold.0 loss) }
{
    Kwh(rounding::round_div(sold.0 * loss, PARTS))
}

// The factor of the run that stays when the one that the month settles enters.
fn previous(month: u8, level: Level) -> Points
    ensures { result ≡ previous_factor month level }
{
    let third = months::month_after(months::month_after(months::month_after(month)));
    match calendar::entering(third) {
        Some(EnteringRun::First) => level.second.factor,
        Some(EnteringRun::Second) => level.first.factor,
        None => Points(0),
    }
}

// The factor at which bills are once the one that is filed enters.
fn annual(current: Points, previous: Points) -> Points
    requires { Within 99999 current.0 × Within 99999 previous.0 }
    ensures { result ≡ annual_factor current previous }
{
    Points(current.0 + previous.0)
}

impl Filing {
    // B in cents.
    fn base_cost(self) -> Cents
        ensures { result ≡ cents (base_cost self.rates self.found.period) }
    {
        let sold = self.found.period.sales.secondary.0 + self.found.period.sales.primary.0;
        Cents(rounding::round_div(self.rates.base * sold, TO_A_CENT))
    }

    // Rows 1 to 3.
    fn cost_rows(self) -> [Row<'static>; 3]
        ensures { map shown result ≡ take 3 (sheet_by self.rates self.found self.settled self.estimates) }
    {
        let cost = self.found.period.cost;
        let base = self.base_cost();
        [
            Row::of_total(b"1", b"Total energy cost (F, P, and E)", Cell::Money(cost)),
            Row::of_total(b"2", b"Base energy cost (B)", Cell::Money(base)),
            Row::of_total(
                b"3",
                b"First Interim Total",
                Cell::Money(Cents(cost.0 - base.0)),
            ),
        ]
    }

    // Rows 4 to 4.3, by the weight of the settlement.
    fn energy_rows(self, weight: Weight) -> [Row<'static>; 4]
        requires { weight ≡ as_weight (weight_by self.rates self.found.period) }
        ensures { map shown result ≡ take 4 (drop 3 (sheet_by self.rates self.found self.settled self.estimates)) }
    {
        let sold = self.found.period.sales;
        let secondary = adjusted(sold.secondary, self.rates.secondary);
        let primary = adjusted(sold.primary, self.rates.primary);
        [
            Row::of_levels(
                b"4",
                b"Base energy (S_A) by voltage level",
                Cell::Energy(sold.secondary),
                Cell::Energy(sold.primary),
            ),
            Row::of_levels(
                b"4.1",
                b"Loss factors (L)",
                Cell::Proportion(Thousandths(self.rates.secondary)),
                Cell::Proportion(Thousandths(self.rates.primary)),
            ),
            Row::new(
                b"4.2",
                b"S_A adjusted for losses",
                Cell::Energy(Kwh(secondary.0 + primary.0)),
                Cell::Energy(secondary),
                Cell::Energy(primary),
            ),
            Row::of_levels(
                b"4.3",
                b"Loss factor weights",
                Cell::Proportion(Thousandths(weight.0)),
                Cell::Proportion(Thousandths(PARTS - weight.0)),
            ),
        ]
    }

    // Rows 5 and 6, by what the settlement shares.
    fn share_rows(self, shares: Shares) -> [Row<'static>; 2]
        requires { shares ≡ shares_of self.rates self.found.period }
        ensures { map shown result ≡ take 2 (drop 7 (sheet_by self.rates self.found self.settled self.estimates)) }
    {
        [
            Row::of_total(
                b"5",
                b"Customer Responsibility",
                Cell::Percentage(Percentage(self.rates.percentage)),
            ),
            Row::new(
                b"6",
                b"Second Interim Total by voltage level",
                Cell::Money(shares.share),
                Cell::Money(shares.secondary),
                Cell::Money(shares.primary),
            ),
        ]
    }

    // Rows 7 to 10.
    fn owed_rows(self) -> [Row<'static>; 4]
        ensures { map shown result ≡ take 4 (drop 9 (sheet_by self.rates self.found self.settled self.estimates)) }
    {
        [
            Row::of_levels(
                b"7",
                b"Adjustment for Under / Over recovery for prior periods (C)",
                Cell::Money(self.found.secondary.carried),
                Cell::Money(self.found.primary.carried),
            ),
            Row::of_levels(
                b"8",
                b"Interest (I)",
                Cell::Money(self.found.secondary.interest),
                Cell::Money(self.found.primary.interest),
            ),
            Row::of_levels(
                b"9",
                b"Fuel Adjustment Clause",
                Cell::Money(self.settled.secondary.pending.due),
                Cell::Money(self.settled.primary.pending.due),
            ),
            Row::of_levels(
                b"10",
                b"Estimated recovery period sales kWh (S_R)",
                Cell::Energy(self.estimates.secondary),
                Cell::Energy(self.estimates.primary),
            ),
        ]
    }

    // Rows 11 to 13.
    fn factor_rows(self) -> [Row<'static>; 3]
        ensures { map shown result ≡ drop 13 (sheet_by self.rates self.found self.settled self.estimates) }
    {
        let secondary = self.settled.secondary.pending.factor;
        let primary = self.settled.primary.pending.factor;
        let secondary_before = previous(self.found.month, self.found.secondary);
        let primary_before = previous(self.found.month, self.found.primary);
        [
            Row::of_levels(
                b"11",
                b"Current period cost adjustment factor",
                Cell::Factor(secondary),
                Cell::Factor(primary),
            ),
            Row::of_levels(
                b"12",
                b"Previous period cost adjustment factor",
                Cell::Factor(secondary_before),
                Cell::Factor(primary_before),
            ),
            Row::of_levels(
                b"13",
                b"Current annual cost adjustment factor",
                Cell::Factor(annual(secondary, secondary_before)),
                Cell::Factor(annual(primary, primary_before)),
            ),
        ]
    }

    // The sheet from top to bottom.
    pub(crate) fn rows(self) -> [Row<'static>; 16]
        ensures { map shown result ≡ sheet_by self.rates self.found self.settled self.estimates }
    {
        let shares = electric_settlement::shares_of(self.rates, self.found.period);
        let [row_1, row_2, row_3] = self.cost_rows();
        let [row_4, row_4_1, row_4_2, row_4_3] = self.energy_rows(shares.weight);
        let [row_5, row_6] = self.share_rows(shares);
        let [row_7, row_8, row_9, row_10] = self.owed_rows();
        let [row_11, row_12, row_13] = self.factor_rows();
        [
            row_1, row_2, row_3, row_4, row_4_1, row_4_2, row_4_3, row_5, row_6, row_7, row_8,
            row_9, row_10, row_11, row_12, row_13,
        ]
    }
}
