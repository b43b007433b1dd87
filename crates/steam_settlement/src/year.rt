// The sales of a year, each within its limits.
ghost use Rattle.steam_rules.specs.Ranges.{MmbtuWithin};
ghost use Rattle.steam_rules.specs.Quarters.{QuartersWithin, AdjustmentWithin};

use steam_rules::Mmbtu;

// The open quarter's sales, the past quarters' and a settlement's adjustment.
#[derive(Clone, Copy)]
pub(crate) struct Year {
    pub(crate) sales: Mmbtu,
    pub(crate) quarters: [Mmbtu; 4],
    pub(crate) adjustment: Mmbtu,
    ghost sales_within: { MmbtuWithin sales },
    ghost quarters_within: { QuartersWithin quarters },
    ghost adjustment_within: { AdjustmentWithin adjustment.0 },
}

impl Year {
    ghost use Rattle.std.specs.Prelude.{◌≡◌, ◌+ℤ◌};
    ghost use Rattle.steam_rules.specs.Book.{mmbtu};
    ghost use Rattle.steam_rules.specs.Settlement.{oldest, three_newest, sold_in, off_by_five, determinants_of};

    // Whether sales are more than 5 percent off those of the oldest quarter.
    fn off_by_five(self) -> bool
        ensures { result ≡ off_by_five self.sales.0 (oldest self.quarters) }
    {
        let oldest = self.quarters[0];
        (105 * oldest.0 < 100 * self.sales.0) | (100 * self.sales.0 < 95 * oldest.0)
    }

    // The open quarter's sales and those of the three newest past quarters.
    fn sold(self) -> Mmbtu
        ensures { result ≡ mmbtu (self.sales.0 +ℤ sold_in (three_newest self.quarters)) }
    {
        let newest = self.quarters[1].0 + (self.quarters[2].0 + self.quarters[3].0);
        Mmbtu(self.sales.0 + newest)
    }

    // The determinants: the adjustment is taken only where sales are that far off.
    pub(crate) fn determinants(self) -> Mmbtu
        ensures { result ≡ mmbtu (determinants_of self.sales.0 self.quarters self.adjustment.0) }
    {
        let sold = self.sold();
        if self.off_by_five() {
            return Mmbtu(sold.0 + self.adjustment.0);
        }
        sold
    }
}
