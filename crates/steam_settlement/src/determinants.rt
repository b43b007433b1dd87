// The billing determinants: the sales over which a settlement spreads the customers' share.
ghost use Rattle.std.specs.Prelude.{◌≡◌};
ghost use Rattle.steam_rules.specs.Book.{mmbtu};
ghost use Rattle.steam_settlement.specs.Determinants.{determinants_or0};

use crate::year::Year;
use amounts::Stored;
use steam_rules::{Mmbtu, four_in_limits};

// The most that an adjustment is above or below 0: document 01's range of b, whatever the limit of stored sales is.
const MOST_ADJUSTMENT: i64 = 100_000_000;

// Document 01's D for any amounts; 0 where one is out of its limits.
// No Option: a public call asks for nothing, and its callers have shown the limits, so that none would meet a None.
pub fn determinants_of(sales: Mmbtu, quarters: [Mmbtu; 4], adjustment: Mmbtu) -> Mmbtu
    ensures { result ≡ mmbtu (determinants_or0 sales quarters adjustment.0) }
{
    let within = sales.in_limits()
        & (four_in_limits(quarters)
            & ints::in_range(adjustment.0, -MOST_ADJUSTMENT, MOST_ADJUSTMENT));
    if !within {
        return Mmbtu(0);
    }
    Year {
        sales,
        quarters,
        adjustment,
    }
    .determinants()
}
