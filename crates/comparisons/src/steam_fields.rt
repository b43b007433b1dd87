// Two steam books side by side: in how many of their 23 fields they differ.
ghost use Rattle.std.specs.Prelude.{◌≡◌, [], ◌∷◌, ◌≤◌};
ghost use Rattle.comparisons.specs.Differing.{differing};
ghost use Rattle.comparisons.specs.Fields.{steam_period_fields, factor_fields, reconciliation_fields, steam_fields};

use crate::fields::{in_field, in_places, in_run};
use amounts::Points;
use steam_rules::{Period, Reconciliation, SteamBook};

fn in_period(one: Period, other: Period) -> u64
    ensures { (result ≡ differing (steam_period_fields one) (steam_period_fields other)) × (result ≤ 3) }
{
    in_field(one.cost, other.cost)
        + in_field(one.sales, other.sales)
        + in_field(one.remainder, other.remainder)
}

fn in_reconciliation(one: Reconciliation, other: Reconciliation) -> u64
    ensures { (result ≡ differing (reconciliation_fields one) (reconciliation_fields other)) × (result ≤ 3) }
{
    in_run(one.run, other.run) + in_field(one.months, other.months)
}

// The factors of runs 1 to 4, each beside the same run's. By place and not by `in_places`: so this contract refuses a run beside another.
fn in_factors(one: [Points; 4], other: [Points; 4]) -> u64
    ensures { (result ≡ differing (factor_fields one) (factor_fields other)) × (result ≤ 4) }
{
    in_field(one[0], other[0])
        + in_field(one[1], other[1])
        + in_field(one[2], other[2])
        + in_field(one[3], other[3])
}

// In how many of their 23 fields two books differ.
pub fn differing(one: SteamBook, other: SteamBook) -> u64
    ensures { (result ≡ differing (steam_fields one) (steam_fields other)) × (result ≤ 23) }
{
    in_field(one.month, other.month)
        + in_field(one.settled, other.settled)
        + in_period(one.period, other.period)
        + in_places(&one.quarters, &other.quarters)
        + in_field(one.carried, other.carried)
        + in_run(one.pending, other.pending)
        + in_factors(one.factors, other.factors)
        + in_places(&one.dues, &other.dues)
        + in_reconciliation(one.reconciliation, other.reconciliation)
}
