// Two electric books side by side: in how many of their 23 fields they differ.
ghost use Rattle.std.specs.Prelude.{◌≡◌, [], ◌∷◌, ◌≤◌};
ghost use Rattle.comparisons.specs.Differing.{differing};
ghost use Rattle.comparisons.specs.Fields.{electric_period_fields, level_fields, electric_fields};

use crate::fields::{in_field, in_run};
use electric_rules::{ElectricBook, Level, Period};

fn in_period(one: Period, other: Period) -> u64
    ensures { (result ≡ differing (electric_period_fields one) (electric_period_fields other)) × (result ≤ 4) }
{
    in_field(one.cost, other.cost)
        + in_field(one.sales.secondary, other.sales.secondary)
        + in_field(one.sales.primary, other.sales.primary)
        + in_field(one.remainder, other.remainder)
}

fn in_level(one: Level, other: Level) -> u64
    ensures { (result ≡ differing (level_fields one) (level_fields other)) × (result ≤ 8) }
{
    in_field(one.carried, other.carried)
        + in_field(one.interest, other.interest)
        + in_run(one.pending, other.pending)
        + in_run(one.first, other.first)
        + in_run(one.second, other.second)
}

// In how many of their 23 fields two books differ.
pub fn differing(one: ElectricBook, other: ElectricBook) -> u64
    ensures { (result ≡ differing (electric_fields one) (electric_fields other)) × (result ≤ 23) }
{
    in_field(one.division, other.division)
        + in_field(one.month, other.month)
        + in_field(one.settled, other.settled)
        + in_period(one.period, other.period)
        + in_level(one.secondary, other.secondary)
        + in_level(one.primary, other.primary)
}
