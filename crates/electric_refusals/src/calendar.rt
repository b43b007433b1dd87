// The year of the electric book. No other code says which months settle, or which run a month's end lets enter.
ghost use Rattle.std.specs.Prelude.{◌≡◌};
ghost use Rattle.electric_rules.specs.Calendar.{settles, entering};

use electric_rules::EnteringRun;

// Whether the month settles: November and May do.
pub fn settles(month: u8) -> bool
    ensures { result ≡ settles month }
{
    (month == 11) | (month == 5)
}

// The run that pending enters at the month's end, if it enters one.
pub fn entering(month: u8) -> Option<EnteringRun>
    ensures { result ≡ entering month }
{
    match month {
        2 => Some(EnteringRun::First),
        8 => Some(EnteringRun::Second),
        _ => None,
    }
}
