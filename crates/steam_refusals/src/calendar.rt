// The year of the steam book. No other code says which months settle, or which run a month's end lets enter.
ghost use Rattle.std.specs.Prelude.{◌≡◌};
ghost use Rattle.steam_rules.specs.Calendar.{settles, entering};

// Whether the month settles: March, June, September and December do.
#[tactic(auto, unfolding(steam_rules::specs::Calendar::settles))]
pub fn settles(month: u8) -> bool
    ensures { result ≡ settles month }
{
    (month == 3) | ((month == 6) | ((month == 9) | (month == 12)))
}

// The run that pending enters at the month's end, by its place among the four.
#[tactic(auto, unfolding(steam_rules::specs::Calendar::entering))]
pub fn entering(month: u8) -> Option<usize>
    ensures { result ≡ entering month }
{
    match month {
        2 => Some(0),
        5 => Some(1),
        8 => Some(2),
        11 => Some(3),
        _ => None,
    }
}
