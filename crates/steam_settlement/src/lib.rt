// What a settlement works out of the quarter: the customers' share and what rounding leaves; and the sales over which it is spread.
#![tactic(auto)]

ghost use Rattle.std.specs.Prelude.{◌≡◌};
ghost use Rattle.steam_settlement.specs.Shares.{shared_or0};

use amounts::{Cents, Stored};
use settling::Settling;
use steam_rules::Period;

pub mod determinants;
mod settling;
mod year;

// A quarter's share and the quarter after it.
#[derive(Clone, Copy, Debug, PartialEq, Eq)]
pub struct Shared {
    pub share: Cents,
    pub period: Period,
}

// Document 01's R and the next quarter for any quarter; no share, and the quarter as it was, where that is out of its limits.
// No Option: a public call asks for nothing, and its caller has shown the limits, so that it would never meet a None.
#[tactic(auto, unfolding(crate::specs::Shares::shared_or0))]
pub fn shared_of(period: Period) -> Shared
    ensures { result ≡ shared_or0 period }
{
    if !period.in_limits() {
        return Shared {
            share: Cents(0),
            period,
        };
    }
    Settling { period }.shared()
}
