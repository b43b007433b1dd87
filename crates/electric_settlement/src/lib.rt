// What a settlement works out from the period: the customers' share, the levels' shares and what rounding leaves.
#![tactic(auto)]

ghost use Rattle.std.specs.Prelude.{◌≡◌};
ghost use Rattle.electric_rules.specs.Rates.{rates_of};
ghost use Rattle.electric_settlement.specs.Shares.{shares_or0};

use amounts::{Cents, Stored};
use electric_rules::{Period, Rates, Remainder};
use settling::Settling;

mod settling;

// Hundred-thousandths of a dollar, in which a base counts, to a cent.
pub const TO_A_CENT: i64 = 1_000;

// Parts of a cent in which the remainder counts; the weight of all sales; and what a loss factor is over.
pub const PARTS: i64 = 100_000;

// The secondary level's part of the customers' share, in hundred-thousandths.
#[derive(Clone, Copy, Debug, PartialEq, Eq)]
pub struct Weight(pub i64);

// The customers' share, the weight by which it is parted, both levels' shares, and the remainder that is left.
#[derive(Clone, Copy, Debug, PartialEq, Eq)]
pub struct Shares {
    pub share: Cents,
    pub weight: Weight,
    pub secondary: Cents,
    pub primary: Cents,
    pub remainder: Remainder,
}

// The rates of a division by the book's number of it, as a host's struct has it: L&P's of 0, MPS's of any other.
pub fn rates_of(division: u8) -> Rates
    ensures { result ≡ rates_of division }
{
    if division == 0 {
        return Rates {
            percentage: 95,
            base: 1799,
            secondary: 108_443,
            primary: 106_231,
        };
    }
    Rates {
        percentage: 95,
        base: 2538,
        secondary: 107_433,
        primary: 104_187,
    }
}

// What a settlement works out, for any rates and period: nothing is shared where a rate or an amount is out of range.
// No Option: a public call asks for nothing, and its caller has shown the limits, so that it would never meet a None.
// Inlined always: settle and month end both ask, and to a call rates, period and shares would go through memory.
#[inline(always)]
pub fn shares_of(rates: Rates, period: Period) -> Shares
    ensures { result ≡ shares_or0 rates period }
{
    if rates.in_range() & period.in_limits() {
        return Settling { rates, period }.shares();
    }
    Shares {
        share: Cents(0),
        weight: Weight(0),
        secondary: Cents(0),
        primary: Cents(0),
        remainder: period.remainder,
    }
}
