// What a settlement today would share of the open period, at the rates of the book's division.
ghost use Rattle.std.specs.Prelude.{◌≡◌, true};
ghost use Rattle.amounts.specs.Amounts.{cents};
ghost use Rattle.electric_rules.specs.Limits.{in_limits};
ghost use Rattle.electric_rules.specs.Rates.{rates_of};
ghost use Rattle.electric_rules.specs.Settlement.{secondary_share, primary_share};
ghost use Rattle.electric_rules.specs.Next.{provisional_of};
ghost use Rattle.electric_settlement.specs.Shares.{shares_of};

use amounts::Cents;
use electric_rules::ElectricBook;
use electric_settlement::Shares;

// Inlined always, as what it calls: settle and month end would else share one call.
#[inline(always)]
pub(crate) fn shares_of(book: &ElectricBook) -> Shares
    requires { in_limits book.now ≡ true }
    ensures { result ≡ shares_of (rates_of book.now.division) book.now.period }
{
    let rates = electric_settlement::rates_of(book.division);
    electric_settlement::shares_of(rates, book.period)
}

// Either level's provisional share: 0 in a settled month, and where no kWh were sold yet.
pub(crate) fn provisional_shares(book: &ElectricBook) -> (Cents, Cents)
    requires { in_limits book.now ≡ true }
    ensures { result ≡ (cents (provisional_of secondary_share book.now), cents (provisional_of primary_share book.now)) }
{
    let sales = book.period.sales;
    if book.settled | (sales.secondary.0 + sales.primary.0 == 0) {
        return (Cents(0), Cents(0));
    }
    let shares = shares_of(book);
    (shares.secondary, shares.primary)
}
