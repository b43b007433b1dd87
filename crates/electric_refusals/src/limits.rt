// The limits of what an electric book stores.
ghost use Rattle.std.specs.Prelude.{◌≡◌};
ghost use Rattle.electric_rules.specs.Limits.{dates_in_limits, in_limits};

use amounts::Stored;
use electric_rules::ElectricBook;

fn dates_in_limits(book: ElectricBook) -> bool
    ensures { result ≡ dates_in_limits book }
{
    (book.division <= ElectricBook::LAST_DIVISION)
        & riders::months::in_limits(
            book.month,
            crate::calendar::settles(book.month),
            book.settled,
        )
}

// Whether every value of the book lies within its limits.
pub fn in_limits(book: ElectricBook) -> bool
    ensures { result ≡ in_limits book }
{
    dates_in_limits(book)
        & (book.period.in_limits() & (book.secondary.in_limits() & book.primary.in_limits()))
}
