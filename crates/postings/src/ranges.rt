// The ranges of the table: whether each number of a posting is one that its field may hold.
ghost use Rattle.std.specs.Prelude.{◌≡◌};
ghost use Rattle.postings.specs.Kinds.{table_of, or_none, numbers_of, in_fields};

use crate::kinds::Kind;
use crate::{Book, Posting};
use ints::in_range;

pub(crate) fn electric_in_fields(kind: Kind, posting: Posting) -> bool
    ensures { result ≡ in_fields (or_none (table_of Book.Electric kind)) (numbers_of posting) }
{
    let Posting {
        first,
        second,
        third,
        ..
    } = posting;
    match kind {
        Kind::Cost => {
            in_range(first, -10_000_000_000, 10_000_000_000)
                & in_range(second, -10_000_000_000, 10_000_000_000)
                & in_range(third, -10_000_000_000, 10_000_000_000)
        }
        Kind::Sales => in_range(first, 0, 10_000_000_000) & in_range(second, 0, 10_000_000_000),
        Kind::Bill => in_range(first, 0, 1) & in_range(second, -1_000_000_000, 1_000_000_000),
        Kind::Settle => in_range(first, 1, 10_000_000_000) & in_range(second, 1, 10_000_000_000),
        Kind::MonthEnd => in_range(first, 0, 200_000),
        Kind::Adjust => in_range(first, 0, 1) & in_range(second, -10_000_000_000, 10_000_000_000),
        Kind::Reconcile | Kind::Unknown => true,
    }
}

pub(crate) fn steam_in_fields(kind: Kind, posting: Posting) -> bool
    ensures { result ≡ in_fields (or_none (table_of Book.Steam kind)) (numbers_of posting) }
{
    let Posting { first, second, .. } = posting;
    match kind {
        Kind::Cost => in_range(first, -10_000_000_000, 10_000_000_000),
        Kind::Sales => in_range(first, 0, 100_000_000),
        Kind::Bill => in_range(first, -10_000_000, 10_000_000),
        Kind::Settle => in_range(first, -100_000_000, 100_000_000),
        Kind::MonthEnd => true,
        Kind::Adjust => in_range(first, -10_000_000_000, 10_000_000_000)
            & in_range(second, 0, 100_000_000_000),
        Kind::Reconcile => { ((first == 12) | (first == 24)) & in_range(second, 1, 100_000_000) }
        Kind::Unknown => true,
    }
}
