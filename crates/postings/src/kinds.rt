// The kinds of postings, how many fields each has, and the bit map of a posting.
ghost use Rattle.std.specs.Prelude.{◌≡◌, ◌<◌};
ghost use Rattle.postings.specs.Kinds.{numbers_of, standing, kind_of, number_of};
ghost use Rattle.postings.specs.BitMaps.{bit_map_of, bit_of, maps_of};

use crate::{Book, Posting};

// The kinds of postings, by their numbers in a record. Which of them a book has, its table says.
#[derive(Clone, Copy, Debug, PartialEq, Eq)]
pub enum Kind {
    // Any other number, and no Option: a kind of no book, as a reconciliation is none of the electric book's, is a row of the tables.
    Unknown,
    Cost,
    Sales,
    Bill,
    Settle,
    MonthEnd,
    Adjust,
    Reconcile,
}

impl From<u8> for Kind {
    ghost from_gives = { λ number kind. kind ≡ kind_of number };

    #[tactic(auto, unfolding(crate::specs::Kinds::kind_of), using(crate::proofs::KindTable::no_kind))]
    fn from(number: u8) -> Kind {
        match number {
            1 => Kind::Cost,
            2 => Kind::Sales,
            3 => Kind::Bill,
            4 => Kind::Settle,
            5 => Kind::MonthEnd,
            6 => Kind::Adjust,
            7 => Kind::Reconcile,
            _ => Kind::Unknown,
        }
    }
}

impl From<Kind> for u8 {
    ghost from_gives = { λ kind number. number ≡ number_of kind };

    // Nothing but `as` gives an enum's number, here and below.
    fn from(kind: Kind) -> u8 {
        kind as u8
    }
}

// What `maps_of` gives of the electric book, by kind: a table, since reading a record took 3 ns more by a `match`.
static ELECTRIC_MAPS: [Option<u8>; 8] = [
    None, // unknown
    Some(8), // cost
    Some(4), // sales
    Some(4), // bill
    Some(4), // settle
    Some(2), // month end
    Some(4), // adjust
    None, // reconcile
];

// The same of the steam book.
static STEAM_MAPS: [Option<u8>; 8] = [
    None, // unknown
    Some(2), // cost
    Some(2), // sales
    Some(2), // bill
    Some(2), // settle
    Some(1), // month end
    Some(4), // adjust
    Some(4), // reconcile
];

// How many bit maps the records of a kind may have, 2 to the number of its fields; none where the book has no such kind. The kind by its number,
// any at all, as a record and a posting hold it.
pub fn maps_of(book: Book, kind: u8) -> Option<u8>
    ensures { result ≡ maps_of book (kind_of kind) }
{
    let kind = Kind::from(kind);
    match book {
        Book::Electric => ELECTRIC_MAPS[kind as usize],
        Book::Steam => STEAM_MAPS[kind as usize],
    }
}

// 1 for a number that has a field, 0 for 0, which has none.
#[tactic(auto, unfolding(crate::specs::BitMaps::bit_of))]
fn bit_of(number: i64) -> u8
    ensures { (result ≡ bit_of number) × (result < 2) }
{
    u8::from(number != 0)
}

// The bit map of the numbers that are not 0.
#[tactic(auto, unfolding(crate::specs::BitMaps::bit_map_of, crate::specs::BitMaps::bit_of))]
pub fn bitmap_of(posting: Posting) -> u8
    ensures { result ≡ bit_map_of (standing (numbers_of posting)) }
{
    bit_of(posting.first) + 2 * bit_of(posting.second) + 4 * bit_of(posting.third)
}
