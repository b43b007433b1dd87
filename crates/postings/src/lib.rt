// Postings: what a book is given and what it answers, with the table of kinds and fields.
#![tactic(auto)]

ghost use Rattle.std.specs.Prelude.{◌≡◌};
ghost use Rattle.postings.specs.Kinds.{kind_of, unknown_kind, stray_number, out_of_range};

use amounts::{Cents, Points};
use kinds::Kind;

pub mod kinds;
mod ranges;

// Which book a posting is for: the electric one (fuel adjustment) or the steam one (quarterly cost adjustment).
#[derive(Clone, Copy)]
pub enum Book {
    Electric,
    Steam,
}

// A posting in memory: a kind and three numbers.
#[repr(C)]
#[derive(Clone, Copy)]
pub struct Posting {
    // A number, since a host or a journal may hand in any: one of no kind is refused 2.
    pub kind: u8,
    pub first: i64,
    pub second: i64,
    pub third: i64,
}

impl Posting {
    // The kind that its number names.
    pub fn kind(self) -> Kind
        ensures { result ≡ kind_of self.kind }
    {
        Kind::from(self.kind)
    }
}

// What a book answers to a posting that it accepts: a bill's line, the factors that a settlement filed (one a level on the electric book,
// one on the steam book), a month's interest for both levels, or that it is done. Two levels stand by position, since each `match` takes
// them apart.
#[derive(Clone, Copy)]
pub enum Answer {
    Line(Cents),
    FiledLevels(Points, Points),
    Filed(Points),
    Interest(Cents, Cents),
    Done,
}

// An answer and the book after it.
#[derive(Clone, Copy)]
pub struct Posted<B> {
    pub answer: Answer,
    pub book: B,
}

// The book and the posting are no struct: two values that a caller holds already, for three calls in a row.

// Refusal 2: the book has no such kind.
#[tactic(auto, unfolding(crate::specs::Kinds::unknown_kind))]
pub fn unknown_kind(book: Book, posting: Posting) -> bool
    ensures { result ≡ unknown_kind book posting.kind }
{
    kinds::maps_of(book, posting.kind).is_none()
}

// Refusal 3: a number that is not 0 and that the kind lacks.
#[tactic(auto, unfolding(crate::specs::Kinds::stray_number), using(crate::proofs::KindTable::lacks, crate::proofs::KindTable::lacks_all))]
pub fn stray_number(book: Book, posting: Posting) -> bool
    ensures { result ≡ stray_number book posting }
{
    let bits = kinds::bitmap_of(posting);
    match kinds::maps_of(book, posting.kind) {
        Some(maps) => maps <= bits,
        None => 0 < bits,
    }
}

// Refusal 7: a number that its field may not hold.
#[tactic(auto, unfolding(crate::specs::Kinds::out_of_range, crate::specs::Kinds::fields_of))]
pub fn out_of_range(book: Book, posting: Posting) -> bool
    ensures { result ≡ out_of_range book posting }
{
    let kind = posting.kind();
    match book {
        Book::Electric => !ranges::electric_in_fields(kind, posting),
        Book::Steam => !ranges::steam_in_fields(kind, posting),
    }
}
