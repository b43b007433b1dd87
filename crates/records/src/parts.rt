// The parts of a record: its length, its bit map, its fields.
ghost use Rattle.std.specs.Prelude.{◌≡◌, ◌++◌, ◌+◌, ◌/◌, ◌%◌, ◌≤◌, ◌<◌, eqb, length, drop, pos, IsTrue, MatchOption};
ghost use Rattle.postings.specs.Kinds.{numbers_of, standing};
ghost use Rattle.postings.specs.BitMaps.{bit_map_of};
ghost use Rattle.records.specs.Fields.{field_of};
ghost use Rattle.records.specs.Records.{record_length, record_of};
ghost use Rattle.records.specs.Steps.{Finds, posting_in};

use crate::fields;
use postings::Posting;

// The bytes from a place on, where it is none past the end: what the calls that take a place go on with.
pub(crate) fn rest(bytes: &[u8], place: usize) -> Option<&[u8]>
    ensures { MatchOption result (length bytes.now < place) (λ rest. rest.now ≡ drop place bytes.now) }
{
    bytes.get(place..)
}

// The ones of the bit map are the record's fields. std has no `from` of a u32 for a usize.
#[tactic(auto, unfolding(crate::specs::Records::record_length))]
pub(crate) fn record_length(bitmap: u8) -> usize
    ensures { result ≡ record_length bitmap }
{
    2 + 8 * bitmap.count_ones() as usize
}

// The number that a bit of the map finds at the front of the bytes, and the bytes behind it: 0 where the bit does not stand, none where
// a field of 0 does.
fn number_in(fields: &[u8], stands: bool) -> Option<(i64, &[u8])>
    requires { IsTrue stands → 8 ≤ length fields.now }
    ensures { MatchOption result (IsTrue stands × (field_of fields.now ≡ pos 0)) (λ p. Finds stands fields.now p.0 p.1.now) }
{
    if !stands {
        return Some((0, fields));
    }
    let (number, rest) = fields::split_field(fields).unwrap();
    if number == 0 {
        return None;
    }
    Some((number, rest))
}

// The third number, by the last bit of the map, as `number_in` finds it. A contract of its own, by which a third field of 0 is refused.
fn third_in(fields: &[u8], bitmap: u8) -> Option<(i64, &[u8])>
    requires { IsTrue (eqb (bitmap / 4 % 2) 1) → 8 ≤ length fields.now }
    ensures { MatchOption result (IsTrue (eqb (bitmap / 4 % 2) 1) × (field_of fields.now ≡ pos 0)) (λ p. Finds (eqb (bitmap / 4 % 2) 1) fields.now p.0 p.1.now) }
{
    number_in(fields, bitmap / 4 % 2 == 1)
}

// The posting whose fields a bit map of at most three bits names; none where one of them is 0.
// The kind is the byte, since a posting holds a number, and has been looked up before.
pub(crate) fn posting_in(kind: u8, bitmap: u8, fields: &[u8]) -> Option<Posting>
    requires { (bitmap < 8) × (record_length bitmap ≤ 2 + length fields.now) }
    ensures { result ≡ posting_in kind bitmap fields.now }
{
    let (first, rest) = number_in(fields, bitmap % 2 == 1)?;
    let (second, rest) = number_in(rest, bitmap / 2 % 2 == 1)?;
    let (third, _) = third_in(rest, bitmap)?;
    Some(Posting {
        kind,
        first,
        second,
        third,
    })
}

// Stores the record of a posting. The place is counted: going down what is left of the buffer, field behind field, was a quarter slower.
pub(crate) fn put_record(posting: Posting, bitmap: u8, buffer: &mut [u8])
    requires { (bitmap ≡ bit_map_of (standing (numbers_of posting))) × (length (record_of posting) ≤ length buffer.old) }
    ensures { buffer.new ≡ record_of posting ++ drop (length (record_of posting)) buffer.old }
{
    buffer[0] = posting.kind;
    buffer[1] = bitmap;
    let mut at = 2;
    for number in [posting.first, posting.second, posting.third] {
        if number != 0 {
            fields::put_field(&mut buffer[at..], number);
            at += 8;
        }
    }
}
