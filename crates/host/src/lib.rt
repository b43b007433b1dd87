// What a billing host links: the ledger's calls by the C calling convention. Each is total, and its contract is that of the
// proved call below it.
#![tactic(auto)]

ghost use Rattle.std.specs.Prelude.{◌≡◌};
ghost use Rattle.rounding.specs.Round.{round};
ghost use Rattle.rounding.specs.Weight.{weight_or0};
ghost use Rattle.amounts.specs.Text.{cents_text, points_text, text_written, text_left};
ghost use Rattle.records.specs.Records.{read_of, record_written, record_left};
ghost use Rattle.host.specs.Books.{book_of};
ghost use Rattle.host.specs.Results.{read_at};
ghost use Rattle.replies.specs.Results.{written_as};

use amounts::{Amount, Cents, Points};
use postings::{Book, Posting};
use replies::Written;
use results::Read;

mod electric_book;
mod results;
mod steam_book;

// round(a/b); a divisor below 1 gives 0.
#[unsafe(no_mangle)]
pub extern "C" fn neapscroll_round_div(a: i64, b: i64) -> i64
    ensures { result ≡ round a b }
{
    rounding::round_div(a, b)
}

// The secondary level's weight in a settlement; 0 where either is below 0 or above 2 × 10^15.
#[unsafe(no_mangle)]
pub extern "C" fn neapscroll_weight(secondary: i64, primary: i64) -> i64
    ensures { result ≡ weight_or0 secondary primary }
{
    rounding::weight(secondary, primary)
}

// Writes cents as text. A call a type, here and in a reply, since C has no generics.
#[unsafe(no_mangle)]
pub extern "C" fn neapscroll_write_cents(cents: Cents, buffer: &mut [u8]) -> Written
    ensures { (result ≡ written_as (text_written (cents_text cents) buffer.old)) × (buffer.new ≡ text_left (cents_text cents) buffer.old) }
{
    Written::from(cents.write(buffer))
}

// Writes points as text.
#[unsafe(no_mangle)]
pub extern "C" fn neapscroll_write_points(points: Points, buffer: &mut [u8]) -> Written
    ensures { (result ≡ written_as (text_written (points_text points) buffer.old)) × (buffer.new ≡ text_left (points_text points) buffer.old) }
{
    Written::from(points.write(buffer))
}

// A flag, since C passes no enum of the ledger's.
fn book_of(steam: bool) -> Book
    ensures { result ≡ book_of steam }
{
    if steam { Book::Steam } else { Book::Electric }
}

// Reads the record at a place, of the steam book or of the electric one. C keeps the place between two calls.
#[unsafe(no_mangle)]
pub extern "C" fn neapscroll_read_record(steam: bool, bytes: &[u8], place: usize) -> Read
    ensures { result ≡ read_at place (read_of (book_of steam) bytes.now place) }
{
    results::read_at(place, records::read_record(book_of(steam), bytes, place))
}

// Writes the record of a posting to the steam book or to the electric one.
#[unsafe(no_mangle)]
pub extern "C" fn neapscroll_write_record(
    steam: bool,
    posting: Posting,
    buffer: &mut [u8],
) -> Written
    ensures { (result ≡ written_as (record_written (book_of steam) posting buffer.old)) × (buffer.new ≡ record_left (book_of steam) posting buffer.old) }
{
    Written::from(records::write_record(book_of(steam), posting, buffer))
}
