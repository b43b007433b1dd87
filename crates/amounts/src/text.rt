// The parts of a text, written where they are to stand: how many digits, the digits, and what the writer answers.
ghost use Rattle.std.specs.Prelude.{◌≡◌, [], ◌∷◌, ◌≤◌, ltb, length};
ghost use Rattle.ints.specs.Digits.{digits};
ghost use Rattle.std.specs.Fmt.{WritesOnOk};
ghost use Rattle.refusals.specs.Rows.{row, by_table};
ghost use Rattle.amounts.specs.Text.{characters, width_of, decimal, text_left};

use crate::Amount;
use refusals::{Refusal, refuse_if};
use std::{fmt, str};

// How many digits a whole number has. By cases: std's `ilog10` is known too late for the processor to guess how many digits follow.
pub(crate) fn width(n: u64) -> usize
    ensures digits { result ≡ width_of n }
    ensures few { result ≤ 20 }
{
    match n {
        0..=9 => 1,
        10..=99 => 2,
        100..=999 => 3,
        1_000..=9_999 => 4,
        _ => 4 + width(n / 10_000),
    }
}

// Stores the last digits of n, as many as there is room for, two at a time: std shows digits by a formatter alone, and not the last of them.
pub(crate) fn put_digits(part: &mut [u8], n: u64)
    ensures { part.new ≡ characters (digits 10 (length part.old) n) }
{
    if let Some((front, pair)) = part.split_last_chunk_mut() {
        // std has no `from` of a remainder to a byte.
        let last = (n % 100) as u8;
        *pair = [b'0' + last / 10, b'0' + last % 10];
        put_digits(front, n / 100);
    } else if let Some(digit) = part.first_mut() {
        *digit = b'0' + (n % 10) as u8;
    }
}

// What the writer of a text of this length answers for a buffer of that one.
#[tactic(auto, unfolding(refusals::specs::Rows::refusal_by, refusals::specs::Rows::by_table))]
pub(crate) fn written(length: usize, room: usize) -> Result<usize, Refusal>
    ensures { result ≡ by_table (row Refusal.BufferTooShort (ltb room length) ∷ []) (Ok length) Err }
{
    refuse_if(room < length, Refusal::BufferTooShort)?;
    Ok(length)
}

// Stores a whole number as text where the buffer has room for it, and answers the text's length in either case.
pub fn put_whole(n: u64, buffer: &mut [u8]) -> usize
    ensures { (result ≡ length (decimal n)) × (result ≤ 20) × (buffer.new ≡ text_left (decimal n) buffer.old) }
{
    let count = width(n);
    if count <= buffer.len() {
        put_digits(&mut buffer[..count], n);
    }
    count
}

// Shows an amount by its text, which 24 bytes always hold, and which is always ASCII.
pub(crate) fn show<A: Amount, W: fmt::Write>(amount: A, f: &mut fmt::Formatter<W>) -> fmt::Result
    ensures { WritesOnOk W.write_str_gives f.old result (A.text amount) f.new }
{
    let mut buffer = [0; 24];
    let length = amount.put(&mut buffer);
    f.pad(str::from_utf8(&buffer[..length]).unwrap())
}
