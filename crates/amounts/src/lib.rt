// Amounts: money in whole cents and factors in points, each a type of its own, with their limits and their text.
#![tactic(auto)]

ghost use Rattle.std.specs.Prelude.{◌≡◌, Bool, List, Some, ℕ, ℤ, ◌≤◌, length};
ghost use Rattle.std.proofs.Common.{rules};
ghost use Rattle.refusals.specs.Rows.{stored_or_12};
ghost use Rattle.amounts.specs.Amounts.{cents_in_limits, points_in_limits};
ghost use Rattle.amounts.specs.Text.{text_of, cents_text, cents_text_is, points_text, points_text_is, text_written, text_left};

use refusals::Refusal;
use std::fmt;

pub mod text;

// A value that a book stores.
pub trait Stored: Copy {
    ghost within: { Self → Bool };

    // Whether a book may store the value. Each kind has a body of its own: one over a number and its limits would ask of a kind six members
    // in place of a line.
    fn in_limits(self) -> bool
        ensures { result ≡ within self };

    // Row 12: the value, where a book may store it.
    final fn stored(self) -> Result<Self, Refusal>
        ensures { result ≡ stored_or_12 (within self) self }
    {
        if !self.in_limits() {
            return Err(Refusal::NextOutOfLimits);
        }
        Ok(self)
    }
}

// A number that has a text: a whole part and so many digits after the point.
pub trait Amount: Copy {
    ghost number: { Self → ℤ };

    ghost text: { Self → List ℕ };

    ghost PLACES: { ℕ };

    // How many digits stand after the point.
    const PLACES: u32;

    // How many of its smallest unit it is.
    fn number(self) -> i64
        ensures { result ≡ number self };

    ghost text_by_number: { (amount : Self) → text amount ≡ text_of PLACES (number amount) };

    ghost few_places: { (1 ≤ PLACES) × (PLACES ≤ 4) };

    // Stores the text where the buffer has room for it, and answers its length in either case. std's `write!` into a slice would leave a part
    // of a text that is too long.
    final fn put(self, buffer: &mut [u8]) -> usize
        ensures { (result ≡ length (text self)) × (result ≤ 24) × (buffer.new ≡ text_left (text self) buffer.old) }
    {
        let amount = self.number();
        let negative = amount < 0;
        let size = amount.unsigned_abs();
        let whole = size / 10u64.pow(Self::PLACES);
        let start = usize::from(negative);
        let point = start + text::width(whole);
        // No `from` takes a u32, which `pow` asks for, to a usize.
        let length = point + 1 + Self::PLACES as usize;
        if buffer.len() < length {
            return length;
        }
        // Where the number is not negative, its first digit goes over the sign: a branch on the sign is hard to guess.
        buffer[0] = b'-';
        text::put_digits(&mut buffer[start..point], whole);
        buffer[point] = b'.';
        text::put_digits(&mut buffer[point + 1..length], size);
        length
    }

    // Writes the amount as text into the buffer: how many bytes, or refusal 13 with the buffer as it was.
    #[tactic(auto, unfolding(crate::specs::Text::text_written, refusals::specs::Writer::too_short))]
    final fn write(self, buffer: &mut [u8]) -> Result<usize, Refusal>
        ensures { (result ≡ text_written (text self) buffer.old) × (buffer.new ≡ text_left (text self) buffer.old) }
    {
        let length = self.put(buffer);
        text::written(length, buffer.len())
    }
}

// Money in whole cents.
#[repr(C)]
#[derive(Clone, Copy, Debug, PartialEq, Eq)]
pub struct Cents(pub i64);

// A factor: points of $0.0001 per kWh or per million BTU.
#[repr(C)]
#[derive(Clone, Copy, Debug, PartialEq, Eq)]
pub struct Points(pub i32);

impl Cents {
    // The least that a book may store.
    pub const LEAST: i64 = -1_000_000_000_000;

    // The most that a book may store.
    pub const MOST: i64 = 1_000_000_000_000;
}

impl Stored for Cents {
    ghost within = { cents_in_limits };

    #[tactic(auto, unfolding(crate::specs::Amounts::cents_in_limits))]
    fn in_limits(self) -> bool {
        ints::in_range(self.0, Cents::LEAST, Cents::MOST)
    }
}

// Of each kind of amount only its number and its text stand apart: the rest follows in the trait.
impl Amount for Cents {
    ghost number = { λ amount. amount.0 };

    ghost text = { cents_text };

    ghost PLACES = { 2 };

    ghost text_by_number = { cents_text_is };

    ghost few_places = { Prim.search rules };

    const PLACES: u32 = 2;

    fn number(self) -> i64 {
        self.0
    }
}

// One `Display` a kind: the compiler refuses one for every `Amount`, as std's trait is not this crate's.
impl fmt::Display for Cents {
    ghost output = { λ amount. Some (cents_text amount) };

    fn fmt<W: fmt::Write>(&self, f: &mut fmt::Formatter<W>) -> fmt::Result {
        text::show(*self, f)
    }
}

impl Points {
    // The least that a book may store.
    pub const LEAST: i32 = -99_999;

    // The most that a book may store.
    pub const MOST: i32 = 99_999;

    // Points to a cent, since a point is $0.0001.
    pub const TO_A_CENT: i64 = 100;
}

impl Stored for Points {
    ghost within = { points_in_limits };

    #[tactic(auto, unfolding(crate::specs::Amounts::points_in_limits))]
    fn in_limits(self) -> bool {
        ints::in_range(
            self.number(),
            i64::from(Points::LEAST),
            i64::from(Points::MOST),
        )
    }
}

impl Amount for Points {
    ghost number = { λ amount. amount.0 };

    ghost text = { points_text };

    ghost PLACES = { 4 };

    ghost text_by_number = { points_text_is };

    ghost few_places = { Prim.search rules };

    const PLACES: u32 = 4;

    fn number(self) -> i64 {
        i64::from(self.0)
    }
}

impl fmt::Display for Points {
    ghost output = { λ amount. Some (points_text amount) };

    fn fmt<W: fmt::Write>(&self, f: &mut fmt::Formatter<W>) -> fmt::Result {
        text::show(*self, f)
    }
}
