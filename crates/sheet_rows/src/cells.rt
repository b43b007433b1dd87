// The cells of a row, and their text.
ghost use Rattle.std.specs.Prelude.{◌≡◌, ◌+◌, ◌≤◌, ◌<◌, length, nat_abs, set};
ghost use Rattle.std.proofs.Common.{rules};
ghost use Rattle.amounts.specs.Text.{decimal, text_left};
ghost use Rattle.sheet_rows.specs.Cells.{thousandths_text, thousandths_text_is, cell_text};

use amounts::{Amount, Cents, Points, text};
use electric_rules::Kwh;

// Parts of a whole in thousandths of a percent, as a loss factor and a weight are.
#[derive(Clone, Copy, Debug, PartialEq, Eq)]
pub struct Thousandths(pub i64);

impl Amount for Thousandths {
    ghost number = { λ part. part.0 };

    ghost text = { thousandths_text };

    ghost PLACES = { 3 };

    ghost text_by_number = { thousandths_text_is };

    ghost few_places = { Prim.search rules };

    const PLACES: u32 = 3;

    fn number(self) -> i64 {
        self.0
    }
}

// The customers' part of a variance, in hundredths.
#[derive(Clone, Copy, Debug, PartialEq, Eq)]
pub struct Percentage(pub i64);

// What stands in a cell.
#[derive(Clone, Copy, Debug, PartialEq, Eq)]
pub enum Cell {
    Blank,
    Money(Cents),
    Factor(Points),
    Energy(Kwh),
    Proportion(Thousandths),
    Percentage(Percentage),
}

// Stores the size of a number, which stands for it where none is below 0.
fn put_size(number: i64, text: &mut [u8; 32]) -> usize
    ensures { (result ≡ length (decimal (nat_abs number))) × (result ≤ 20) × (text.new ≡ text_left (decimal (nat_abs number)) text.old) }
{
    text::put_whole(number.unsigned_abs(), text)
}

// Of each kind a function of its own, in which its number is known to fit 64 bits: of one that stands in an enum the check does not know it.
fn put_energy(energy: Kwh, text: &mut [u8; 32]) -> usize
    ensures { (result ≡ length (decimal (nat_abs energy.0))) × (result ≤ 20) × (text.new ≡ text_left (decimal (nat_abs energy.0)) text.old) }
{
    put_size(energy.0, text)
}

fn put_percentage(percentage: Percentage, text: &mut [u8; 32]) -> usize
    ensures { (result ≡ length (decimal (nat_abs percentage.0))) × (result ≤ 20) × (text.new ≡ text_left (decimal (nat_abs percentage.0)) text.old) }
{
    put_size(percentage.0, text)
}

// Stores a percent sign behind a text of this length, and answers the length of both.
fn put_percent(text: &mut [u8; 32], length: usize) -> usize
    requires { length < 32 }
    ensures { (result ≡ length + 1) × (text.new ≡ set text.old length 37) }
{
    text[length] = b'%';
    length + 1
}

impl Cell {
    // Stores the text at the front of the bytes, and answers its length.
    pub(crate) fn put(self, text: &mut [u8; 32]) -> usize
        ensures { (result ≡ length (cell_text self)) × (result ≤ 25) × (text.new ≡ text_left (cell_text self) text.old) }
    {
        match self {
            Cell::Blank => 0,
            Cell::Money(cents) => cents.put(text),
            Cell::Factor(points) => points.put(text),
            Cell::Energy(energy) => put_energy(energy, text),
            Cell::Proportion(part) => {
                let length = part.put(text);
                put_percent(text, length)
            }
            Cell::Percentage(percentage) => {
                let length = put_percentage(percentage, text);
                put_percent(text, length)
            }
        }
    }
}
