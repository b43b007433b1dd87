// The opening of a journal: which book it names.
ghost use Rattle.std.specs.Prelude.{◌≡◌, [], ◌∷◌, ltb, length, Ok, Err};
ghost use Rattle.refusals.specs.Rows.{row, by_table};
ghost use Rattle.journal.specs.Journal.{quarters_in, opened_by};

use electric_rules::ElectricBook;
use refusals::Refusal;
use steam_rules::{Mmbtu, SteamBook};

// The fresh book that is opened.
#[derive(Clone, Copy)]
pub enum FreshBook {
    Electric(ElectricBook),
    Steam(SteamBook),
}

// The quarters behind byte 02, oldest first, where they are all there.
fn quarters(input: &[u8]) -> Result<[Mmbtu; 4], Refusal>
    ensures { result ≡ by_table (row Refusal.OutOfRange (ltb (length input.now) 33) ∷ []) (Ok (quarters_in input.now)) Err }
{
    if input.len() < 33 {
        return Err(Refusal::OutOfRange);
    }
    // By place and no iterator: a byte, and then four fields of eight, each of which the definition names.
    Ok([
        Mmbtu(records::read_field(input, 1)),
        Mmbtu(records::read_field(input, 9)),
        Mmbtu(records::read_field(input, 17)),
        Mmbtu(records::read_field(input, 25)),
    ])
}

// The fresh book that an input opens, or the refusal to print in its place.
#[tactic(auto, using(crate::proofs::Openings::openings))]
pub fn opened(input: &[u8]) -> Result<FreshBook, Refusal>
    ensures { result ≡ opened_by input.now }
{
    if crate::MOST_BYTES < input.len() {
        return Err(Refusal::OutOfRange);
    }
    match input {
        [] => Err(Refusal::NoRecord),
        [2, ..] => Ok(FreshBook::Steam(SteamBook::open(quarters(input)?)?)),
        [division, ..] => Ok(FreshBook::Electric(ElectricBook::open(*division)?)),
    }
}
