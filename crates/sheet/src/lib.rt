// The factor sheet: source document 002's sheet 127 of a settlement, by the electric book and the settlement's two estimates.
#![tactic(auto)]

ghost use Rattle.std.specs.Prelude.{◌≡◌};
ghost use Rattle.sheet.specs.Sheet.{settlement_of, sheet_written, sheet_left};

use electric_rules::{ElectricBook, Sales};
use filing::Filing;
use postings::Posting;
use postings::kinds::Kind;
use refusals::Refusal;

mod filing;

// The bytes of a sheet: sixteen rows.
pub const BYTES: usize = 16 * sheet_rows::ROW_BYTES;

// The settlement with these estimates.
fn settlement(estimates: Sales) -> Posting
    ensures { result ≡ settlement_of estimates }
{
    Posting {
        kind: u8::from(Kind::Settle),
        first: estimates.secondary.0,
        second: estimates.primary.0,
        third: 0,
    }
}

// Writes the sheet of the settlement with these estimates onto the page: how many bytes, or a refusal with the page as it was, the
// settlement's own or else 13 of a page that is too short.
pub fn write(book: ElectricBook, estimates: Sales, page: &mut [u8]) -> Result<usize, Refusal>
    ensures { (result ≡ sheet_written book estimates page.old) × (page.new ≡ sheet_left book estimates page.old) }
{
    let mut settled = book;
    electric::take(&mut settled, settlement(estimates))?;
    let filing = Filing {
        rates: electric_settlement::rates_of(book.division),
        found: book,
        settled,
        estimates,
    };
    sheet_rows::write(&filing.rows(), page)
}
