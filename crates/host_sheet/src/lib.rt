// The factor sheet for a host. It posts too, so it stands apart from `host`, where a book's posting is inlined as long as it has one caller.
#![tactic(auto)]

ghost use Rattle.std.specs.Prelude.{◌≡◌};
ghost use Rattle.replies.specs.Results.{written_as};
ghost use Rattle.sheet.specs.Sheet.{sheet_written, sheet_left};

use electric_rules::{ElectricBook, Sales};
use replies::Written;

// Writes the factor sheet of the settlement with these estimates onto the page: 1,296 bytes, or a refusal with the page as it was.
#[unsafe(no_mangle)]
pub extern "C" fn neapscroll_electric_sheet(
    book: ElectricBook,
    estimates: Sales,
    page: &mut [u8],
) -> Written
    ensures { (result ≡ written_as (sheet_written book estimates page.old)) × (page.new ≡ sheet_left book estimates page.old) }
{
    Written::from(sheet::write(book, estimates, page))
}
