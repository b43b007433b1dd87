// The rows of the factor sheet as text: a number, a label and three cells each.
#![tactic(auto)]

ghost use Rattle.std.specs.Prelude.{◌≡◌, ◌+◌, ◌*◌, ◌-◌, ◌≤◌, map, length, take};
ghost use Rattle.std.proofs.lemmas.List.Edits.{sets};
ghost use Rattle.amounts.specs.Text.{text_written, text_left};
ghost use Rattle.sheet_rows.specs.Cells.{cell_text};
ghost use Rattle.sheet_rows.specs.Rows.{row_of, shown, row_text, rows_text};

use cells::Cell;
use refusals::Refusal;

pub mod cells;

// The characters of a row and its line feed.
pub const ROW_BYTES: usize = 81;

// A row: its number and its label as the sheet spells them, and what stands in its cells.
#[derive(Clone, Copy)]
pub struct Row<'a> {
    number: &'a [u8],
    label: &'a [u8],
    total: Cell,
    secondary: Cell,
    primary: Cell,
}

// Stores a text from a place on.
fn put(bytes: &mut [u8], at: usize, text: &[u8])
    requires { at + length text.now ≤ length bytes.old }
    ensures { bytes.new ≡ sets bytes.old at text.now }
{
    bytes[at..at + text.len()].copy_from_slice(text);
}

// Sets a text left in a field of so many blanks, which begins at a place of the row: as much of it as the field has room for.
fn put_left(row: &mut [u8; 80], start: usize, width: usize, text: &[u8])
    requires { start + width ≤ 80 }
    ensures { row.new ≡ sets row.old start (take width text.now) }
{
    put(row, start, &text[..text.len().min(width)]);
}

// Sets the text of a cell right in a field of fifteen blanks, which ends at a place of the row.
fn put_right(row: &mut [u8; 80], end: usize, cell: Cell)
    requires { (15 ≤ end) × (end ≤ 80) }
    ensures { row.new ≡ sets row.old (end - length (take 15 (cell_text cell))) (take 15 (cell_text cell)) }
{
    let mut text = [0; 32];
    let length = cell.put(&mut text).min(15);
    put(row, end - length, &text[..length]);
}

impl<'a> Row<'a> {
    // A row of a total and both levels.
    pub fn new(
        number: &'a [u8],
        label: &'a [u8],
        total: Cell,
        secondary: Cell,
        primary: Cell,
    ) -> Row<'a>
        ensures { shown result ≡ row_of number.now label.now total secondary primary }
    {
        Row {
            number,
            label,
            total,
            secondary,
            primary,
        }
    }

    // A row of a total alone: the cells that the sheet lacks are blank.
    pub fn of_total(number: &'a [u8], label: &'a [u8], total: Cell) -> Row<'a>
        ensures { shown result ≡ row_of number.now label.now total Cell.Blank Cell.Blank }
    {
        Row::new(number, label, total, Cell::Blank, Cell::Blank)
    }

    // A row of both levels alone.
    pub fn of_levels(number: &'a [u8], label: &'a [u8], secondary: Cell, primary: Cell) -> Row<'a>
        ensures { shown result ≡ row_of number.now label.now Cell.Blank secondary primary }
    {
        Row::new(number, label, Cell::Blank, secondary, primary)
    }

    // The row as it is printed: eighty blanks, into which its texts are set.
    fn text(self) -> [u8; 80]
        ensures { result ≡ row_text (shown self.entry) }
    {
        let mut row = [32; 80];
        put_left(&mut row, 0, 4, self.number);
        put_left(&mut row, 4, 31, self.label);
        put_right(&mut row, 50, self.total);
        put_right(&mut row, 65, self.secondary);
        put_right(&mut row, 80, self.primary);
        row
    }
}

// Stores rows from a place on, one below the other.
fn put_rows(rows: &[Row<'_>], page: &mut [u8], at: usize)
    requires { at + 81 * length rows.now ≤ length page.old }
    ensures { page.new ≡ sets page.old at (rows_text (map shown rows.now)) }
{
    if let Some((row, below)) = rows.split_first() {
        put(page, at, &row.text());
        page[at + 80] = b'\n';
        put_rows(below, page, at + ROW_BYTES);
    }
}

// Writes the rows onto the page: how many bytes, or refusal 13 with the page as it was.
pub fn write(rows: &[Row<'_>], page: &mut [u8]) -> Result<usize, Refusal>
    ensures { (result ≡ text_written (rows_text (map shown rows.now)) page.old) × (page.new ≡ text_left (rows_text (map shown rows.now)) page.old) }
{
    // By a quotient, since so many bytes may be more than a number here has room for.
    if page.len() / ROW_BYTES < rows.len() {
        return Err(Refusal::BufferTooShort);
    }
    put_rows(rows, page, 0);
    Ok(ROW_BYTES * rows.len())
}
