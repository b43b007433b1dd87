// The journal: from the bytes of an opening and records to the lines that the journal program prints.
#![tactic(auto)]

ghost use Rattle.std.specs.Prelude.{◌≡◌, ◌≤◌, length};
ghost use Rattle.amounts.specs.Text.{text_written, text_left};
ghost use Rattle.journal.specs.Journal.{journal_of, room_of};
ghost use Rattle.journal.specs.Steps.{Puts};

use page::Page;
use refusals::Refusal;

mod lines;
pub mod opening;
mod page;
mod pieces;
mod run;

// The most bytes of an input; a longer one is refused.
pub const MOST_BYTES: usize = 65_536;

// Room enough for what is printed for so many bytes.
#[tactic(auto, unfolding(crate::specs::Journal::room_of))]
fn room_for(bytes: usize) -> usize
    ensures { result ≡ room_of bytes }
{
    if MOST_BYTES < bytes {
        82
    } else {
        41 * bytes + 82
    }
}

// Prints the journal into the buffer if it has room for all of it, and answers its length in either case. A buffer without that room may
// hold some of the lines.
fn put_journal(input: &[u8], buffer: &mut [u8]) -> usize
    ensures { Puts (journal_of input.now) 0 buffer.old result buffer.new × (result ≤ room_of (length input.now)) }
{
    let mut page = Page::new(buffer);
    page.put_journal(input);
    page.used
}

// How many bytes the journal of the input is, which is no more than there is room enough for.
pub fn printed_length(input: &[u8]) -> usize
    ensures { (result ≡ length (journal_of input.now)) × (result ≤ room_of (length input.now)) }
{
    // No line fits one byte, so the lines are only counted.
    let mut byte = [0; 1];
    put_journal(input, &mut byte)
}

// Writes the journal of the input into the buffer: how many bytes, or refusal 13 with the buffer as it was. Its length is counted first
// only where the buffer might be too short.
pub fn write(input: &[u8], buffer: &mut [u8]) -> Result<usize, Refusal>
    ensures { (result ≡ text_written (journal_of input.now) buffer.old) × (buffer.new ≡ text_left (journal_of input.now) buffer.old) }
{
    if buffer.len() < room_for(input.len()) && buffer.len() < printed_length(input) {
        return Err(Refusal::BufferTooShort);
    }
    Ok(put_journal(input, buffer))
}
