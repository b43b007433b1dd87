// A whole journal for a host: bytes in, text into a lent buffer. It posts too, so it stands apart from `host`, where a book's posting is
// inlined as long as it has one caller.
#![tactic(auto)]

ghost use Rattle.std.specs.Prelude.{◌≡◌, ◌≤◌, length};
ghost use Rattle.amounts.specs.Text.{text_written, text_left};
ghost use Rattle.journal.specs.Journal.{journal_of, room_of};
ghost use Rattle.replies.specs.Results.{written_as};

use replies::Written;

// How many bytes the journal of the input is, which is no more than there is room enough for.
#[unsafe(no_mangle)]
pub extern "C" fn neapscroll_journal_length(input: &[u8]) -> usize
    ensures { (result ≡ length (journal_of input.now)) × (result ≤ room_of (length input.now)) }
{
    journal::printed_length(input)
}

// Writes the journal of the input: what the journal program prints for it.
#[unsafe(no_mangle)]
pub extern "C" fn neapscroll_journal(input: &[u8], buffer: &mut [u8]) -> Written
    ensures { (result ≡ written_as (text_written (journal_of input.now) buffer.old)) × (buffer.new ≡ text_left (journal_of input.now) buffer.old) }
{
    Written::from(journal::write(input, buffer))
}
