// The body that the journal programs share: reads an input, prints its journal, and says what could not be read or written. The program of
// sheets reads its input by it too.
#![tactic(auto)]

ghost use Rattle.std.specs.Prelude.{◌≡◌, ◌≤◌, ◌<◌, IsOk, OnOk, length, take};
ghost use Rattle.std.specs.Io.KnownBytes.{Appends, Consumes, IsAtEnd};
ghost use Rattle.amounts.specs.Text.{text_left};
ghost use Rattle.journal.specs.Journal.{journal_of, room_of};

use std::io;
use std::io::{Read, Write};

// As many zeros as the type says, and that alone: no proof walks over a buffer's bytes.
fn zeros<const N: usize>() -> [u8; N] {
    [0; N]
}

// One byte more than an input may have, so that a longer one is seen.
pub fn input_buffer() -> [u8; 65537]
    ensures { length result ≡ 65537 }
{
    zeros()
}

// Room enough for the journal of any input: 41 bytes for each of its bytes, and 82.
#[tactic(auto, unfolding(journal::specs::Journal::room_of))]
pub fn output_buffer() -> [u8; 2687058]
    ensures { length result ≡ room_of 65536 }
{
    zeros()
}

// Reads until the bytes are full, the input ends or a read fails, and answers how many were read in any case. It reads no more after an
// end: a terminal would wait for another one. It loops over `read`, since `read_exact` does not tell how many came before a failure.
pub fn read_input<R: Read>(file: &mut R, bytes: &mut [u8]) -> (usize, io::Result<()>)
    ensures fits { result.0 ≤ length bytes.new }
    ensures bytes { Consumes (R.remaining file.old) (R.remaining file.new) (take result.0 bytes.new) }
    ensures ends { IsOk result.1 → result.0 < length bytes.new → IsAtEnd (R.remaining file.new) }
{
    let mut count = 0;
    while count < bytes.len() {
        match file.read(&mut bytes[count..]) {
            Ok(0) => return (count, Ok(())),
            Ok(more) => count += more,
            Err(error) => return (count, Err(error)),
        }
    }
    (count, Ok(()))
}

// Hands over what is to be printed. Every caller shows that it is the journal of what was read, which stands here for that alone.
fn print<W: Write>(output: &mut W, read: &[u8], printed: &[u8]) -> io::Result<()>
    requires { printed.now ≡ journal_of read.now }
    ensures { OnOk result (Appends (W.contents output.old) (W.contents output.new) (journal_of read.now)) }
{
    output.write_all(printed)
}

// Prints the journal of the bytes read by way of the text.
#[tactic(auto, unfolding(amounts::specs::Text::text_written, amounts::specs::Text::text_left, refusals::specs::Rows::by_table))]
fn print_journal<W: Write>(output: &mut W, read: &[u8], text: &mut [u8]) -> io::Result<()>
    ensures left { text.new ≡ text_left (journal_of read.now) text.old }
    ensures taken { OnOk result (Appends (W.contents output.old) (W.contents output.new) (journal_of read.now)) }
{
    // The kind that std's writers answer where a buffer is full.
    let length = journal::write(read, text).map_err(|_| io::Error::from(io::ErrorKind::WriteZero))?;
    print(output, read, &text[..length])
}

// To standard error, in bytes, as a program hands them over.
// Where a write fails the next is tried all the same, and nothing is left to say it to.
fn say<E: Write>(errors: &mut E, program: &[u8], words: &[u8]) {
    let _ = errors.write_all(program);
    let _ = errors.write_all(words);
}

// Reads the file into the bytes, prints their journal to the output by way of the text, and answers how many were read. What could not
// be done is said to the errors in the program's name. What a file has left is known of one in memory; of the system's no contract can
// say that the bytes are the file's, nor where the journal went.
pub fn run<R: Read, W: Write, E: Write>(
    program: &[u8],
    file: &mut R,
    output: &mut W,
    errors: &mut E,
    bytes: &mut [u8; 65537],
    text: &mut [u8; 2687058],
) -> usize
    ensures prints { (result ≤ length bytes.new) × (text.new ≡ text_left (journal_of (take result bytes.new)) text.old) }
    ensures reads { Consumes (R.remaining file.old) (R.remaining file.new) (take result bytes.new) }
{
    let (count, read) = read_input(file, bytes);
    let printed = print_journal(output, &bytes[..count], text);
    if read.is_err() {
        say(
            errors,
            program,
            b": the input could not be read to its end\n",
        );
    }
    if printed.is_err() {
        say(errors, program, b": not all answers could be written\n");
    }
    count
}
