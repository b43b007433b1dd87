// Records: the bytes in which postings travel, read and written.
#![tactic(auto)]

ghost use Rattle.std.specs.Prelude.{◌≡◌, drop};
ghost use Rattle.records.specs.Fields.{field_or0};
ghost use Rattle.records.specs.Records.{read_of, record_written, record_left};

use postings::{Book, Posting, kinds};
use refusals::{Refusal, refuse_if};

mod fields;
mod parts;

// What reading at a place finds: the posting, and the place after its record.
#[derive(Clone, Copy)]
pub struct Found {
    pub place: usize,
    pub posting: Posting,
}

// Reads the 8 bytes at a place as a field; 0 where fewer remain. No Option, since the definition reads it so; a place, since the fields of an
// opening stand by place.
#[tactic(auto, unfolding(crate::specs::Fields::field_or0))]
pub fn read_field(bytes: &[u8], place: usize) -> i64
    ensures { result ≡ field_or0 (drop place bytes.now) }
{
    let rest = parts::rest(bytes, place).unwrap_or(&[]);
    fields::split_field(rest).map_or(0, |(number, _)| number)
}

// Reads the record at a place of the bytes. A place and no slice: the C call hands it in, and gets the next one back. Inlined into the loop over
// a journal's records, where the book is known.
#[inline(always)]
pub fn read_record(book: Book, bytes: &[u8], place: usize) -> Result<Found, Refusal>
    ensures { result ≡ read_of book bytes.now place }
{
    let record = parts::rest(bytes, place).ok_or(Refusal::NoRecord)?;
    refuse_if(record.len() < 2, Refusal::NoRecord)?;
    // The row above has tested that the pattern, which names the bytes, fits.
    let [kind, bitmap, fields @ ..] = record else {
        unreachable!()
    };
    let maps = kinds::maps_of(book, *kind).ok_or(Refusal::UnknownKind)?;
    refuse_if(maps <= *bitmap, Refusal::StrayNumber)?;
    let length = parts::record_length(*bitmap);
    refuse_if(record.len() < length, Refusal::RecordCutShort)?;
    let posting = parts::posting_in(*kind, *bitmap, fields).ok_or(Refusal::ZeroPresent)?;
    Ok(Found {
        place: place + length,
        posting,
    })
}

// Writes the record of a posting into the buffer: how many bytes, or refusal 2, 3 or 13 with the buffer as it was. Its table is its own, though
// the reader has its first two rows.
pub fn write_record(book: Book, posting: Posting, buffer: &mut [u8]) -> Result<usize, Refusal>
    ensures { (result ≡ record_written book posting buffer.old) × (buffer.new ≡ record_left book posting buffer.old) }
{
    let maps = kinds::maps_of(book, posting.kind).ok_or(Refusal::UnknownKind)?;
    let bitmap = kinds::bitmap_of(posting);
    refuse_if(maps <= bitmap, Refusal::StrayNumber)?;
    let length = parts::record_length(bitmap);
    refuse_if(buffer.len() < length, Refusal::BufferTooShort)?;
    parts::put_record(posting, bitmap, buffer);
    Ok(length)
}
