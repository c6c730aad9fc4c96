// csv's reader over a text in memory.
ghost use Rattle.std.specs.Prelude.{◌≡◌, ◌≤◌, ◌∷◌, [], Ok, true, false, length, slice_index};
ghost use Rattle.csv.specs.Reading.{is_bom, strip_bom};
ghost use Rattle.csv.specs.Records.{fields_of};
ghost use Rattle.prepare_look.specs.Records.{text_records};
ghost use Rattle.prepare_look.specs.Reading.{IsReading, text_left};
ghost use Rattle.prepare_look.specs.Walk.{format_of};

use crate::failure::Failure;
use crate::place::Marks;
use csv::{ByteRecord, Reader, ReaderBuilder};
use std::alloc::Global;

/// A reader of the records of a text, of any length; one leading byte order mark is no part of it.
pub(crate) fn reader_of<'a>(alloc: Global, marks: Marks, text: &'a [u8]) -> Reader<&'a [u8]>
    ensures reads { IsReading result }
    ensures all { text_left result ≡ text_records (format_of marks) text.now }
{
    ReaderBuilder::new()
        .has_headers(false)
        .flexible(true)
        .delimiter(marks.delimiter)
        .quote(marks.quote)
        .from_reader(alloc, text)
}

/// Puts the next record into `row`, whose memory is used again, and says whether there was one.
pub(crate) fn next_record(reader: &mut Reader<&[u8]>, row: &mut ByteRecord) -> Result<bool, Failure>
    requires { IsReading reader.old }
    ensures reads { result ≡ Ok true → IsReading reader.new }
    ensures found { result ≡ Ok true → text_left reader.old ≡ fields_of row.new ∷ text_left reader.new }
    ensures ended { result ≡ Ok false → text_left reader.old ≡ [] }
{
    match reader.read_byte_record(row) {
        Ok(true) => return Ok(true),
        Ok(false) => return Ok(false),
        Err(_) => return Err(Failure::Memory),
    }
}

// Whether a text of three bytes or more begins with a byte order mark.
fn has_mark(text: &[u8]) -> bool
    requires { 3 ≤ length text.now }
    ensures { result ≡ is_bom (slice_index text.now 0) (slice_index text.now 1) (slice_index text.now 2) }
{
    text[0] == 0xEF && text[1] == 0xBB && text[2] == 0xBF
}

/// The text without one leading byte order mark.
pub fn without_mark(text: &[u8]) -> &[u8]
    ensures { result.now ≡ strip_bom text.now }
{
    if text.len() < 3 {
        return text;
    }
    if has_mark(text) {
        return &text[3..];
    }
    text
}
