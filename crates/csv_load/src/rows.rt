// A text's records, seen as the list of those that are left.
ghost use Rattle.std.specs.Prelude.{◌≡◌, ◌≢◌, [], ◌∷◌, Bool, true, false, List, ℕ, if◌then◌else◌, Some, Ok};
ghost use Rattle.csv.specs.Reading.{reader_state, source_of};
ghost use Rattle.csv.specs.Records.{fields_of};
ghost use Rattle.csv_load.specs.Rows.{IsBetween, records_left, table_records};

use csv::{ByteRecord, Reader, ReaderBuilder};
use std::alloc::Global;
use std::marker::Model;
use table_core::Memory;

/// A cursor over the records of a text, seen by contracts as the list of the records that are left, each a
/// list of fields, each a list of bytes.
#[derive(Drop)]
pub struct Rows<'a> {
    reader: Reader<&'a [u8]>,
    stopped: bool,
}

impl<'a> Model for Rows<'a> {
    ghost Value = { List (List (List ℕ)) };

    ghost view = { λ s. if s.stopped then []
        else records_left (source_of (λ b. Some b.now) s.reader) (reader_state s.reader) };

    ghost invariant = { λ s. s.stopped ≡ false → IsBetween (λ b. Some b.now) s.reader };
}

impl<'a> Rows<'a> {
    /// All records of a text, the header among them, by the default format of the `csv` crate's reader,
    /// which skips one leading EF BB BF. Records of any length are given.
    pub fn new(alloc: Global, text: &'a [u8]) -> Self
        ensures all { result ≡ table_records text.now }
    {
        let reader = ReaderBuilder::new()
            .has_headers(false)
            .flexible(true)
            .from_reader(alloc, text);
        Rows {
            reader,
            stopped: false,
        }
    }

    /// Puts the next record into `row`, whose memory is used again, and says whether there was one. After
    /// out of memory, and after the last record, none is left.
    pub fn next(&mut self, row: &mut ByteRecord) -> Result<bool, Memory>
        ensures found { result ≡ Ok true → self.old ≡ fields_of row.new ∷ self.new }
        ensures ended { result ≡ Ok false → self.old ≡ [] }
        ensures over { result ≢ Ok true → self.new ≡ [] }
    {
        if self.stopped {
            return Ok(false);
        }
        match self.reader.read_byte_record(row) {
            Ok(true) => return Ok(true),
            Ok(false) => {
                self.stopped = true;
                return Ok(false);
            }
            Err(_) => {
                self.stopped = true;
                return Err(Memory);
            }
        }
    }
}
