// The records of a text with their lines, seen as the list of those that are left.
ghost use Rattle.std.specs.Prelude.{◌≡◌, ◌∷◌, [], ℕ, List, Some, None, Ok, if◌then◌else◌, false};
ghost use Rattle.csv.specs.Records.{fields_of};
ghost use Rattle.prepare_look.specs.Rows.{IsGoing, Row, rows_left, rows_of};
ghost use Rattle.prepare_look.specs.Reading.{text_left};

use crate::failure::Failure;
use crate::place::Marks;
use crate::reading::{next_record, reader_of, without_mark};
use crate::spot::{Spot, next_begin};
use csv::{ByteRecord, Reader};
use std::alloc::Global;
use std::marker::Model;

/// A cursor over the records of a text, seen by contracts as the list of those that are left, each with the line on
/// which it begins.
#[derive(Drop)]
pub struct Rows<'a> {
    reader: Reader<&'a [u8]>,
    marks: Marks,
    text: &'a [u8],
    spot: Spot,
    stopped: bool,
}

impl<'a> Model for Rows<'a> {
    ghost Value = { List Row };

    ghost view = { λ s. if s.stopped then [] else rows_left s.marks s.text.now s.spot (text_left s.reader) };

    ghost invariant = { λ s. s.stopped ≡ false → IsGoing s.text.now s.spot s.reader };
}

impl<'a> Rows<'a> {
    /// All records of a text; one leading byte order mark is no part of it.
    pub fn new(alloc: Global, marks: Marks, text: &'a [u8]) -> Self
        ensures all { result ≡ rows_of marks text.now }
    {
        Rows {
            reader: reader_of(alloc, marks, text),
            marks,
            text: without_mark(text),
            spot: Spot::first(),
            stopped: false,
        }
    }

    /// Puts the next record into `row`, whose memory is used again, and tells its line, or that there is none. After
    /// a failure none is left. The failure is out of memory.
    pub fn next(&mut self, row: &mut ByteRecord) -> Result<Option<usize>, Failure>
        ensures found { (line : ℕ) → result ≡ Ok (Some line)
            → self.old ≡ record { line = line; fields = fields_of row.new } ∷ self.new }
        ensures ended { result ≡ Ok None → self.old ≡ [] }
        ensures over { result ≡ Ok None → self.new ≡ [] }
    {
        if self.stopped {
            return Ok(None);
        }
        let Some(line) = next_begin(self.marks, self.text, &mut self.spot) else {
            self.stopped = true;
            return Ok(None);
        };
        match next_record(&mut self.reader, row) {
            Ok(true) => return Ok(Some(line)),
            Ok(false) => {
                self.stopped = true;
                return Ok(None);
            }
            Err(failure) => {
                self.stopped = true;
                return Err(failure);
            }
        }
    }
}
