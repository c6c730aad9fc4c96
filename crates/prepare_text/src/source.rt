// A reader of records.
ghost use Rattle.std.specs.Prelude.{◌≡◌, ◌≤◌, [], IfOk, OnOk, Ok, drop, false, length, option_map, true};
ghost use Rattle.std.specs.Io.KnownBytes.{IsAtEnd, Keeps};
ghost use Rattle.csv.specs.Records.{fields_of, partial_of};
ghost use Rattle.csv.specs.Reading.{strip_bom};
ghost use Rattle.prepare_text.specs.Source.{HasFront, IsOver, Stays, Takes, begun, going, has_mark, held, left};
ghost use Rattle.prepare_text.specs.Source.{record_of};
ghost use Rattle.prepare_text.specs.Walk.{format, lined, text_records, walk_of};

use crate::fault::Fault;
use crate::place::{Marks, Place};
use crate::walker::Walker;
use csv::ByteRecord;
use std::alloc::{AllocError, Global};
use std::io::Read;

/// How many bytes are read at once.
const PIECE: usize = 1 << 16;

/// The records of a text, one behind the other, each with the line on which it begins. Memory is bounded by the
/// longest record.
#[derive(Drop)]
pub struct Source<R> {
    input: R,
    // What is read into.
    piece: Vec<u8>,
    // What was read and is still to be walked, from a place on.
    text: Vec<u8>,
    at: usize,
    walker: Walker,
}

// Whether a text begins with a byte order mark.
fn has_mark(text: &[u8]) -> bool
    ensures { result ≡ has_mark text.now }
{
    text.len() >= 3 && text[0] == 0xEF && text[1] == 0xBB && text[2] == 0xBF
}

// What stands behind so many bytes.
fn behind(text: &[u8], at: usize) -> &[u8]
    ensures { result.now ≡ drop at text.now }
{
    if at >= text.len() {
        return &[];
    }
    &text[at..]
}

fn piece_of(alloc: Global, size: usize) -> Result<Vec<u8>, AllocError> {
    vec![in alloc; 0; size]
}

impl<R: Read + Drop> Source<R> {
    /// The records of a text that is marked so; one leading byte order mark is no part of it.
    ///
    /// # Errors
    ///
    /// The input can't be read, or memory runs out; the input is dropped then.
    pub fn new(alloc: Global, marks: Marks, input: R) -> Result<Source<R>, Fault>
        ensures { IfOk result (λ source. Stays (option_map (text_records marks) (R.remaining input))
            (left R.remaining source)) }
    {
        let mut source = Source {
            input,
            piece: piece_of(alloc, PIECE)?,
            text: Vec::new(alloc),
            at: 0,
            walker: Walker::new(alloc, marks),
        };
        source.fill_front()?;
        source.skip_mark();
        Ok(source)
    }
}

impl<R: Read> Source<R> {
    // Reads a piece of the input, and says whether there was one.
    fn more(&mut self) -> Result<bool, Fault>
        requires { self.old.at ≤ length self.old.text.items }
        ensures walker { OnOk result (self.new.walker ≡ self.old.walker) }
        ensures at { OnOk result (self.new.at ≡ self.old.at) }
        ensures grown { OnOk result (length self.old.text.items ≤ length self.new.text.items) }
        ensures keeps { OnOk result (Keeps (held R.remaining self.old) (held R.remaining self.new)) }
        ensures ended { result ≡ Ok false → IsAtEnd (R.remaining self.new.input) }
        ensures same { result ≡ Ok false → self.new.text.items ≡ self.old.text.items }
    {
        if self.piece.is_empty() {
            return Err(Fault::Memory);
        }
        let Ok(n) = self.input.read(self.piece.as_mut_slice()) else {
            return Err(Fault::Input);
        };
        self.text.extend_from_slice(&self.piece.as_slice()[..n])?;
        Ok(n > 0)
    }

    // Reads a piece of the input in place of the text that was walked, and says whether there was one.
    fn refill(&mut self) -> Result<bool, Fault>
        ensures walker { OnOk result (self.new.walker ≡ self.old.walker) }
        ensures keeps { OnOk result (Keeps (R.remaining self.old.input) (held R.remaining self.new)) }
        ensures ended { result ≡ Ok false → IsAtEnd (held R.remaining self.new) }
    {
        self.text.clear();
        self.at = 0;
        self.more()
    }

    // Reads so much that a byte order mark would be seen.
    fn fill_front(&mut self) -> Result<(), Fault>
        requires { self.old.at ≡ 0 }
        ensures walker { OnOk result (self.new.walker ≡ self.old.walker) }
        ensures at { OnOk result (self.new.at ≡ 0) }
        ensures keeps { OnOk result (Keeps (held R.remaining self.old) (held R.remaining self.new)) }
        ensures front { OnOk result (HasFront R.remaining self.new) }
    {
        for _ in 0..u64::MAX {
            if self.text.len() >= 3 {
                return Ok(());
            }
            if !self.more()? {
                return Ok(());
            }
        }
        Err(Fault::TooLong)
    }

    // Steps over a byte order mark.
    fn skip_mark(&mut self)
        requires at { self.old.at ≡ 0 }
        requires front { HasFront R.remaining self.old }
        ensures walker { self.new.walker ≡ self.old.walker }
        ensures held { Keeps (option_map strip_bom (held R.remaining self.old)) (held R.remaining self.new) }
    {
        if has_mark(self.text.as_slice()) {
            self.at = 3;
        }
    }

    // Walks over what is held, and says whether a record ended.
    fn walk(&mut self, row: &mut ByteRecord) -> Result<bool, Fault>
        requires { partial_of row.old ≡ [] }
        ensures clear { OnOk result (partial_of row.new ≡ []) }
        ensures found { result ≡ Ok true → Takes (going R.remaining self.old (fields_of row.old))
            (record_of (begun self.new) (fields_of row.new)) (left R.remaining self.new) }
        ensures on { result ≡ Ok false → Stays (going R.remaining self.old (fields_of row.old))
            (option_map (lined (format self.new.walker.marks) (walk_of self.new.walker (fields_of row.new)))
            (R.remaining self.new.input)) }
    {
        match self
            .walker
            .walk(behind(self.text.as_slice(), self.at), row)?
        {
            Some(n) => {
                self.at += n;
                return Ok(true);
            }
            None => return Ok(false),
        }
    }

    // The record that the end of the text ends, if there is one.
    fn last(&mut self, row: &mut ByteRecord) -> Result<bool, Fault>
        requires clear { partial_of row.old ≡ [] }
        requires ended { IsAtEnd (held R.remaining self.old) }
        ensures found { result ≡ Ok true → Takes (going R.remaining self.old (fields_of row.old))
            (record_of (begun self.new) (fields_of row.new)) (left R.remaining self.new) }
        ensures ended { result ≡ Ok false → IsOver (going R.remaining self.old (fields_of row.old)) }
    {
        if !self.walker.place.is_in_record() {
            return Ok(false);
        }
        self.walker.end_field(row)?;
        self.walker.place = Place::Between;
        Ok(true)
    }

    /// Puts the next record into `row`, whose memory is used again, and says whether there was one.
    ///
    /// # Errors
    ///
    /// The input can't be read on, there are more than 2^64 lines, or memory runs out; nothing is known of it then.
    pub fn next(&mut self, row: &mut ByteRecord) -> Result<bool, Fault>
        ensures found { result ≡ Ok true → Takes (left R.remaining self.old)
            (record_of (begun self.new) (fields_of row.new)) (left R.remaining self.new) }
        ensures ended { result ≡ Ok false → IsOver (left R.remaining self.old) }
    {
        row.clear();
        for _ in 0..u64::MAX {
            if self.walk(row)? {
                return Ok(true);
            }
            if !self.refill()? {
                return self.last(row);
            }
        }
        Err(Fault::TooLong)
    }

    /// The line on which the record that was read last begins, from 1.
    pub fn line(&self) -> u64
        ensures { result ≡ begun self.now }
    {
        self.walker.lines.begun
    }
}
