// A walk over a text, byte by byte.
ghost use Rattle.std.specs.Prelude.{◌≡◌, ◌≤◌, ◌++◌, ◌∷◌, [], IfOk, None, Ok, OnOk, Some, drop, length};
ghost use Rattle.csv.specs.Machine.{is_end, step};
ghost use Rattle.csv.specs.Records.{fields_of, partial_of};
ghost use Rattle.prepare_text.specs.Source.{Ends, Goes};
ghost use Rattle.prepare_text.specs.Walk.{KeepsPlace, at_begin, format, state_of, walk_of, walked};

use crate::fault::Fault;
use crate::lines::Lines;
use crate::place::{Act, Marks, Place};
use csv::ByteRecord;
use std::alloc::{AllocError, Global};

/// Where a walk stands, and what it has of the field at hand.
#[derive(Drop)]
pub(crate) struct Walker {
    pub marks: Marks,
    pub place: Place,
    pub lines: Lines,
    pub field: Vec<u8>,
}

impl Walker {
    /// Before the first byte of a text.
    pub(crate) fn new(alloc: Global, marks: Marks) -> Walker
        ensures marks { result.marks ≡ marks }
        ensures begin { walk_of result [] ≡ at_begin }
    {
        Walker {
            marks,
            place: Place::Between,
            lines: Lines {
                line: 1,
                begun: 1,
                after_cr: false,
            },
            field: Vec::new(alloc),
        }
    }

    /// Walks over a text up to the end of a record, and tells how far that is; `None` where no record ends in it.
    pub(crate) fn walk(&mut self, text: &[u8], row: &mut ByteRecord) -> Result<Option<usize>, Fault>
        requires { partial_of row.old ≡ [] }
        ensures marks { self.new.marks ≡ self.old.marks }
        ensures clear { OnOk result (partial_of row.new ≡ []) }
        ensures bound { (n : _) → result ≡ Ok (Some n) → n ≤ length text.now }
        ensures found { (n : _) → result ≡ Ok (Some n) → Ends self.old (fields_of row.old) text.now
            self.new (fields_of row.new) (drop n text.now) }
        ensures going { result ≡ Ok None → Goes self.old (fields_of row.old) text.now self.new (fields_of row.new) [] }
    {
        for i in 0..text.len() {
            if self.take(text[i], row)? {
                return Ok(Some(i + 1));
            }
        }
        Ok(None)
    }

    /// Takes a byte, and says whether it ended a record.
    pub(crate) fn take(&mut self, byte: u8, row: &mut ByteRecord) -> Result<bool, Fault>
        requires { partial_of row.old ≡ [] }
        ensures marks { self.new.marks ≡ self.old.marks }
        ensures clear { OnOk result (partial_of row.new ≡ []) }
        ensures walked { OnOk result (walk_of self.new (fields_of row.new) ≡
            walked (format self.old.marks) (walk_of self.old (fields_of row.old)) byte) }
        ensures ended { IfOk result (λ ended. ended ≡
            is_end (step (format self.old.marks) (state_of self.old.place) byte).1) }
    {
        let (place, act) = self.place.step(self.marks, byte);
        self.lines = self.lines.after(self.place.is_in_record(), byte)?;
        self.place = place;
        match act {
            Act::Skip => return Ok(false),
            Act::Copy => {
                self.copy(byte)?;
                return Ok(false);
            }
            Act::EndField => {
                self.end_field(row)?;
                return Ok(false);
            }
            Act::EndRecord => {
                self.end_field(row)?;
                return Ok(true);
            }
        }
    }

    // Puts a byte into the field at hand.
    fn copy(&mut self, byte: u8) -> Result<(), AllocError>
        ensures field { OnOk result (self.new.field.items ≡ self.old.field.items ++ (byte ∷ [])) }
        ensures place { KeepsPlace self.old self.new }
    {
        self.field.push(byte)?;
        Ok(())
    }

    /// Ends the field at hand.
    pub(crate) fn end_field(&mut self, row: &mut ByteRecord) -> Result<(), AllocError>
        requires { partial_of row.old ≡ [] }
        ensures clear { OnOk result (partial_of row.new ≡ []) }
        ensures fields { OnOk result (fields_of row.new ≡ fields_of row.old ++ (self.old.field.items ∷ [])) }
        ensures empty { OnOk result (self.new.field.items ≡ []) }
        ensures place { KeepsPlace self.old self.new }
    {
        row.push_field(self.field.as_slice())?;
        self.field.clear();
        Ok(())
    }
}
