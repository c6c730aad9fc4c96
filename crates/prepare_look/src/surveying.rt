// Looking at the records of an export.
ghost use Rattle.std.specs.Prelude.{◌≡◌, ◌^◌, [], IfOk, OnOk, drop};
ghost use Rattle.csv.specs.Records.{fields_of};
ghost use Rattle.prepare_look.specs.Rows.{rows_of};
ghost use Rattle.prepare_look.specs.Surveys.{IsAdded, IsLow, IsSurvey, seen_of};

use crate::failure::Failure;
use crate::kind::{KINDS, Kind};
use crate::noting::{is_folded, note_kinds};
use crate::place::Marks;
use crate::rows::Rows;
use crate::seen::Seen;
use crate::survey::Survey;
use csv::ByteRecord;
use std::alloc::{AllocError, Global};

/// The most records that are looked at.
const MOST_RECORDS: u64 = 1 << 62;

impl Survey {
    // No record yet.
    pub(crate) fn none(alloc: Global, width: usize) -> Result<Self, AllocError>
        ensures seen { IfOk result (IsSurvey width []) }
        ensures low { IfOk result (IsLow 1) }
    {
        let mut cells = Vec::new(alloc);
        for _column in 0..width {
            for _kind in 0..KINDS {
                cells.push(Seen::none())?;
            }
        }
        Ok(Survey {
            width,
            records: 0,
            short: Seen::none(),
            long: Seen::none(),
            folded: Seen::none(),
            cells,
        })
    }

    // One record more, which begins on this line.
    pub(crate) fn add(&mut self, row: &ByteRecord, line: usize)
        requires { IsLow (2 ^ 62) self.old }
        ensures { IsAdded self.old (record { line = line; fields = fields_of row.now }) self.new }
    {
        let width = self.width;
        self.records += 1;
        self.short = self.short.noted(row.len() < width, line);
        self.long = self.long.noted(row.len() > width, line);
        self.folded = self.folded.noted(is_folded(row), line);
        note_kinds(self.cells.as_mut_slice(), width, row, line);
    }

    /// How many fields of a column, counted from 0, are of a kind; none where it isn't there.
    pub fn seen(&self, column: usize, kind: Kind) -> Seen
        ensures { result ≡ seen_of self.now column kind }
    {
        if column >= self.width {
            return Seen::none();
        }
        self.cells[column * KINDS + kind.index()]
    }
}

/// Leaves out so many records, or all where there are fewer. `row` is where they are read.
pub fn skip_rows(rows: &mut Rows<'_>, row: &mut ByteRecord, count: usize) -> Result<(), Failure>
    ensures { OnOk result (rows.new ≡ drop count rows.old) }
{
    for _done in 0..count {
        match rows.next(row)? {
            Some(_line) => {}
            None => return Ok(()),
        }
    }
    Ok(())
}

/// What is seen in the records of a text behind the first ones, of which each should have so many fields. More than
/// 2^62 records are a failure, `TooLong`.
pub fn survey_of(
    alloc: Global,
    marks: Marks,
    text: &[u8],
    skip: usize,
    width: usize,
) -> Result<Survey, Failure>
    ensures { IfOk result (IsSurvey width (drop skip (rows_of marks text.now))) }
{
    let mut rows = Rows::new(alloc, marks, text);
    let mut row = ByteRecord::new(alloc);
    skip_rows(&mut rows, &mut row, skip)?;
    let mut found = Survey::none(alloc, width)?;
    for done in 0..MOST_RECORDS {
        match rows.next(&mut row)? {
            Some(line) => found.add(&row, line),
            None => return Ok(found),
        }
    }
    Err(Failure::TooLong)
}
