// How many fields the records of a text have.
ghost use Rattle.std.specs.Prelude.{◌≡◌, ◌+◌, ◌<◌, ◌≤◌, ◌^◌, [], ℕ, IfOk, length, replicate, slice_index_or, slice_set};
ghost use Rattle.csv.specs.Records.{fields_of};
ghost use Rattle.prepare_look.specs.Rows.{rows_of};
ghost use Rattle.prepare_page.specs.Widths.{AreWidths, IsFew, one_higher, told_width};
ghost use Rattle.prepare_page.specs.declared.counts.TheConstants.{WIDEST};

use crate::counts::{WIDEST, Widths};
use csv::ByteRecord;
use prepare_look::{Failure, Marks, Rows};
use std::alloc::{AllocError, Global};

/// The most records that are looked at.
const MOST_RECORDS: u64 = 1 << 62;

fn zeros(alloc: Global, size: usize) -> Result<Vec<u64>, AllocError>
    ensures { IfOk result (λ counts. counts.items ≡ replicate size 0) }
{
    vec![in alloc; 0; size]
}

fn told_width(fields: usize) -> usize
    ensures value { result ≡ told_width fields }
    ensures low { result ≤ WIDEST }
{
    if fields < WIDEST {
        return fields;
    }
    WIDEST
}

fn one_more(counts: &mut [u64], at: usize)
    requires there { at < length counts.old }
    requires few { slice_index_or counts.old at 0 < 2 ^ 63 }
    ensures { counts.new ≡ slice_set counts.old at (slice_index_or counts.old at 0 + 1) }
{
    counts[at] += 1;
}

impl Widths {
    // No record yet.
    fn none(alloc: Global) -> Result<Self, AllocError>
        ensures { IfOk result (AreWidths []) }
    {
        Ok(Widths {
            records: 0,
            counts: zeros(alloc, WIDEST + 1)?,
        })
    }

    // One record more.
    fn add(&mut self, row: &ByteRecord)
        requires records { self.old.records < 2 ^ 62 }
        requires few { IsFew self.old }
        ensures records { self.new.records ≡ self.old.records + 1 }
        ensures there { told_width (length (fields_of row.now)) < length self.old.counts.items }
        ensures counts { self.new.counts.items
            ≡ one_higher self.old.counts.items (told_width (length (fields_of row.now))) }
    {
        self.records += 1;
        one_more(self.counts.as_mut_slice(), told_width(row.len()));
    }
}

/// How many records of a text have how many fields. More than 2^62 records are a failure, `TooLong`.
pub fn widths_of(alloc: Global, marks: Marks, text: &[u8]) -> Result<Widths, Failure>
    ensures { IfOk result (AreWidths (rows_of marks text.now)) }
{
    let mut rows = Rows::new(alloc, marks, text);
    let mut row = ByteRecord::new(alloc);
    let mut widths = Widths::none(alloc)?;
    for _done in 0..MOST_RECORDS {
        match rows.next(&mut row)? {
            Some(_line) => widths.add(&row),
            None => return Ok(widths),
        }
    }
    Err(Failure::TooLong)
}
