// Records above the names.
ghost use Rattle.std.specs.Prelude.{◌≡◌, ◌≤◌, ◌*◌, ◌^◌, IfOk, length, nat_le, ◌&&◌};
ghost use Rattle.csv.specs.Records.{fields_of};
ghost use Rattle.prepare_look.specs.Lines.{one_if};
ghost use Rattle.prepare_look.specs.Rows.{rows_of};
ghost use Rattle.prepare_page.specs.Titles.{filled, names_in, titles_by, titles_from};

use csv::ByteRecord;
use prepare_look::{Failure, Marks, Rows, field_or_none};
use std::alloc::Global;

/// The most records that are looked at.
const MOST_RECORDS: usize = 1 << 62;

// One for a field that has bytes.
fn one_if_filled(field: &[u8]) -> usize
    ensures count { result ≡ one_if (nat_le 1 (length field.now)) }
    ensures one { result ≤ 1 }
{
    if field.len() > 0 {
        return 1;
    }
    0
}

// How many fields have bytes.
fn filled(row: &ByteRecord) -> usize
    ensures value { result ≡ filled (fields_of row.now) }
    ensures low { result ≤ length (fields_of row.now) }
{
    let mut filled = 0;
    for i in 0..row.len() {
        filled += one_if_filled(field_or_none(row, i));
    }
    filled
}

// Whether the record may hold the names.
fn may_name(width: usize, row: &ByteRecord) -> bool
    ensures { result ≡ names_in width (fields_of row.now) }
{
    row.len() >= 2 && width as u128 <= 2 * (filled(row) as u128)
}

/// How many records stand above the names: above the first one of two fields or more of which half as many have bytes
/// as most records have fields. 0 where there is none. More than 2^62 records are a failure, `TooLong`.
pub fn titles_of(alloc: Global, marks: Marks, text: &[u8], width: usize) -> Result<usize, Failure>
    ensures low { IfOk result (λ n. n ≤ 2 ^ 62) }
    ensures above { IfOk result (λ n. n ≡ titles_from width 0 (rows_of marks text.now)) }
{
    let mut rows = Rows::new(alloc, marks, text);
    let mut row = ByteRecord::new(alloc);
    for before in 0..MOST_RECORDS {
        match rows.next(&mut row)? {
            Some(_line) => {
                if may_name(width, &row) {
                    return Ok(before);
                }
            }
            None => return Ok(0),
        }
    }
    Err(Failure::TooLong)
}

/// How many records stand above the names, where it is known, or as `titles_of` has it.
pub(crate) fn titles_by(
    alloc: Global,
    known: Option<u32>,
    marks: Marks,
    text: &[u8],
    width: usize,
) -> Result<usize, Failure>
    ensures low { IfOk result (λ n. n ≤ 2 ^ 62) }
    ensures above { IfOk result (λ n. n ≡ titles_by known width (rows_of marks text.now)) }
{
    match known {
        Some(titles) => Ok(titles as usize),
        None => titles_of(alloc, marks, text, width),
    }
}
