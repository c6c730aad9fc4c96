// Which marks for missing values stand in columns of numbers.
use crate::advice::{Reading, is_long, needs_rules};
use csv::ByteRecord;
use prepare_look::{Failure, Marks, Rows, Survey, field_or_none, skip_rows};
use std::alloc::{AllocError, Global};

/// The marks for missing values that are known without being asked for.
pub const MARKS: [&str; 14] = [
    "-", "--", ".", "?", "#N/A", "NA", "N/A", "n/a", "NaN", "nan", "NULL", "null", "None", "none",
];

/// The most columns that `coop_cli` takes, and that `--numbers` names.
pub(crate) const MOST_COLUMNS: usize = 16;

/// The most records that are looked at.
pub(crate) const MOST_RECORDS: u64 = 1 << 62;

/// The columns, from 0, in which the rules on numbers have to act, of those that `coop_cli` could take.
pub(crate) fn columns_of(
    alloc: Global,
    survey: &Survey,
    reading: Reading,
) -> Result<Vec<usize>, AllocError> {
    let mut columns = Vec::new(alloc);
    for column in 0..MOST_COLUMNS {
        if column < survey.width && needs_rules(survey, reading, column) {
            columns.push(column)?;
        }
    }
    Ok(columns)
}

/// The columns, from 0, that have numbers with more than nine places behind a decimal point, of those that `coop_cli`
/// could take; none where the decimal mark is a comma.
pub(crate) fn long_of(
    alloc: Global,
    survey: &Survey,
    reading: Reading,
) -> Result<Vec<usize>, AllocError> {
    let mut columns = Vec::new(alloc);
    if reading.has_comma() {
        return Ok(columns);
    }
    for column in 0..MOST_COLUMNS {
        if column < survey.width && is_long(survey, column) {
            columns.push(column)?;
        }
    }
    Ok(columns)
}

/// The columns of both lists, each in its order, in one.
pub(crate) fn joined(
    alloc: Global,
    these: &[usize],
    those: &[usize],
) -> Result<Vec<usize>, AllocError> {
    let mut columns = Vec::new(alloc);
    for column in 0..MOST_COLUMNS {
        if these.contains(&column) || those.contains(&column) {
            columns.push(column)?;
        }
    }
    Ok(columns)
}

// Notes whether the field is one of the marks.
fn note(found: &mut [bool], field: &[u8]) {
    for i in 0..MARKS.len() {
        if i < found.len() && field == MARKS[i].as_bytes() {
            found[i] = true;
        }
    }
}

// Notes the marks in these columns of a record.
fn note_row(found: &mut [bool], row: &ByteRecord, columns: &[usize]) {
    for i in 0..columns.len() {
        note(found, field_or_none(row, columns[i]));
    }
}

/// For each mark, whether it is a field of these columns behind so many records.
pub(crate) fn marks_in(
    alloc: Global,
    marks: Marks,
    text: &[u8],
    skip: usize,
    columns: &[usize],
) -> Result<Vec<bool>, Failure> {
    let mut found = vec![in alloc; false; MARKS.len()]?;
    if columns.is_empty() {
        return Ok(found);
    }
    let mut rows = Rows::new(alloc, marks, text);
    let mut row = ByteRecord::new(alloc);
    skip_rows(&mut rows, &mut row, skip)?;
    for _done in 0..MOST_RECORDS {
        match rows.next(&mut row)? {
            Some(_line) => note_row(found.as_mut_slice(), &row, columns),
            None => return Ok(found),
        }
    }
    Err(Failure::TooLong)
}
