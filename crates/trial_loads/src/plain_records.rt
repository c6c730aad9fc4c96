// All records of a text in a list, and why they are no table, judged cause by cause.
use csv::{ByteRecord, ReaderBuilder};
use csv_load::LoadRefusal;
use std::alloc::{AllocError, Global};
use table_core::{MOST_COLUMNS, MOST_ROWS};

// The most bytes that a name may have.
const MOST_NAME_BYTES: usize = 128;

// All records of a text, the header first. Over bytes that are there the reader fails only when out of memory.
pub(crate) fn records_of(alloc: Global, text: &[u8]) -> Result<Vec<ByteRecord>, AllocError> {
    let mut reader = ReaderBuilder::new()
        .has_headers(false)
        .flexible(true)
        .from_reader(alloc, text);
    let mut records = Vec::new(alloc);
    for _ in 0..text.len() {
        let mut record = ByteRecord::new(alloc);
        match reader.read_byte_record(&mut record) {
            Ok(true) => records.push(record)?,
            Ok(false) => break,
            Err(_) => return Err(AllocError),
        }
    }
    Ok(records)
}

// A field of a record; nothing where it has no such field.
pub(crate) fn field_of(record: &ByteRecord, place: usize) -> &[u8] {
    match record.get(place) {
        Some(field) => field,
        None => b"",
    }
}

// The fields of these records at a place.
pub(crate) fn column_at(
    alloc: Global,
    rows: &[ByteRecord],
    place: usize,
) -> Result<Vec<&[u8]>, AllocError> {
    let mut fields = Vec::new(alloc);
    for row in rows {
        fields.push(field_of(row, place))?;
    }
    Ok(fields)
}

fn too_many_columns(header: &ByteRecord) -> Option<LoadRefusal> {
    let columns = u32::try_from(header.len()).ok()?;
    if columns > MOST_COLUMNS {
        Some(LoadRefusal::TooManyColumns { columns })
    } else {
        None
    }
}

fn long_name(header: &ByteRecord) -> Option<LoadRefusal> {
    for place in 0..header.len() {
        if field_of(header, place).len() > MOST_NAME_BYTES {
            let column = u32::try_from(place).ok()?;
            return Some(LoadRefusal::LongName { column });
        }
    }
    None
}

// The first of the names before a place that is the name at the place.
fn named_before(header: &ByteRecord, second: usize) -> Option<usize> {
    for first in 0..second {
        if field_of(header, first) == field_of(header, second) {
            return Some(first);
        }
    }
    None
}

fn twice_named(header: &ByteRecord) -> Option<LoadRefusal> {
    for second in 0..header.len() {
        if let Some(first) = named_before(header, second) {
            return Some(LoadRefusal::TwiceNamed {
                first: u32::try_from(first).ok()?,
                second: u32::try_from(second).ok()?,
            });
        }
    }
    None
}

// The first of the rows that a table may have that has another number of fields.
fn ragged(header: &ByteRecord, rows: &[ByteRecord]) -> Option<LoadRefusal> {
    for place in 0..rows.len().min(MOST_ROWS as usize) {
        if rows[place].len() != header.len() {
            return Some(LoadRefusal::Ragged {
                row: u32::try_from(place).ok()?.wrapping_add(1),
                fields: u32::try_from(rows[place].len()).ok()?,
            });
        }
    }
    None
}

fn too_many_rows(rows: &[ByteRecord]) -> Option<LoadRefusal> {
    if rows.len() > MOST_ROWS as usize {
        Some(LoadRefusal::TooManyRows)
    } else {
        None
    }
}

fn judged(header: &ByteRecord, rows: &[ByteRecord]) -> Option<LoadRefusal> {
    too_many_columns(header)
        .or(long_name(header))
        .or(twice_named(header))
        .or(ragged(header, rows))
        .or(too_many_rows(rows))
}

// Why the records of a text are no table: the first cause that holds.
pub(crate) fn plain_refusal(records: &[ByteRecord]) -> Option<LoadRefusal> {
    match records {
        [] => Some(LoadRefusal::NoHeader),
        [header, rows @ ..] => judged(header, rows),
    }
}
