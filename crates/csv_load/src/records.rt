// The rows of a text, each field kept once.
ghost use Rattle.std.specs.Prelude.{◌≡◌, ◌≢◌, ◌≤◌, [], IfErr, IfOk, Some, length, replicate};
ghost use Rattle.csv.specs.Records.{fields_of};
ghost use Rattle.csv_load.specs.Gathered.{RowPut};
ghost use Rattle.csv_load.specs.Reading.{IsRead};
ghost use Rattle.csv_load.specs.Judged.{refusal_of};
ghost use Rattle.csv_load.specs.Rows.{table_records};
ghost use Rattle.csv_load.specs.declared.refusal.LoadRefusal.TheVariants as refusal;

use crate::data_row::judge_row;
use crate::fields::field;
use crate::gathered::Gathered;
use crate::header::judge_header;
use crate::limits::MOST_TEXT_BYTES;
use crate::refusal::LoadRefusal;
use crate::rows::Rows;
use crate::seeded::Seeded;
use csv::ByteRecord;
use std::alloc::{AllocError, Global};
use table_core::Bytes;

// The names of a header, the fields of each column below it, and how many rows there are.
#[derive(Drop)]
pub(crate) struct Read {
    pub names: Vec<Bytes>,
    pub columns: Vec<Gathered>,
    pub rows: u32,
}

// The fields of a record.
fn names_of(alloc: Global, row: &ByteRecord) -> Result<Vec<Bytes>, AllocError>
    ensures { IfOk result (λ v. v.items ≡ fields_of row.now) }
{
    let mut names = Vec::new(alloc);
    for place in 0..row.len() {
        let name = Vec::from_slice(alloc, field(row, place))?;
        names.push(Bytes::new(name))?;
    }
    Ok(names)
}

fn no_columns(alloc: Global, hash: Seeded, width: usize) -> Result<Vec<Gathered>, AllocError>
    ensures { IfOk result (λ v. v.items ≡ replicate width []) }
{
    let mut columns = Vec::new(alloc);
    for _place in 0..width {
        columns.push(Gathered::new(alloc, hash))?;
    }
    Ok(columns)
}

// What is read with a header alone.
fn no_rows(alloc: Global, hash: Seeded, header: &ByteRecord) -> Result<Read, AllocError>
    ensures names { IfOk result (λ read. read.names.items ≡ fields_of header.now) }
    ensures columns { IfOk result (λ read. read.columns.items ≡ replicate (length (fields_of header.now)) []) }
    ensures rows { IfOk result (λ read. read.rows ≡ 0) }
{
    Ok(Read {
        names: names_of(alloc, header)?,
        columns: no_columns(alloc, hash, header.len())?,
        rows: 0,
    })
}

// Puts each field of a row at the end of its column.
fn put_row(columns: &mut [Gathered], row: &ByteRecord) -> Result<(), AllocError>
    requires { length columns.old ≡ length (fields_of row.now) }
    ensures { IfOk result (λ _. RowPut columns.old (fields_of row.now) columns.new) }
{
    for place in 0..columns.len() {
        columns[place].put(field(row, place))?;
    }
    Ok(())
}

// Reads each record once, and judges it.
pub(crate) fn read_rows(alloc: Global, hash: Seeded, text: &[u8]) -> Result<Read, LoadRefusal>
    requires small { length text.now ≤ MOST_TEXT_BYTES }
    ensures read { IfOk result (λ r. IsRead (table_records text.now) r.names.items r.columns.items r.rows) }
    ensures refused { IfErr result (λ e. e ≢ refusal.Memory → refusal_of (table_records text.now) ≡ Some e) }
{
    let mut rows = Rows::new(alloc, text);
    let mut row = ByteRecord::new(alloc);
    if !rows.next(&mut row)? {
        return Err(LoadRefusal::NoHeader);
    }
    let width = row.len();
    if let Some(refusal) = judge_header(&row) {
        return Err(refusal);
    }
    // The reader gives no record without fields, though no clause of it says so.
    if width == 0 {
        return Err(LoadRefusal::Memory);
    }
    let mut read = no_rows(alloc, hash, &row)?;
    while rows.next(&mut row)? {
        if let Some(cause) = judge_row(&row, width, read.rows) {
            return Err(cause);
        }
        put_row(&mut read.columns, &row)?;
        read.rows += 1;
    }
    Ok(read)
}
