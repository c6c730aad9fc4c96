// The loader and a plain one have the same tables and the same refusals for drawn texts.
use crate::drawn_texts::drawn_text;
use crate::loading::loaded_by;
use crate::plain_columns::{PlainColumn, plain_column};
use crate::plain_records::{column_at, field_of, plain_refusal, records_of};
use csv::ByteRecord;
use csv_load::{LoadRefusal, Loaded};
use std::alloc::{AllocError, Global};
use std::process::Abort;
use std::random::RandomSource;
use std::test::Fail;
use std::thread::Threads;
use table_core::{Cell, Dict, Kind, Table};

// The cell of a row and a column of a table; nothing where there is none.
fn cell_at(table: &Table, row: usize, column: usize) -> Option<Cell> {
    if row < table.len() && column < table.schema().len() {
        Some(table.cell(row, column))
    } else {
        None
    }
}

fn has_texts(dict: &Dict, texts: &[&[u8]]) -> bool {
    if dict.len() as usize != texts.len() {
        return false;
    }
    for code in 0..dict.len() {
        if dict.text_of(code) != texts[code as usize] {
            return false;
        }
    }
    true
}

// Whether the column of the table has these cells.
fn has_cells(table: &Table, column: usize, cells: &[Cell]) -> bool {
    for row in 0..cells.len() {
        if cell_at(table, row, column) != Some(cells[row]) {
            return false;
        }
    }
    table.len() == cells.len()
}

// Whether the column at a place has this name and this kind.
fn is_named(table: &Table, place: usize, name: &[u8], kind: Kind) -> bool {
    match table.schema().columns().get(place) {
        Some(column) => column.name.as_slice() == name && column.kind == kind,
        None => false,
    }
}

// Whether the column at a place is the plain one.
fn has_column(loaded: &Loaded, place: usize, name: &[u8], plain: &PlainColumn<'_>) -> bool {
    match loaded.dicts.get(place) {
        Some(dict) => {
            is_named(&loaded.table, place, name, plain.kind)
                && has_texts(dict, &plain.texts)
                && has_cells(&loaded.table, place, &plain.cells)
        }
        None => false,
    }
}

// Whether the table is that of the records, column by column.
fn is_plain(
    alloc: Global,
    loaded: &Loaded,
    header: &ByteRecord,
    rows: &[ByteRecord],
) -> Result<bool, AllocError> {
    for place in 0..header.len() {
        let fields = column_at(alloc, rows, place)?;
        let plain = plain_column(alloc, &fields)?;
        if !has_column(loaded, place, field_of(header, place), &plain) {
            return Ok(false);
        }
    }
    Ok(loaded.table.schema().len() == header.len() && loaded.dicts.len() == header.len())
}

// Whether the records have a table, and it is this one.
fn has_table(alloc: Global, records: &[ByteRecord], loaded: &Loaded) -> Result<bool, AllocError> {
    match records {
        [header, rows @ ..] if plain_refusal(records).is_none() => {
            is_plain(alloc, loaded, header, rows)
        }
        _ => Ok(false),
    }
}

// Whether the plain loader has the same table or the same refusal.
fn agrees(
    alloc: Global,
    records: &[ByteRecord],
    got: Result<Loaded, LoadRefusal>,
) -> Result<bool, AllocError> {
    match got {
        Ok(loaded) => has_table(alloc, records, &loaded),
        Err(refusal) => Ok(plain_refusal(records) == Some(refusal)),
    }
}

fn text_agrees(
    rt: &(impl Abort + RandomSource + Threads + Sync),
    alloc: Global,
    seed: u64,
) -> Result<bool, AllocError> {
    let text = drawn_text(alloc, seed)?;
    let records = records_of(alloc, &text)?;
    agrees(alloc, &records, loaded_by(rt, alloc, &text, 1))
}

#[test]
fn drawn_texts_are_loaded_as_a_plain_loader_does(rt: HostRuntime) -> Result<(), Fail> {
    for seed in 0..2000 {
        let is_same = text_agrees(&rt, rt.alloc(), seed)?;
        assert!(rt; is_same, "{seed}");
    }
    Ok(())
}
