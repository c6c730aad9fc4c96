// One text loaded by several numbers of threads.
ghost use Rattle.std.specs.Prelude.{◌<◌};

use crate::loading::loaded_by;
use csv_load::Loaded;
use std::alloc::{AllocError, Global};
use std::process::Abort;
use std::test::Fail;
use table_core::{Cell, Kind, Table};

// Enough rows that the texts of a column are worth a thread.
const ROWS: u32 = 18000;

const WIDTH: usize = 6;

// The fields of a row: its number; falling texts; one of two texts; texts that a step of 7 mixes; its number in
// hundredths; and texts of which each third is left out.
fn record(alloc: Global, row: u32) -> Result<String, AllocError>
    requires { row < ROWS }
{
    let two = if row % 2 == 0 { "low" } else { "high" };
    let falling = ROWS - 1 - row;
    let mixed = row * 7 % ROWS;
    let (whole, rest) = (row / 100, row % 100);
    if row % 3 == 0 {
        return format!(in alloc; "{row},f{falling:05},{two},m{mixed:05},{whole}.{rest:02},\n");
    }
    format!(in alloc; "{row},f{falling:05},{two},m{mixed:05},{whole}.{rest:02},t{row:05}\n")
}

fn text(alloc: Global) -> Result<Vec<u8>, AllocError> {
    let mut text = Vec::from_slice(alloc, b"id,falling,two,mixed,cents,thirds\n")?;
    for row in 0..ROWS {
        text.extend_from_slice(record(alloc, row)?.as_bytes())?;
    }
    Ok(text)
}

const KINDS: [Kind; WIDTH] = [
    Kind::Int,
    Kind::Text,
    Kind::Text,
    Kind::Text,
    Kind::Dec { places: 2 },
    Kind::Text,
];

// How many texts the dictionary of each column has.
const TEXTS: [u32; WIDTH] = [0, ROWS, 2, ROWS, 0, ROWS / 3 * 2];

// The cells of a row. `high` stands before `low`, and two of three rows have a text of the last column.
fn cells(row: u32) -> [Cell; WIDTH]
    requires { row < ROWS }
{
    let thirds = if row % 3 == 0 {
        Cell::Null
    } else {
        Cell::Code(row / 3 * 2 + row % 3 - 1)
    };
    [
        Cell::Int(i64::from(row)),
        Cell::Code(ROWS - 1 - row),
        Cell::Code(1 - row % 2),
        Cell::Code(row * 7 % ROWS),
        Cell::Int(i64::from(row)),
        thirds,
    ]
}

fn has_kinds(loaded: &Loaded) -> bool {
    let columns = loaded.table.schema().columns();
    if columns.len() != WIDTH || loaded.dicts.len() != WIDTH {
        return false;
    }
    for place in 0..WIDTH {
        if columns[place].kind != KINDS[place] || loaded.dicts[place].len() != TEXTS[place] {
            return false;
        }
    }
    true
}

fn has_row(table: &Table, row: u32) -> bool
    requires { row < ROWS }
{
    if row as usize >= table.len() || table.schema().len() != WIDTH {
        return false;
    }
    let mut read = [Cell::Null; WIDTH];
    table.row(row as usize, &mut read);
    read == cells(row)
}

fn has_cells(table: &Table) -> bool {
    for row in 0..ROWS {
        if !has_row(table, row) {
            return false;
        }
    }
    table.len() == ROWS as usize
}

// Whether a column's dictionary has this text for a code.
fn has_text(loaded: &Loaded, column: usize, code: u32, wanted: &[u8]) -> bool {
    if column >= loaded.dicts.len() {
        return false;
    }
    let dict = &loaded.dicts[column];
    code < dict.len() && dict.text_of(code) == wanted
}

// The same of a letter and a number.
fn has_number(
    alloc: Global,
    loaded: &Loaded,
    column: usize,
    code: u32,
    letter: &str,
    number: u32,
) -> Result<bool, AllocError> {
    let wanted = format!(in alloc; "{letter}{number:05}")?;
    Ok(has_text(loaded, column, code, wanted.as_bytes()))
}

// Whether the dictionaries have the texts of their columns in their order.
fn has_texts(alloc: Global, loaded: &Loaded) -> Result<bool, AllocError> {
    for code in 0..ROWS {
        if !has_number(alloc, loaded, 1, code, "f", code)?
            || !has_number(alloc, loaded, 3, code, "m", code)?
        {
            return Ok(false);
        }
    }
    for code in 0..ROWS / 3 * 2 {
        let number = code / 2 * 3 + code % 2 + 1;
        if !has_number(alloc, loaded, 5, code, "t", number)? {
            return Ok(false);
        }
    }
    Ok(has_text(loaded, 2, 0, b"high") && has_text(loaded, 2, 1, b"low"))
}

#[test]
fn the_table_is_the_same_by_any_number_of_threads(rt: HostRuntime) -> Result<(), Fail> {
    let alloc = rt.alloc();
    let text = text(alloc)?;
    for most_threads in [0, 1, 3, 7] {
        let Ok(loaded) = loaded_by(&rt, alloc, &text, most_threads) else {
            panic!(rt; "no table by {most_threads}")
        };
        assert!(rt; has_kinds(&loaded), "{most_threads}");
        assert!(rt; has_cells(&loaded.table), "{most_threads}");
        assert!(rt; has_texts(alloc, &loaded)?, "{most_threads}");
    }
    Ok(())
}
