// What no contract says: that calls succeed with ample memory, and that the definitions mean what people expect.
ghost use Rattle.std.specs.Prelude.{◌≤◌};
ghost use Rattle.std.specs.Bool.{OnTrue};
ghost use Rattle.table_core.specs.Columns.{AreColumnsOf};
ghost use Rattle.table_core.specs.Value.{IsCellOf, places_of};

use std::alloc::{AllocError, Global};
use std::process::Abort;
use std::test::Fail;
use table_core::{
    Bytes, Cell, Cells, ChunkSet, Codes, Column, ColumnSet, Dict, Kind, MOST_CHUNKS, Numbers,
    Schema, Table, Texts, chunk_count, chunk_span, places_of_kind, write_quoted, write_value,
};

fn bytes_of(alloc: Global, text: &[u8]) -> Result<Bytes, AllocError> {
    Ok(Bytes::new(Vec::from_slice(alloc, text)?))
}

#[test]
fn bytes_are_made_from_a_vector_and_given_back(rt: HostRuntime) -> Result<(), Fail> {
    let alloc = rt.alloc();
    let mut bytes = bytes_of(alloc, b"ab")?;
    bytes.append(b"c")?;
    assert!(rt; bytes.len() == 3);
    assert!(rt; bytes == bytes_of(alloc, b"abc")?);
    assert!(rt; bytes != bytes_of(alloc, b"abd")?);
    assert!(rt; bytes.into_vec().as_slice() == b"abc".as_slice());
    Ok(())
}

const RISING: &[Cell] = &[
    Cell::Null,
    Cell::Int(-7),
    Cell::Int(5),
    Cell::Code(0),
    Cell::Code(3),
];

fn expect_rising(rt: &impl Abort, cells: &[Cell]) {
    for low in 0..cells.len() {
        for high in low + 1..cells.len() {
            assert!(rt; cells[low] < cells[high], "{low} {high}");
        }
    }
}

#[test]
fn cells_are_ordered_null_then_numbers_then_codes(rt: HostRuntime) {
    expect_rising(&rt, RISING);
}

// The columns `id`, and `p` with two places.
fn columns_of_two(alloc: Global) -> Result<Vec<Column>, AllocError> {
    let id = Column {
        name: bytes_of(alloc, b"id")?,
        kind: Kind::Int,
    };
    let p = Column {
        name: bytes_of(alloc, b"p")?,
        kind: Kind::Dec { places: 2 },
    };
    Ok(vec![in alloc; id, p]?)
}

// Whether there are so many columns, at least one, each so long.
fn are_columns(width: usize, rows: usize, columns: &[Cells]) -> bool
    ensures { OnTrue result (AreColumnsOf width rows columns.now) }
{
    if width == 0 || columns.len() != width {
        return false;
    }
    for column in columns {
        if column.len() != rows {
            return false;
        }
    }
    true
}

fn numbers_of(alloc: Global, values: &[Option<i64>]) -> Result<Numbers, AllocError> {
    let mut numbers = Numbers::new(alloc);
    for value in values {
        numbers.push(*value)?;
    }
    Ok(numbers)
}

// The table of three rows of two columns.
fn table_of_three(rt: &impl Abort, alloc: Global) -> Result<Table, AllocError> {
    let ids = numbers_of(alloc, &[Some(1), Some(2), Some(3)])?;
    let prices = numbers_of(alloc, &[Some(150), None, Some(-25)])?;
    let cells = vec![in alloc; Cells::Numbers(ids), Cells::Numbers(prices)]?;
    let columns = columns_of_two(alloc)?;
    assert!(rt; are_columns(columns.len(), 3, cells.as_slice()));
    Ok(Table::new(Schema::new(columns), cells, 3))
}

// Whether the row of this number has these cells, read one by one and together.
fn has_row(table: &Table, row: usize, cells: &[Cell; 2]) -> bool {
    if row >= table.len() || table.schema().len() != 2 {
        return false;
    }
    let mut read = [Cell::Null; 2];
    table.row(row, &mut read);
    read == *cells && table.cell(row, 0) == cells[0] && table.cell(row, 1) == cells[1]
}

#[test]
fn a_table_gives_its_rows(rt: HostRuntime) -> Result<(), Fail> {
    let table = table_of_three(&rt, rt.alloc())?;
    assert!(rt; table.len() == 3 && table.schema().len() == 2);
    assert!(rt; has_row(&table, 0, &[Cell::Int(1), Cell::Int(150)]));
    assert!(rt; has_row(&table, 1, &[Cell::Int(2), Cell::Null]));
    assert!(rt; has_row(&table, 2, &[Cell::Int(3), Cell::Int(-25)]));
    Ok(())
}

// Whether there is a number at this place, which is then the place's number.
fn has_number(numbers: &Numbers, place: u32, there: bool) -> bool {
    let row = place as usize;
    if row >= numbers.len() || numbers.is_none(row) == there {
        return false;
    }
    match numbers.get(row) {
        None => !there && numbers.or_zero(row) == 0,
        Some(number) => there && number == i64::from(place) && numbers.or_zero(row) == number,
    }
}

// Each third of 200 places has none, so that null bits stand in four words.
#[test]
fn numbers_and_none_by_place(rt: HostRuntime) -> Result<(), Fail> {
    let mut numbers = Numbers::new(rt.alloc());
    for place in 0..200 {
        numbers.push(if place % 3 == 0 { None } else { Some(place) })?;
    }
    assert!(rt; numbers.len() == 200);
    for place in 0..200 {
        assert!(rt; has_number(&numbers, place, place % 3 != 0), "{place}");
    }
    Ok(())
}

// Whether the code at this place is this one.
fn has_code(codes: &Codes, place: usize, code: Option<u32>) -> bool {
    place < codes.len() && codes.get(place) == code
}

#[test]
fn codes_and_none_by_place(rt: HostRuntime) -> Result<(), Fail> {
    let mut codes = Codes::new(rt.alloc());
    codes.push(Some(4294967294))?;
    codes.push(None)?;
    codes.push(Some(0))?;
    assert!(rt; codes.len() == 3);
    codes.set(2, None);
    codes.set(1, Some(7));
    assert!(rt; has_code(&codes, 0, Some(4294967294)));
    assert!(rt; has_code(&codes, 1, Some(7)) && has_code(&codes, 2, None));
    Ok(())
}

// Whether the text of this number is this one.
fn has_text(texts: &Texts, place: usize, text: &[u8]) -> bool {
    place < texts.len() && texts.get(place) == text
}

#[test]
fn texts_are_kept_one_behind_another(rt: HostRuntime) -> Result<(), Fail> {
    let mut texts = Texts::new(rt.alloc());
    texts.push(b"")?;
    texts.push(b"yz")?;
    assert!(rt; texts.len() == 2 && has_text(&texts, 0, b"") && has_text(&texts, 1, b"yz"));
    Ok(())
}

// A dictionary of one text, whose code is 0.
fn dict_of(rt: &impl Abort, alloc: Global, text: &[u8]) -> Result<Dict, AllocError> {
    let mut dict = Dict::new(alloc);
    let code = dict.push(text)?;
    assert!(rt; code == 0 && dict.len() == 1 && dict.text_of(0) == text);
    Ok(dict)
}

// A text, and its code or how many texts are smaller.
type Found<'a> = (&'a [u8], Result<u32, u32>);

const FOUND: &[Found<'static>] = &[
    (b"Bo", Ok(0)),
    (b"", Err(0)),
    (b"B", Err(0)),
    (b"Bob", Err(1)),
    (b"\xff", Err(1)),
];

fn expect_found(rt: &impl Abort, dict: &Dict, rows: &[Found<'_>]) {
    for (text, found) in rows {
        assert!(rt; dict.code_of(text) == *found, "{text:?}");
    }
}

#[test]
fn a_dictionary_finds_texts_and_gaps(rt: HostRuntime) -> Result<(), Fail> {
    let dict = dict_of(&rt, rt.alloc(), b"Bo")?;
    expect_found(&rt, &dict, FOUND);
    Ok(())
}

// The set of these chunks, of which 200 is taken out again.
fn chunks_of(rt: &impl Abort, members: &[u32]) -> ChunkSet {
    let mut chunks = ChunkSet::empty();
    for c in members {
        assert!(rt; *c < MOST_CHUNKS);
        chunks.insert(*c);
    }
    chunks.remove(200);
    chunks
}

// A chunk, and the least member from there on.
const LEAST: &[(u32, Option<u32>)] = &[
    (0, Some(0)),
    (1, Some(63)),
    (64, Some(64)),
    (65, Some(1023)),
    (1024, None),
    (4294967295, None),
];

fn expect_least(rt: &impl Abort, chunks: &ChunkSet, rows: &[(u32, Option<u32>)]) {
    for (from, least) in rows {
        assert!(rt; chunks.copy().least_from(*from) == *least, "{from}");
    }
}

#[test]
fn a_set_of_chunks_knows_its_members(rt: HostRuntime) {
    let chunks = chunks_of(&rt, &[0, 63, 64, 200, 1023]);
    assert!(rt; chunks.len() == 4);
    assert!(rt; chunks.has(63) && chunks.has(1023) && !chunks.has(200) && !chunks.has(5000));
    expect_least(&rt, &chunks, LEAST);
}

#[test]
fn a_set_of_columns_knows_its_members(rt: HostRuntime) {
    let mut columns = ColumnSet::empty();
    columns.insert(15);
    columns.insert(0);
    assert!(rt; columns.copy().len() == 2);
    assert!(rt; columns.has(15) && !columns.has(1) && !columns.has(16));
}

// How many rows, how many in a chunk, and how many chunks.
const COUNTS: &[(u32, u32, u32)] = &[(0, 2, 0), (5, 2, 3), (4, 2, 2), (4294967295, 1, 4294967295)];

fn expect_counts(rt: &impl Abort, rows: &[(u32, u32, u32)]) {
    for (rows, per, count) in rows {
        assert!(rt; *per > 0);
        assert!(rt; chunk_count(*rows, *per) == *count, "{rows} {per}");
    }
}

// A chunk of five rows with two in each, and its rows.
const SPANS: &[(u32, (u32, u32))] = &[(0, (0, 2)), (1, (2, 4)), (2, (4, 5))];

fn expect_spans(rt: &impl Abort, rows: &[(u32, (u32, u32))]) {
    for (c, span) in rows {
        assert!(rt; *c < chunk_count(5, 2));
        assert!(rt; chunk_span(5, 2, *c) == *span, "{c}");
    }
}

#[test]
fn chunks_cut_the_rows(rt: HostRuntime) {
    expect_counts(&rt, COUNTS);
    expect_spans(&rt, SPANS);
}

// Whether a cell of this kind can be printed over the dictionary.
fn can_print(kind: Kind, dict: &Dict, cell: Cell) -> bool
    ensures places { OnTrue result (places_of kind ≤ 9) }
    ensures code { OnTrue result (IsCellOf dict.now cell) }
{
    let is_there = match cell {
        Cell::Code(code) => code < dict.len(),
        _ => true,
    };
    is_there && places_of_kind(kind) <= 9
}

// The text of a value.
fn printed(
    rt: &impl Abort,
    alloc: Global,
    kind: Kind,
    dict: &Dict,
    cell: Cell,
) -> Result<Bytes, Fail> {
    let mut out = Bytes::new(Vec::new(alloc));
    assert!(rt; can_print(kind, dict, cell));
    write_value(&mut out, kind, dict, cell)?;
    Ok(out)
}

// A kind, a cell, and its text.
type Printed<'a> = (Kind, Cell, &'a [u8]);

const PRINTED: &[Printed<'static>] = &[
    (Kind::Int, Cell::Null, b"NULL"),
    (Kind::Int, Cell::Int(0), b"0"),
    (Kind::Int, Cell::Int(i64::MIN), b"-9223372036854775808"),
    (Kind::Dec { places: 2 }, Cell::Int(300), b"3.00"),
    (Kind::Dec { places: 2 }, Cell::Int(-25), b"-0.25"),
    (Kind::Dec { places: 9 }, Cell::Int(1), b"0.000000001"),
    (Kind::Text, Cell::Code(0), b"'O''Brien'"),
];

fn expect_printed(
    rt: &impl Abort,
    alloc: Global,
    dict: &Dict,
    rows: &[Printed<'_>],
) -> Result<(), Fail> {
    for (kind, cell, text) in rows {
        let out = printed(rt, alloc, *kind, dict, *cell)?;
        assert!(rt; out.as_slice() == *text, "{text:?}");
    }
    Ok(())
}

// A text in quotes.
fn quoted(alloc: Global, text: &[u8]) -> Result<Bytes, Fail> {
    let mut out = Bytes::new(Vec::new(alloc));
    write_quoted(&mut out, text)?;
    Ok(out)
}

#[test]
fn values_are_printed(rt: HostRuntime) -> Result<(), Fail> {
    let dict = dict_of(&rt, rt.alloc(), b"O'Brien")?;
    expect_printed(&rt, rt.alloc(), &dict, PRINTED)?;
    let text = quoted(rt.alloc(), b"\xff\xfe\n")?;
    assert!(rt; text.as_slice() == b"'\xff\xfe\n'".as_slice());
    Ok(())
}
