// Tables of whole texts, and the texts that are refused.
use csv_load::{LoadRefusal, Loaded, MOST_TEXT_BYTES, load};
use std::alloc::{AllocError, Global};
use std::hash::RandomState;
use std::process::Abort;
use std::random::RandomSource;
use std::test::Fail;
use std::thread::Threads;
use table_core::{Cell, Kind, MOST_ROWS, Table};

// A text and the cells of its table, row by row.
pub(crate) type Read<'a> = (&'a [u8], &'a [Cell]);

const CELLS: &[Read<'static>] = &[
    (
        b"x\n1\n\"\"\n\n3\n",
        &[Cell::Int(1), Cell::Null, Cell::Int(3)],
    ),
    (
        TYPED,
        &[
            Cell::Int(1),
            Cell::Code(1),
            Cell::Int(10),
            Cell::Int(150),
            Cell::Code(0),
            Cell::Int(2),
            Cell::Code(0),
            Cell::Int(20),
            Cell::Int(-25),
            Cell::Code(1),
            Cell::Int(3),
            Cell::Code(1),
            Cell::Null,
            Cell::Int(300),
            Cell::Code(2),
        ],
    ),
    // numbers at the ends of 64 bits keep their values
    (
        b"i,d,o\n9223372036854775807,-0,9223372036854775808\n-9223372036854775808,-92233720368547758.08,+1\n",
        &[
            Cell::Int(9223372036854775807),
            Cell::Int(0),
            Cell::Code(1),
            Cell::Int(-9223372036854775808),
            Cell::Int(-9223372036854775808),
            Cell::Code(0),
        ],
    ),
];

// Columns of each kind, behind a byte order mark.
const TYPED: &[u8] =
    b"\xef\xbb\xbfid,dept,pay,p,z\n1,b,10,1.50,01\n2,a,20,-0.25,1\n3,b,,3,\xff\xfe\n";

// The table of a text within the limit, loaded by one thread.
pub(crate) fn loaded(
    rt: &(impl Abort + RandomSource + Threads + Sync),
    alloc: Global,
    text: &[u8],
) -> Result<Loaded, LoadRefusal> {
    loaded_by(rt, alloc, text, 0)
}

// The same, loaded by at most so many threads beside this one.
pub(crate) fn loaded_by(
    rt: &(impl Abort + RandomSource + Threads + Sync),
    alloc: Global,
    text: &[u8],
    most_threads: u32,
) -> Result<Loaded, LoadRefusal> {
    assert!(rt; text.len() <= MOST_TEXT_BYTES);
    let keys = RandomState::new(rt).expect(rt, "keys");
    load(rt, alloc, keys, text, most_threads)
}

// All cells of a table, row by row.
pub(crate) fn cells_of(alloc: Global, table: &Table) -> Result<Vec<Cell>, AllocError> {
    let mut cells = Vec::new(alloc);
    for row in 0..table.len() {
        for column in 0..table.schema().len() {
            cells.push(table.cell(row, column))?;
        }
    }
    Ok(cells)
}

// Whether the text has a table of these cells.
fn has_cells(
    rt: &(impl Abort + RandomSource + Threads + Sync),
    alloc: Global,
    text: &[u8],
    cells: &[Cell],
) -> bool {
    match loaded(rt, alloc, text) {
        Ok(loaded) => cells_of(alloc, &loaded.table).is_ok_and(|read| read.as_slice() == cells),
        Err(_) => false,
    }
}

pub(crate) fn expect_cells(
    rt: &(impl Abort + RandomSource + Threads + Sync),
    alloc: Global,
    rows: &[Read<'_>],
) {
    for (text, cells) in rows {
        assert!(rt; has_cells(rt, alloc, text, cells), "{text:?}");
    }
}

#[test]
fn texts_have_their_cells(rt: HostRuntime) {
    expect_cells(&rt, rt.alloc(), CELLS);
}

// The kind of each column, and how many texts its dictionary has.
const KINDS: &[(Kind, u32)] = &[
    (Kind::Int, 0),
    (Kind::Text, 2),
    (Kind::Int, 0),
    (Kind::Dec { places: 2 }, 0),
    (Kind::Text, 3),
];

// Whether the columns are of these kinds, with so many texts.
fn are_typed(loaded: &Loaded, wanted: &[(Kind, u32)]) -> bool {
    let columns = loaded.table.schema().columns();
    let dicts = loaded.dicts.as_slice();
    if columns.len() != wanted.len() || dicts.len() != wanted.len() {
        return false;
    }
    for place in 0..wanted.len() {
        if (columns[place].kind, dicts[place].len()) != wanted[place] {
            return false;
        }
    }
    true
}

#[test]
fn columns_are_typed_and_texts_are_codes(rt: HostRuntime) {
    let loaded = loaded(&rt, rt.alloc(), TYPED);
    assert!(rt; loaded.is_ok_and(|loaded| are_typed(&loaded, KINDS)));
}

// The rows of a text's table, or why it is none.
fn rows_loaded(
    rt: &(impl Abort + RandomSource + Threads + Sync),
    alloc: Global,
    text: &[u8],
) -> Result<usize, LoadRefusal> {
    let loaded = loaded(rt, alloc, text)?;
    Ok(loaded.table.len())
}

// A text, and how many rows its table has or why it is none.
type Judged<'a> = (&'a [u8], Result<usize, LoadRefusal>);

const JUDGED: &[Judged<'static>] = &[
    (b"", Err(LoadRefusal::NoHeader)),
    (b"\xef\xbb\xbf", Err(LoadRefusal::NoHeader)),
    (b"id\n", Ok(0)),
    (b"\xef\xbb\xbfid\r\n1\r\n2", Ok(2)),
    (b"x\n1\n\"\"\n\n3\n", Ok(3)),
    (b"x\n\"a\nb\"\n\"c,\"\"d\"\n", Ok(2)),
    (b",a\n1,2\n", Ok(1)),
    (b"0,1,2,3,4,5,6,7,8,9,a,b,c,d,e,f\n", Ok(0)),
    (
        b",,,,,,,,,,,,,,,,\n",
        Err(LoadRefusal::TooManyColumns { columns: 17 }),
    ),
    (
        b"a,b,b,a\n",
        Err(LoadRefusal::TwiceNamed {
            first: 1,
            second: 2,
        }),
    ),
    (
        b"a,a\n",
        Err(LoadRefusal::TwiceNamed {
            first: 0,
            second: 1,
        }),
    ),
    (
        b"a,a\n1\n",
        Err(LoadRefusal::TwiceNamed {
            first: 0,
            second: 1,
        }),
    ),
    (
        b"a,b\n1,2\n3\n4,5,6\n",
        Err(LoadRefusal::Ragged { row: 2, fields: 1 }),
    ),
    // the fourth record is the third row, and has three fields
    (
        b"a,b\n1,2\n3,\n4,5,6\n",
        Err(LoadRefusal::Ragged { row: 3, fields: 3 }),
    ),
    (b"a\n\xff\xfe\n", Ok(1)),
];

fn expect_judged(
    rt: &(impl Abort + RandomSource + Threads + Sync),
    alloc: Global,
    rows: &[Judged<'_>],
) {
    for (text, wanted) in rows {
        assert!(rt; rows_loaded(rt, alloc, text) == *wanted, "{text:?}");
    }
}

#[test]
fn hostile_tables(rt: HostRuntime) {
    expect_judged(&rt, rt.alloc(), JUDGED);
}

// A front, a part that stands so many times behind it, and a back; and how many rows the table of this text has or why
// it is none.
type Long<'a> = (
    &'a [u8],
    &'a [u8],
    u32,
    &'a [u8],
    Result<usize, LoadRefusal>,
);

fn text_of(alloc: Global, long: &Long<'_>) -> Result<Vec<u8>, AllocError> {
    let (front, part, count, back, _wanted) = *long;
    let mut text = Vec::from_slice(alloc, front)?;
    for _ in 0..count {
        text.extend_from_slice(part)?;
    }
    text.extend_from_slice(back)?;
    Ok(text)
}

fn expect_long(
    rt: &(impl Abort + RandomSource + Threads + Sync),
    alloc: Global,
    rows: &[Long<'_>],
) -> Result<(), Fail> {
    for long in rows {
        let text = text_of(alloc, long)?;
        let got = rows_loaded(rt, alloc, text.as_slice());
        assert!(rt; got == long.4, "{} {:?}", long.2, long.3);
    }
    Ok(())
}

// Names of 128 and 129 bytes.
const NAMES: &[Long<'static>] = &[
    (b"a,", b"x", 128, b"", Ok(0)),
    (
        b"a,",
        b"x",
        129,
        b"",
        Err(LoadRefusal::LongName { column: 1 }),
    ),
];

#[test]
fn the_length_of_a_name(rt: HostRuntime) -> Result<(), Fail> {
    expect_long(&rt, rt.alloc(), NAMES)
}

// A sixteenth of the most rows that a table may have.
const SIXTEENTH: u32 = MOST_ROWS / 16;

const SIXTEEN: &[u8] = b"1\n1\n1\n1\n1\n1\n1\n1\n1\n1\n1\n1\n1\n1\n1\n1\n";

// The most rows, and more behind them.
const FULL: &[Long<'static>] = &[
    (b"a\n", SIXTEEN, SIXTEENTH, b"", Ok(2097152)),
    (
        b"a\n",
        SIXTEEN,
        SIXTEENTH,
        b"1,2\n",
        Err(LoadRefusal::TooManyRows),
    ),
];

#[test]
fn the_number_of_rows(rt: HostRuntime) -> Result<(), Fail> {
    expect_long(&rt, rt.alloc(), FULL)
}

const ONE_MORE: &[Long<'static>] = &[(
    b"a\n",
    SIXTEEN,
    SIXTEENTH,
    b"1\n",
    Err(LoadRefusal::TooManyRows),
)];

// A test of its own, since each of these texts takes seconds.
#[test]
fn a_row_too_many(rt: HostRuntime) -> Result<(), Fail> {
    expect_long(&rt, rt.alloc(), ONE_MORE)
}
