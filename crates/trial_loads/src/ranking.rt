// The codes of texts that are hard to keep apart, and of drawn texts by what a dictionary means.
use crate::loading::{Read, cells_of, expect_cells, loaded};
use csv_load::Loaded;
use std::alloc::{AllocError, Global};
use std::cmp::Ordering;
use std::test::Fail;
use table_core::{Cell, Dict, Texts};

const CELLS: &[Read<'static>] = &[
    // the last row makes the numbers above it texts
    (
        b"v\n10\n9\n\"\"\n10\n2\nx\n",
        &[
            Cell::Code(0),
            Cell::Code(2),
            Cell::Null,
            Cell::Code(0),
            Cell::Code(1),
            Cell::Code(3),
        ],
    ),
    (
        b"v\n1.5\n2\n-7\n9223372036854775807\n-\n",
        &[
            Cell::Code(2),
            Cell::Code(3),
            Cell::Code(1),
            Cell::Code(4),
            Cell::Code(0),
        ],
    ),
    // columns that have their first text in the first row, the third and the last, with numbers above and nothing
    (
        b"a,b,c,d\n1,,7,x\n,5,8,\nx,6,9,2\n3,y,10,x\n",
        &[
            Cell::Code(0),
            Cell::Null,
            Cell::Int(7),
            Cell::Code(1),
            Cell::Null,
            Cell::Code(0),
            Cell::Int(8),
            Cell::Null,
            Cell::Code(2),
            Cell::Code(1),
            Cell::Int(9),
            Cell::Code(0),
            Cell::Code(1),
            Cell::Code(2),
            Cell::Int(10),
            Cell::Code(1),
        ],
    ),
    // numbers with places: all alike, a whole one and a zero with a sign among them, and those above a text
    (
        b"p,w,z,t\n1.50,7,0.5,0.00\n-0.25,,-0,1.25\n,2,2.5,-0.00\n12.00,1.5,,x\n",
        &[
            Cell::Int(150),
            Cell::Int(70),
            Cell::Int(5),
            Cell::Code(1),
            Cell::Int(-25),
            Cell::Null,
            Cell::Int(0),
            Cell::Code(2),
            Cell::Null,
            Cell::Int(20),
            Cell::Int(25),
            Cell::Code(0),
            Cell::Int(1200),
            Cell::Int(15),
            Cell::Null,
            Cell::Code(3),
        ],
    ),
    // the last row has other places than the numbers above it, which reach the end of 64 bits
    (
        b"v\n-0.05\n10.00\n-92233720368547758.08\n1.5\n",
        &[
            Cell::Int(-5),
            Cell::Int(1000),
            Cell::Int(-9223372036854775808),
            Cell::Int(150),
        ],
    ),
    // 17 bytes that are the same
    (
        b"v\naaaaaaaaaaaaaaaaab\naaaaaaaaaaaaaaaaa\naaaaaaaaaaaaaaaaaab\naaaaaaaaaaaaaaaaaa\n",
        &[Cell::Code(3), Cell::Code(0), Cell::Code(2), Cell::Code(1)],
    ),
    // the last of 16 bytes, of 17 and of 8 differs
    (
        b"v\nabcdefghijklmnoq\nabcdefghijklmnop\nabcdefghijklmnopq\nabcdefghijklmnopp\nabcdefgi\nabcdefgh\n",
        &[
            Cell::Code(4),
            Cell::Code(1),
            Cell::Code(3),
            Cell::Code(2),
            Cell::Code(5),
            Cell::Code(0),
        ],
    ),
    // 32 bytes that are the same, and 31
    (
        b"v\nabcdefghijklmnopqrstuvwxyzABCDEFb\nabcdefghijklmnopqrstuvwxyzABCDEF\nabcdefghijklmnopqrstuvwxyzABCDEFa\n\
abcdefghijklmnopqrstuvwxyzABCDEG\nabcdefghijklmnopqrstuvwxyzABCDEF\0\n",
        &[
            Cell::Code(3),
            Cell::Code(0),
            Cell::Code(2),
            Cell::Code(4),
            Cell::Code(1),
        ],
    ),
    // zero bytes at the end
    (
        b"v\na\0\0\na\na\0\n\0\na\0\0\nb\n\0\0\n",
        &[
            Cell::Code(4),
            Cell::Code(2),
            Cell::Code(3),
            Cell::Code(0),
            Cell::Code(4),
            Cell::Code(5),
            Cell::Code(1),
        ],
    ),
    // empty fields beside texts, numbers and nothing
    (
        b"t,n,e\n,1,\nb,,\n\"\",\"\",\"\"\na,2,\n",
        &[
            Cell::Null,
            Cell::Int(1),
            Cell::Null,
            Cell::Code(1),
            Cell::Null,
            Cell::Null,
            Cell::Null,
            Cell::Null,
            Cell::Null,
            Cell::Code(0),
            Cell::Int(2),
            Cell::Null,
        ],
    ),
];

#[test]
fn texts_that_are_hard_to_keep_apart(rt: HostRuntime) {
    expect_cells(&rt, rt.alloc(), CELLS);
}

// The next number of a sequence that looks drawn.
fn next(state: u64) -> u64 {
    state
        .wrapping_mul(6364136223846793005)
        .wrapping_add(1442695040888963407)
}

// Up to 39 times `a`, and behind them up to 3 bytes of four.
fn drawn_field(alloc: Global, drawn: u64) -> Result<Vec<u8>, AllocError> {
    let mut field = Vec::new(alloc);
    for _ in 0..(drawn >> 33) % 40 {
        field.push(b'a')?;
    }
    for place in 0..(drawn >> 40) % 4 {
        let byte = match (drawn >> (48 + 2 * place)) % 4 {
            0 => 0,
            1 => b'a',
            2 => b'b',
            _ => 255,
        };
        field.push(byte)?;
    }
    Ok(field)
}

fn drawn_fields(alloc: Global, seed: u64, count: usize) -> Result<Texts, AllocError> {
    let mut fields = Texts::new(alloc);
    let mut state = seed;
    for _ in 0..count {
        state = next(state);
        fields.push(drawn_field(alloc, state)?.as_slice())?;
    }
    Ok(fields)
}

// The text of one column of these fields, each in quotes.
fn text_of(alloc: Global, fields: &Texts) -> Result<Vec<u8>, AllocError> {
    let mut text = Vec::from_slice(alloc, b"v\n")?;
    for place in 0..fields.len() {
        text.push(b'"')?;
        text.extend_from_slice(fields.get(place))?;
        text.extend_from_slice(b"\"\n")?;
    }
    Ok(text)
}

// Whether each text is below the next one.
fn rises(dict: &Dict) -> bool {
    for code in 1..dict.len() {
        if dict.text_of(code - 1).cmp(&dict.text_of(code)) != Ordering::Less {
            return false;
        }
    }
    true
}

// Whether a cell of a column of texts stands for a field.
fn stands_for(dict: &Dict, cell: Cell, field: &[u8]) -> bool {
    match cell {
        Cell::Null => field.len() == 0,
        Cell::Int(_) => false,
        Cell::Code(code) => field.len() > 0 && code < dict.len() && dict.text_of(code) == field,
    }
}

// Whether each text of a dictionary has a cell.
fn each_is_used(dict: &Dict, cells: &[Cell]) -> bool {
    for code in 0..dict.len() {
        if !cells.contains(&Cell::Code(code)) {
            return false;
        }
    }
    true
}

// Whether the table has one column of just these fields.
fn has_fields(loaded: &Loaded, cells: &[Cell], fields: &Texts) -> bool {
    if loaded.dicts.len() != 1 || cells.len() != fields.len() {
        return false;
    }
    let dict = &loaded.dicts[0];
    for place in 0..cells.len() {
        if !stands_for(dict, cells[place], fields.get(place)) {
            return false;
        }
    }
    rises(dict) && each_is_used(dict, cells)
}

// Seeds, and how many fields are drawn.
const DRAWS: &[(u64, usize)] = &[(1, 2), (2, 40), (3, 200), (4, 400), (5, 400)];

#[test]
fn drawn_texts_have_their_dictionary(rt: HostRuntime) -> Result<(), Fail> {
    for (seed, count) in DRAWS {
        let fields = drawn_fields(rt.alloc(), *seed, *count)?;
        let text = text_of(rt.alloc(), &fields)?;
        let Ok(loaded) = loaded(&rt, rt.alloc(), text.as_slice()) else {
            return Err(Fail::new("refused"));
        };
        let cells = cells_of(rt.alloc(), &loaded.table)?;
        assert!(rt; has_fields(&loaded, cells.as_slice(), &fields), "{seed}");
    }
    Ok(())
}

// More texts than are looked up.
const MANY: u32 = 40000;

// 20 bytes that are the same, and a number of 5 digits.
fn long_text(alloc: Global, number: u32) -> Result<String, AllocError> {
    format!(in alloc; "the same 20 bytes at{number:05}")
}

// Falling texts, and the first of them once more at the end.
fn falling(alloc: Global) -> Result<Vec<u8>, AllocError> {
    let mut text = Vec::from_slice(alloc, b"v\n")?;
    for row in 0..MANY {
        text.extend_from_slice(long_text(alloc, MANY - 1 - row)?.as_bytes())?;
        text.push(b'\n')?;
    }
    text.extend_from_slice(long_text(alloc, MANY - 1)?.as_bytes())?;
    Ok(text)
}

// Whether the codes of falling texts fall to 0, and the last cell has the first one's.
fn codes_fall(cells: &[Cell]) -> bool {
    if cells.len() != MANY as usize + 1 {
        return false;
    }
    for row in 0..MANY {
        if cells[row as usize] != Cell::Code(MANY - 1 - row) {
            return false;
        }
    }
    cells[MANY as usize] == Cell::Code(MANY - 1)
}

#[test]
fn more_texts_than_are_looked_up(rt: HostRuntime) -> Result<(), Fail> {
    let text = falling(rt.alloc())?;
    let Ok(loaded) = loaded(&rt, rt.alloc(), text.as_slice()) else {
        return Err(Fail::new("refused"));
    };
    let cells = cells_of(rt.alloc(), &loaded.table)?;
    assert!(rt; codes_fall(cells.as_slice()));
    Ok(())
}
