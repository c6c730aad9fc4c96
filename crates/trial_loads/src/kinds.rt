// Columns by the spellings of their fields, with the edges of 64 bits, and the codes of texts.
use crate::loading::{cells_of, loaded};
use std::alloc::{AllocError, Global};
use std::process::Abort;
use std::random::RandomSource;
use std::test::Fail;
use std::thread::Threads;
use table_core::{Cell, Dict, Kind};

const INT: Kind = Kind::Int;

const TEXT: Kind = Kind::Text;

// Two fields of a column, and its kind.
type Spelled<'a> = ([&'a [u8]; 2], Kind);

const SPELLED: &[Spelled<'static>] = &[
    ([b"", b""], INT),
    ([b"0", b"-5"], INT),
    ([b"", b"10"], INT),
    ([b"-0", b"1"], TEXT),
    ([b"+1", b"1"], TEXT),
    ([b"01", b"1"], TEXT),
    ([b"1e3", b"1"], TEXT),
    ([b".5", b"1"], TEXT),
    ([b"5.", b"1"], TEXT),
    ([b"-", b"1"], TEXT),
    ([b"1 ", b"1"], TEXT),
    ([b"9223372036854775807", b"-9223372036854775808"], INT),
    ([b"9223372036854775808", b"1"], TEXT),
    ([b"-9223372036854775809", b"1"], TEXT),
    ([b"1.50", b"3"], Kind::Dec { places: 2 }),
    ([b"-0", b"0.5"], Kind::Dec { places: 1 }),
    ([b"1.000000001", b""], Kind::Dec { places: 9 }),
    ([b"1.0000000001", b""], TEXT),
    ([b"00.5", b"1"], TEXT),
    ([b"92233720368547758.07", b"0.01"], Kind::Dec { places: 2 }),
    ([b"92233720368547758.08", b"0.01"], TEXT),
    ([b"-92233720368547758.08", b"0.01"], Kind::Dec { places: 2 }),
    ([b"-92233720368547758.09", b"0.01"], TEXT),
    ([b"92233720368547758", b"0.001"], TEXT),
];

// The text of a column of two fields.
fn text_of(alloc: Global, fields: [&[u8]; 2]) -> Result<Vec<u8>, AllocError> {
    let mut text = Vec::from_slice(alloc, b"v\n\"")?;
    text.extend_from_slice(fields[0])?;
    text.extend_from_slice(b"\"\n\"")?;
    text.extend_from_slice(fields[1])?;
    text.extend_from_slice(b"\"\n")?;
    Ok(text)
}

// Whether the text has a table of one column, which is of this kind.
fn has_kind(
    rt: &(impl Abort + RandomSource + Threads + Sync),
    alloc: Global,
    text: &[u8],
    kind: Kind,
) -> bool {
    match loaded(rt, alloc, text) {
        Ok(loaded) => {
            let columns = loaded.table.schema().columns();
            columns.len() == 1 && columns[0].kind == kind
        }
        Err(_) => false,
    }
}

fn expect_kinds(
    rt: &(impl Abort + RandomSource + Threads + Sync),
    alloc: Global,
    rows: &[Spelled<'_>],
) -> Result<(), Fail> {
    for (fields, kind) in rows {
        let text = text_of(alloc, *fields)?;
        assert!(rt; has_kind(rt, alloc, text.as_slice(), *kind), "{fields:?}");
    }
    Ok(())
}

#[test]
fn the_spelling_of_the_fields_decides_the_kind(rt: HostRuntime) -> Result<(), Fail> {
    expect_kinds(&rt, rt.alloc(), SPELLED)
}

const NAMES: &[u8] = b"n\nb\n\"\"\n\xff\na\nb\nab\n";

const RANKS: &[Cell] = &[
    Cell::Code(2),
    Cell::Null,
    Cell::Code(3),
    Cell::Code(0),
    Cell::Code(2),
    Cell::Code(1),
];

// A text, and its code or how many texts are smaller.
type Ranked<'a> = (&'a [u8], Result<u32, u32>);

const CODES: &[Ranked<'static>] = &[
    (b"a", Ok(0)),
    (b"ab", Ok(1)),
    (b"b", Ok(2)),
    (b"\xff", Ok(3)),
    (b"", Err(0)),
    (b"aa", Err(1)),
    (b"c", Err(3)),
];

fn expect_codes(rt: &impl Abort, dicts: &[Dict], rows: &[Ranked<'_>]) {
    assert!(rt; dicts.len() == 1 && dicts[0].len() == 4);
    for (text, code) in rows {
        assert!(rt; dicts[0].code_of(text) == *code, "{text:?}");
    }
}

#[test]
fn names_are_ranked_byte_by_byte(rt: HostRuntime) -> Result<(), Fail> {
    let Ok(loaded) = loaded(&rt, rt.alloc(), NAMES) else {
        return Err(Fail::new("refused"));
    };
    assert!(rt; cells_of(rt.alloc(), &loaded.table)?.as_slice() == RANKS);
    expect_codes(&rt, &loaded.dicts, CODES);
    Ok(())
}
