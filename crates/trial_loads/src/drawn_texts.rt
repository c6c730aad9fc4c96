// Texts of tables from a seed: the fields by hand, and how they are written drawn.
use crate::odd_fields::{name_of, pool_of};
use rand_core::Rng;
use rand_pcg::Pcg32;
use std::alloc::{AllocError, Global};

// How a text is written.
#[derive(Clone, Copy)]
struct Writing {
    columns: u32,
    rows: u32,
    // From 0 for LF, CRLF and CR; further ones are drawn for each line.
    line_end: u32,
    // Of 8 fields that need no quotes how many have them.
    quoted: u32,
    // Whether fields are written as they are, also those that need quotes.
    is_raw: bool,
    // The row that has another number of fields, if there is such a row.
    ragged_row: u32,
    // Digits of base 16: the sort of each column.
    sorts: u32,
}

fn below(rng: &mut Pcg32, count: u32) -> u32 {
    let word = rng.next_u32();
    if count == 0 { 0 } else { word % count }
}

// Mostly 1 to 5 columns, at times none, 16 or 17.
fn drawn_width(rng: &mut Pcg32) -> u32 {
    match below(rng, 64) {
        0 => 0,
        1 => 16,
        2 | 3 => 17,
        draw => 1 + draw % 5,
    }
}

fn drawn_writing(rng: &mut Pcg32) -> Writing {
    Writing {
        columns: drawn_width(rng),
        rows: below(rng, 13),
        line_end: below(rng, 5),
        quoted: below(rng, 9),
        is_raw: below(rng, 8) == 0,
        ragged_row: below(rng, 60),
        sorts: rng.next_u32(),
    }
}

// One of the fields, or nothing where there are none.
fn drawn_of(rng: &mut Pcg32, pool: &[&'static [u8]]) -> &'static [u8] {
    let place = rng.next_u32() as usize % pool.len().max(1);
    match pool.get(place) {
        Some(field) => field,
        None => b"",
    }
}

fn needs_quotes(field: &[u8]) -> bool {
    for byte in field {
        if matches!(*byte, b'"' | b',' | b'\r' | b'\n') {
            return true;
        }
    }
    false
}

// The field between quotes, with each quote inside doubled.
fn put_quoted(out: &mut Vec<u8>, field: &[u8]) -> Result<(), AllocError> {
    out.push(b'"')?;
    for byte in field {
        if *byte == b'"' {
            out.push(b'"')?;
        }
        out.push(*byte)?;
    }
    out.push(b'"')?;
    Ok(())
}

fn put_field(
    out: &mut Vec<u8>,
    rng: &mut Pcg32,
    writing: Writing,
    field: &[u8],
) -> Result<(), AllocError> {
    let is_needed = needs_quotes(field) && !writing.is_raw;
    if is_needed || below(rng, 8) < writing.quoted {
        put_quoted(out, field)
    } else {
        out.extend_from_slice(field)
    }
}

// The end of a line, at times twice, which makes an empty line.
fn put_line_end(out: &mut Vec<u8>, rng: &mut Pcg32, writing: Writing) -> Result<(), AllocError> {
    let drawn = below(rng, 3);
    let line_end = if writing.line_end < 3 {
        writing.line_end
    } else {
        drawn
    };
    let bytes: &[u8] = match (line_end, below(rng, 24)) {
        (0, 0) => b"\n\n",
        (0, _) => b"\n",
        (1, 0) => b"\r\n\r\n",
        (1, _) => b"\r\n",
        (_, 0) => b"\r\r",
        (_, _) => b"\r",
    };
    out.extend_from_slice(bytes)
}

fn put_comma(out: &mut Vec<u8>, column: u32) -> Result<(), AllocError> {
    if column > 0 {
        out.push(b',')?;
    }
    Ok(())
}

fn put_header(out: &mut Vec<u8>, rng: &mut Pcg32, writing: Writing) -> Result<(), AllocError> {
    for column in 0..writing.columns {
        let name = name_of(column, below(rng, 32));
        put_comma(out, column)?;
        put_field(out, rng, writing, name)?;
    }
    put_line_end(out, rng, writing)
}

// How many fields a row has.
fn width_of(rng: &mut Pcg32, writing: Writing, row: u32) -> u32 {
    if row == writing.ragged_row {
        below(rng, writing.columns.saturating_add(3))
    } else {
        writing.columns
    }
}

fn put_row(
    out: &mut Vec<u8>,
    rng: &mut Pcg32,
    writing: Writing,
    row: u32,
) -> Result<(), AllocError> {
    let behind = writing.rows.wrapping_sub(row).wrapping_sub(1);
    for column in 0..width_of(rng, writing, row) {
        let sort = writing.sorts >> (column % 8 * 4);
        let field = drawn_of(rng, pool_of(sort, behind));
        put_comma(out, column)?;
        put_field(out, rng, writing, field)?;
    }
    put_line_end(out, rng, writing)
}

// What stands before the header: at times a byte order mark, two of them or a part of one.
fn put_front(out: &mut Vec<u8>, rng: &mut Pcg32) -> Result<(), AllocError> {
    let bytes: &[u8] = match below(rng, 16) {
        0 | 1 | 2 | 3 => b"\xef\xbb\xbf",
        4 => b"\xef\xbb\xbf\xef\xbb\xbf",
        5 => b"\xef\xbb",
        6 => b"\n\r\n",
        _ => b"",
    };
    out.extend_from_slice(bytes)
}

// The text without its last byte: the line end, or a part of it.
fn drop_last(out: &mut Vec<u8>, rng: &mut Pcg32) {
    if below(rng, 4) == 0 {
        let _last = out.pop();
    }
}

// The text of a seed.
pub(crate) fn drawn_text(alloc: Global, seed: u64) -> Result<Vec<u8>, AllocError> {
    let mut rng = Pcg32::new(seed, 29);
    let mut out = Vec::new(alloc);
    let writing = drawn_writing(&mut rng);
    put_front(&mut out, &mut rng)?;
    put_header(&mut out, &mut rng, writing)?;
    for row in 0..writing.rows {
        put_row(&mut out, &mut rng, writing, row)?;
    }
    drop_last(&mut out, &mut rng);
    Ok(out)
}
