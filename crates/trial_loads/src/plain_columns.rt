// A column read the plain way: its kind from all of its fields, and its dictionary by a sort.
use crate::plain_numbers::number_of;
use std::alloc::{AllocError, Global};
use table_core::{Cell, Kind};

// What the fields of a column are.
#[derive(Drop)]
pub(crate) struct PlainColumn<'a> {
    pub(crate) kind: Kind,
    pub(crate) texts: Vec<&'a [u8]>,
    pub(crate) cells: Vec<Cell>,
}

// Whether each field that isn't empty is a whole number.
fn are_whole(fields: &[&[u8]]) -> bool {
    for field in fields {
        if field.len() > 0 && !number_of(field).is_some_and(|number| number.is_whole()) {
            return false;
        }
    }
    true
}

// The most digits behind a point, where each field that isn't empty is a number.
fn most_places(fields: &[&[u8]]) -> Option<u32> {
    let mut most = 0;
    for field in fields {
        if field.len() > 0 {
            most = number_of(field)?.places.max(most);
        }
    }
    Some(most)
}

// The number of a field with so many places.
fn number_in(field: &[u8], places: u32) -> Option<i64> {
    number_of(field)?.with_places(places)
}

// Whether each field that isn't empty has 64 bits with so many places.
fn are_decimal(fields: &[&[u8]], places: u32) -> bool {
    for field in fields {
        if field.len() > 0 && number_in(field, places).is_none() {
            return false;
        }
    }
    true
}

fn kind_of(fields: &[&[u8]]) -> Kind {
    if are_whole(fields) {
        return Kind::Int;
    }
    match most_places(fields) {
        Some(places) if places > 0 && are_decimal(fields, places) => Kind::Dec { places },
        _ => Kind::Text,
    }
}

// The texts of the fields, rising, each of them once.
fn distinct<'a>(alloc: Global, fields: &[&'a [u8]]) -> Result<Vec<&'a [u8]>, AllocError> {
    let mut texts = Vec::from_slice(alloc, fields)?;
    texts.retain(|text| text.len() > 0);
    texts.sort()?;
    texts.dedup();
    Ok(texts)
}

fn texts_of<'a>(
    alloc: Global,
    kind: Kind,
    fields: &[&'a [u8]],
) -> Result<Vec<&'a [u8]>, AllocError> {
    if kind == Kind::Text {
        distinct(alloc, fields)
    } else {
        Ok(Vec::new(alloc))
    }
}

// The code of a text of the list.
fn code_of(texts: &[&[u8]], field: &[u8]) -> Cell {
    let mut code: u32 = 0;
    for text in texts {
        if *text == field {
            return Cell::Code(code);
        }
        code = code.wrapping_add(1);
    }
    Cell::Null
}

fn number_cell(field: &[u8], places: u32) -> Cell {
    match number_in(field, places) {
        Some(number) => Cell::Int(number),
        None => Cell::Null,
    }
}

fn cell_of(kind: Kind, texts: &[&[u8]], field: &[u8]) -> Cell {
    match kind {
        Kind::Int => number_cell(field, 0),
        Kind::Dec { places } => number_cell(field, places),
        Kind::Text => code_of(texts, field),
    }
}

fn cells_of(
    alloc: Global,
    kind: Kind,
    texts: &[&[u8]],
    fields: &[&[u8]],
) -> Result<Vec<Cell>, AllocError> {
    let mut cells = Vec::new(alloc);
    for field in fields {
        cells.push(cell_of(kind, texts, field))?;
    }
    Ok(cells)
}

// The column of these fields.
pub(crate) fn plain_column<'a>(
    alloc: Global,
    fields: &[&'a [u8]],
) -> Result<PlainColumn<'a>, AllocError> {
    let kind = kind_of(fields);
    let texts = texts_of(alloc, kind, fields)?;
    let cells = cells_of(alloc, kind, texts.as_slice(), fields)?;
    Ok(PlainColumn { kind, texts, cells })
}
