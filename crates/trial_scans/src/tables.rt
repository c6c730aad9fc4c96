//! Tables in depots, for tests.
use coop_outside::{Depot, MemDepot, SpoiltDepot};
use piece_format::{Layout, Shape};
use std::alloc::Global;
use std::process::Abort;
use std::test::Fail;
use table_core::Kind;

/// No piece has this number.
pub const NO_PIECE: u32 = 4294967295;

const MINUS_5: u64 = 18446744073709551611;

/// Five rows of a number, a text and a number, two in a chunk, in the row layout.
pub const ROWS: [&[u64]; 3] = [
    &[0, 1, 0, 10, 0, 2, 1, 20],
    &[4, 3, 0, 0, 0, 4, 2, 40],
    &[0, 5, 1, MINUS_5],
];

/// The first and the last column of the same rows, in the column layout.
pub const COLUMNS: [&[u64]; 6] = [
    &[1, 2, 0],
    &[10, 20, 0],
    &[3, 4, 0],
    &[0, 40, 1],
    &[5, 0],
    &[MINUS_5, 0],
];

/// Six rows of a number, one in a chunk, in the row layout.
pub const SIX: [&[u64]; 6] = [&[0, 70], &[0, 71], &[0, 72], &[0, 73], &[0, 74], &[0, 75]];

/// Puts the words of a piece into a depot.
pub fn put_words<R: Abort>(
    rt: &R,
    alloc: Global,
    depot: &mut MemDepot,
    piece: u32,
    words: &[u64],
) -> Result<(), Fail> {
    let mut bytes = Vec::new(alloc);
    for word in words {
        bytes.extend_from_slice(&word.to_le_bytes())?;
    }
    assert!(rt; depot.put(piece, bytes.as_slice()).is_ok());
    Ok(())
}

/// A depot that has these pieces, fails at these gets, and gives a word of a piece wrong.
pub fn depot<R: Abort>(
    rt: &R,
    alloc: Global,
    pieces: &[&[u64]],
    fail_gets: &[u64],
    spoilt: (u32, u32),
) -> Result<SpoiltDepot, Fail> {
    let mut inner = MemDepot::new(alloc);
    let mut number = 0u32;
    for words in pieces {
        put_words(rt, alloc, &mut inner, number, words)?;
        number = number.saturating_add(1);
    }
    inner.fail_gets = Vec::from_slice(alloc, fail_gets)?;
    let (piece, word) = spoilt;
    Ok(SpoiltDepot {
        inner,
        piece,
        word,
        value: u64::MAX,
    })
}

/// The shape of a table.
pub fn shape(
    alloc: Global,
    layout: Layout,
    kinds: &[Kind],
    dict_lens: &[u32],
    rows: u32,
    per: u32,
) -> Result<Shape, Fail> {
    Ok(Shape {
        layout,
        kinds: Vec::from_slice(alloc, kinds)?,
        dict_lens: Vec::from_slice(alloc, dict_lens)?,
        rows,
        per,
    })
}

/// The shape of `ROWS`.
pub fn row_shape(alloc: Global) -> Result<Shape, Fail> {
    let kinds = [Kind::Int, Kind::Text, Kind::Int];
    shape(alloc, Layout::Row, &kinds, &[0, 3, 0], 5, 2)
}

/// The shape of `COLUMNS`.
pub fn column_shape(alloc: Global) -> Result<Shape, Fail> {
    let kinds = [Kind::Int, Kind::Int];
    shape(alloc, Layout::Column, &kinds, &[0, 0], 5, 2)
}

/// The shape of `SIX`.
pub fn six_shape(alloc: Global) -> Result<Shape, Fail> {
    shape(alloc, Layout::Row, &[Kind::Int], &[0], 6, 1)
}
