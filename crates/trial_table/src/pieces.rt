// What no contract says: that calls succeed with ample memory, and that the definitions give the words and bytes that
// people expect.
ghost use Rattle.piece_format.specs.Cells.{IsTableOf};
ghost use Rattle.piece_format.specs.Shape.{IsShape};

use crate::asked::is_shape;
use crate::example::{CELLS, Example, KINDS, MINUS_5, cut, cut_seventy};
use piece_format::{
    Damage, Layout, Shape, check, encode, frame_words, groups, piece_of, piece_words, word_at,
    words_to_bytes,
};
use std::alloc::Global;
use std::process::Abort;
use std::test::Fail;
use table_core::Kind;
use table_pieces::chunks_of;

// The words of a piece.
pub(crate) fn words_of(
    rt: &impl Abort,
    alloc: Global,
    cut: &Example,
    piece: u32,
) -> Result<Vec<u64>, Fail>
    requires shape { IsShape cut.now.shape }
    requires table { IsTableOf cut.now.shape cut.now.table }
{
    assert!(rt; piece < chunks_of(&cut.shape) * groups(&cut.shape));
    Ok(encode(alloc, &cut.shape, &cut.table, piece)?)
}

// What the bytes of a piece are found to be.
pub(crate) fn checked(
    rt: &impl Abort,
    shape: &Shape,
    piece: u32,
    bytes: &[u8],
) -> Result<(), Damage>
    requires { IsShape shape.now }
{
    assert!(rt; piece < chunks_of(shape) * groups(shape));
    assert!(rt; bytes.len() == 8 * piece_words(shape, piece) as usize);
    check(shape, piece, bytes)
}

// Layout, piece, its words; of the example with two rows in a chunk.
type Encoded<'a> = (Layout, u32, &'a [u64]);

const WORDS: &[Encoded<'static>] = &[
    (Layout::Row, 1, &[4, 3, 0, 0, 0, 4, 2, 40]),
    (Layout::Row, 2, &[0, 5, 1, MINUS_5]),
    (Layout::Column, 5, &[0, 40, 1]),
    (Layout::Column, 8, &[MINUS_5, 0]),
];

// The words of a piece of the example.
fn words_of_example(
    rt: &impl Abort,
    alloc: Global,
    layout: Layout,
    piece: u32,
) -> Result<Vec<u64>, Fail> {
    let cut = cut(rt, alloc, &CELLS, layout, 2)?;
    words_of(rt, alloc, &cut, piece)
}

fn expect_words(rt: &impl Abort, alloc: Global, rows: &[Encoded<'_>]) -> Result<(), Fail> {
    for (layout, piece, wanted) in rows {
        let words = words_of_example(rt, alloc, *layout, *piece)?;
        assert!(rt; words.as_slice() == *wanted, "{piece}");
    }
    Ok(())
}

#[test]
fn pieces_as_words(rt: HostRuntime) -> Result<(), Fail> {
    expect_words(&rt, rt.alloc(), WORDS)
}

// Words with their bytes.
type Written<'a> = (&'a [u64], &'a [u8]);

const BYTES: &[Written<'static>] = &[
    (
        &[4, 3, 0, 0, 0, 4, 2, 40],
        &[
            4, 0, 0, 0, 0, 0, 0, 0, 3, 0, 0, 0, 0, 0, 0, 0, 0, 0, 0, 0, 0, 0, 0, 0, 0, 0, 0, 0, 0,
            0, 0, 0, 0, 0, 0, 0, 0, 0, 0, 0, 4, 0, 0, 0, 0, 0, 0, 0, 2, 0, 0, 0, 0, 0, 0, 0, 40, 0,
            0, 0, 0, 0, 0, 0,
        ],
    ),
    (
        &[MINUS_5],
        &[0xfb, 0xff, 0xff, 0xff, 0xff, 0xff, 0xff, 0xff],
    ),
];

// Whether the bytes give back these words, of which there are few.
fn give_back(bytes: &[u8], words: &[u64]) -> bool {
    if bytes.len() != 8 * words.len() || words.len() > 100 {
        return false;
    }
    for i in 0..words.len() {
        if word_at(bytes, i as u32) != words[i] {
            return false;
        }
    }
    true
}

// Whether the words have these bytes, which give them back.
fn are_written(alloc: Global, (words, wanted): Written<'_>) -> bool {
    match words_to_bytes(alloc, words) {
        Ok(bytes) => bytes.as_slice() == wanted && give_back(wanted, words),
        Err(_) => false,
    }
}

fn expect_bytes(rt: &impl Abort, alloc: Global, rows: &[Written<'_>]) {
    for row in rows {
        assert!(rt; are_written(alloc, *row), "{:?}", row.0);
    }
}

#[test]
fn words_as_bytes(rt: HostRuntime) {
    expect_bytes(&rt, rt.alloc(), BYTES);
}

// The words of a column of 70 rows.
fn words_of_seventy(rt: &impl Abort, alloc: Global) -> Result<Vec<u64>, Fail> {
    let cut = cut_seventy(rt, alloc, Kind::Int, Layout::Column, 100)?;
    words_of(rt, alloc, &cut, 0)
}

// Whether there are 72 words, with the NULLs of the rows 0, 7, 14 to 63 in the last but one.
fn are_of_seventy(words: &[u64]) -> bool {
    words.len() == 72 && &words[69..] == [69, 0x8102040810204081, 0].as_slice()
}

#[test]
fn a_column_of_70_rows_has_two_null_words(rt: HostRuntime) -> Result<(), Fail> {
    let words = words_of_seventy(&rt, rt.alloc())?;
    assert!(rt; are_of_seventy(words.as_slice()));
    Ok(())
}

// A shape of three columns with so many rows.
fn shape_with(alloc: Global, layout: Layout, rows: u32, per: u32) -> Result<Shape, Fail> {
    Ok(Shape {
        layout,
        kinds: Vec::from_slice(alloc, &KINDS)?,
        dict_lens: Vec::from_slice(alloc, &[0, 3, 0])?,
        rows,
        per,
    })
}

// Layout, rows, rows in a chunk; groups, words of the first piece, of the last one and of a frame.
type Sized = (Layout, u32, u32, [u32; 4]);

const SIZES: &[Sized] = &[
    (Layout::Row, 5, 2, [1, 8, 4, 8]),
    (Layout::Column, 5, 2, [3, 3, 2, 3]),
    (Layout::Row, 5, 16384, [1, 20, 20, 20]),
    (Layout::Column, 64, 64, [3, 65, 65, 65]),
    (Layout::Column, 65, 65, [3, 67, 67, 67]),
    (Layout::Column, 2097152, 16384, [3, 16640, 16640, 16640]),
    (Layout::Row, 2097152, 16384, [1, 65536, 65536, 65536]),
];

fn sizes(rt: &impl Abort, shape: &Shape) -> [u32; 4] {
    assert!(rt; is_shape(shape));
    let chunks = chunks_of(shape);
    assert!(rt; chunks > 0);
    let last = piece_of(shape, chunks - 1, groups(shape) - 1);
    let first = piece_of(shape, 0, 0);
    [
        groups(shape),
        piece_words(shape, first),
        piece_words(shape, last),
        frame_words(shape),
    ]
}

fn expect_sizes(rt: &impl Abort, alloc: Global, rows: &[Sized]) -> Result<(), Fail> {
    for (layout, rows, per, wanted) in rows {
        let shape = shape_with(alloc, *layout, *rows, *per)?;
        assert!(rt; sizes(rt, &shape) == *wanted, "{rows} {per}");
    }
    Ok(())
}

// How many words a frame has.
fn words_of_frame(rt: &impl Abort, shape: &Shape) -> u32 {
    assert!(rt; is_shape(shape));
    frame_words(shape)
}

#[test]
fn pieces_and_their_words_are_counted(rt: HostRuntime) -> Result<(), Fail> {
    expect_sizes(&rt, rt.alloc(), SIZES)?;
    let empty = shape_with(rt.alloc(), Layout::Row, 0, 2)?;
    assert!(rt; words_of_frame(&rt, &empty) == 0);
    Ok(())
}
