// Columns of rows, read from frames that a berth pins.
ghost use Rattle.std.specs.Prelude.{◌≡◌, ◌==◌, ◌<◌, ◌≤◌, ◌+◌, ◌^◌, ℕ, if◌then◌else◌, length, nat_le, slice_index};
ghost use Rattle.std.specs.Int.{bit_at};
ghost use Rattle.table_core.specs.declared.cell.Cell.TheVariants.{Null};
ghost use Rattle.row_blocks.specs.Lanes.{held};
ghost use Rattle.frame_pool.specs.Steps.{IsWordOf};
ghost use Rattle.piece_format.specs.Cells.{cell_of};
ghost use Rattle.piece_format.specs.Reading.{HasColumn, null_place};
ghost use Rattle.piece_format.specs.Shape.{IsShape, chunk_of};
ghost use Rattle.piece_format.specs.Words.{bits};
ghost use Rattle.piece_format.specs.declared.layout.Layout.TheVariants as layouts;
ghost use Rattle.frame_rows.specs.Blocks.{HasNullBits, IsLaneOf, IsSpan, lane_of, row_step};
ghost use Rattle.frame_rows.specs.Framed.{IsFramed};

use crate::cells::{dict_len, is_set, kind};
use crate::framed::Framed;
use crate::span::Span;
use frame_pool::{Berth, Content, Pool};
use piece_format::{Layout, Piece, Shape};
use row_blocks::{Holds, Lane};
use table_core::Kind;

// The word moved up by one, with a bit below. It costs one step, where a bit put in at a place costs three.
fn pushed(word: u64, set: bool) -> u64
    requires { word < 2 ^ 63 }
    ensures { result ≡ word + word + (if set then 1 else 0) }
{
    word * 2 + u64::from(set)
}

/// The bits that a column has in the mask words of some rows, one for each row.
pub(crate) fn column_bits(masks: &[u64], column: u32) -> u64
    requires few { length masks.now ≤ 64 }
    requires column { column < 64 }
    ensures { result ≡ bits (λ i. bit_at (slice_index masks.now i) column == 1) (length masks.now) }
{
    let mut word = 0;
    let mut i = masks.len();
    while i > 0 {
        i -= 1;
        word = pushed(word, is_set(masks[i], column));
    }
    word
}

// The bits of the words that are no codes of a dictionary of this length.
fn no_codes(words: &[u64], dict_len: u32) -> u64
    requires { length words.now ≤ 64 }
    ensures { result ≡ bits (λ i. nat_le dict_len (slice_index words.now i)) (length words.now) }
{
    let mut word = 0;
    let mut i = words.len();
    while i > 0 {
        i -= 1;
        word = pushed(word, words[i] >= u64::from(dict_len));
    }
    word
}

// What the words of a column of a kind hold, and its null bits: a word of a column of texts that is no code is NULL.
fn held_by(kind: Kind, dict_len: u32, nulls: u64, words: &[u64]) -> (Holds, u64)
    requires { length words.now ≤ 64 }
    ensures { (i : ℕ) → i < length words.now
        → (if bit_at result.1 i == 1 then Null else held result.0 (slice_index words.now i))
        ≡ cell_of kind dict_len (bit_at nulls i == 1) (slice_index words.now i) }
{
    match kind {
        Kind::Int | Kind::Dec { places: _ } => (Holds::Numbers, nulls),
        Kind::Text => (Holds::Codes, nulls | no_codes(words, dict_len)),
    }
}

// How far apart the value words of a column stand in two rows that follow one another.
fn row_step(piece: Piece) -> u32
    requires { piece.columns < 64 }
    ensures { result ≡ row_step piece }
{
    match piece.layout {
        Layout::Row => piece.columns + 1,
        Layout::Column => 1,
    }
}

/// Reads the words that have the null bits of some rows of a framed piece in the row layout, one for each row.
pub(crate) fn read_masks<C: Content>(
    pool: &Pool<C>,
    shape: &Shape,
    berth: &mut Berth<C>,
    framed: Framed,
    span: Span,
    masks: &mut [u64],
)
    requires shape { IsShape shape.now }
    requires layout { shape.now.layout ≡ layouts.Row }
    requires framed { IsFramed shape.now pool.now berth.old framed }
    requires span { IsSpan framed.piece.rows span }
    requires count { length masks.old ≡ span.count }
    ensures same { berth.new ≡ berth.old }
    ensures count { length masks.new ≡ length masks.old }
    ensures masks { (i : ℕ) → i < span.count → IsWordOf C.pieces berth.old.pins framed.frame
        (null_place framed.piece (span.first + i)) (slice_index masks.new i) }
{
    let first = framed.piece.null_place(span.first);
    pool.words(berth, framed.frame, first, row_step(framed.piece), masks);
}

// Reads the words of a column of some rows of a framed piece, and says what they hold and which of them are NULL.
fn read_column<C: Content>(
    pool: &Pool<C>,
    shape: &Shape,
    berth: &mut Berth<C>,
    framed: Framed,
    span: Span,
    column: u32,
    nulls: u64,
    words: &mut [u64],
) -> (Holds, u64)
    requires shape { IsShape shape.now }
    requires framed { IsFramed shape.now pool.now berth.old framed }
    requires span { IsSpan framed.piece.rows span }
    requires column { HasColumn framed.piece column }
    requires nulls { HasNullBits C.pieces berth.old.pins framed.frame framed.piece span column nulls }
    requires count { length words.old ≡ span.count }
    ensures same { berth.new ≡ berth.old }
    ensures count { length words.new ≡ length words.old }
    ensures lane { IsLaneOf C.pieces shape.now (chunk_of shape.now framed.number) span column
        (lane_of result.0 result.1 words.new) }
{
    let first = framed.piece.value_place(span.first, column);
    pool.words(berth, framed.frame, first, row_step(framed.piece), words);
    held_by(kind(shape, column), dict_len(shape, column), nulls, words)
}

/// Reads a column of some rows of a framed piece into a lane, by the word that has their null bits.
pub(crate) fn read_lane<C: Content>(
    pool: &Pool<C>,
    shape: &Shape,
    berth: &mut Berth<C>,
    framed: Framed,
    span: Span,
    column: u32,
    nulls: u64,
    lane: &mut Lane,
)
    requires shape { IsShape shape.now }
    requires framed { IsFramed shape.now pool.now berth.old framed }
    requires span { IsSpan framed.piece.rows span }
    requires column { HasColumn framed.piece column }
    requires nulls { HasNullBits C.pieces berth.old.pins framed.frame framed.piece span column nulls }
    ensures same { berth.new ≡ berth.old }
    ensures lane { IsLaneOf C.pieces shape.now (chunk_of shape.now framed.number) span column lane.new }
{
    let words = &mut lane.words[..span.count as usize];
    let (holds, nulls) = read_column(pool, shape, berth, framed, span, column, nulls, words);
    lane.holds = holds;
    lane.nulls = nulls;
}
