// The first word of a piece that breaks the rules.
ghost use Rattle.std.specs.Prelude.{◌≡◌, ◌<◌, ◌≤◌, ◌+◌, ◌*◌, ℕ, List, min, IfErr};
ghost use Rattle.std.specs.Prelude.{IfNone, IfSome, IsOk, OnOk, length, slice_index};
ghost use Rattle.table_core.specs.declared.cell.Cell.{Cell};
ghost use Rattle.piece_format.specs.declared.layout.Layout.TheVariants as layouts;
ghost use Rattle.piece_format.specs.Bytes.{bytes_of, word_of};
ghost use Rattle.piece_format.specs.Shape.{IsPieceOf, IsShape, piece_at, pieces, words_in};
ghost use Rattle.piece_format.specs.Cells.{AreRowsOf, dict_len_at, kind_at};
ghost use Rattle.piece_format.specs.Words.{piece_words};
ghost use Rattle.piece_format.specs.Checking.{AreTops, HasNoCodes, IsTop};
ghost use Rattle.piece_format.specs.Broken as spec;

use crate::cells::{bit, has_bit_from};
use crate::layout::Layout;
use crate::pieces::{Piece, Stands};
use crate::shape::Shape;
use crate::sound::{rows_are_sound, runs_are_sound};
use crate::word_bytes::word_at;
use table_core::Kind;

/// A piece is damaged: its first word that breaks the rules.
#[derive(Clone, Copy, PartialEq, Eq)]
pub struct Damage {
    /// The place of the word in the piece.
    pub word: u32,
}

fn is_text(kind: Kind) -> bool
    ensures { result ≡ spec.is_text kind }
{
    matches!(kind, Kind::Text)
}

// Whether a value word breaks the rules.
fn is_broken_value(kind: Kind, dict_len: u32, null: bool, word: u64) -> bool
    ensures { result ≡ spec.is_broken_value kind dict_len null word }
{
    if null {
        return word != 0;
    }
    is_text(kind) && u64::from(dict_len) <= word
}

// Whether the word at a place breaks the rules.
fn is_broken(shape: &Shape, piece: Piece, bytes: &[u8], place: u32) -> bool
    requires shape { IsShape shape.now }
    requires piece { IsPieceOf shape.now piece }
    requires bytes { length bytes.now ≡ 8 * words_in piece }
    requires place { place < words_in piece }
    ensures { result ≡ spec.is_broken shape.now piece (word_of bytes.now) place }
{
    let word = word_at(bytes, place);
    match piece.stands(place) {
        Stands::Nulls { count } => has_bit_from(word, count),
        Stands::Value { row, column } => {
            let nulls = word_at(bytes, piece.null_place(row));
            let null = bit(nulls, piece.null_bit(row, column));
            is_broken_value(shape.kind(column), shape.dict_len(column), null, word)
        }
    }
}

// Judges the words from one place up to another, word by word.
fn check_words(shape: &Shape, piece: Piece, bytes: &[u8], from: u32, to: u32) -> Result<(), Damage>
    requires shape { IsShape shape.now }
    requires piece { IsPieceOf shape.now piece }
    requires bytes { length bytes.now ≡ 8 * words_in piece }
    requires rises { from ≤ to }
    requires within { to ≤ words_in piece }
    requires before { spec.NoneBroken shape.now piece (word_of bytes.now) from }
    ensures ok { OnOk result (spec.NoneBroken shape.now piece (word_of bytes.now) to) }
    ensures err { IfErr result (λ d. spec.IsLeastBroken shape.now piece (word_of bytes.now) d.word) }
{
    for place in from..to {
        if is_broken(shape, piece, bytes, place) {
            return Err(Damage { word: place });
        }
    }
    Ok(())
}

// The greatest value word of a column that breaks no rule where its null bit is clear; None where each one does.
fn top_of(shape: &Shape, column: u32) -> Option<u64>
    requires shape { IsShape shape.now }
    requires column { column < length shape.now.kinds }
    ensures top { IfSome result (λ top. IsTop (kind_at shape.now column) (dict_len_at shape.now column) top) }
    ensures none { IfNone result (HasNoCodes shape.now column) }
{
    if !is_text(shape.kind(column)) {
        return Some(u64::MAX);
    }
    let dict_len = shape.dict_len(column);
    if dict_len == 0 {
        return None;
    }
    Some(u64::from(dict_len) - 1)
}

// The greatest value word of each column; None where in some column there is none.
fn row_tops(shape: &Shape) -> Option<[u64; 16]>
    requires { IsShape shape.now }
    ensures { IfSome result (λ tops. AreTops shape.now tops) }
{
    let mut tops = [u64::MAX; 16];
    for column in 0..shape.columns() {
        match top_of(shape, column) {
            None => return None,
            Some(top) => tops[column as usize] = top,
        }
    }
    Some(tops)
}

// How many of the first words of a piece in the row layout are surely sound: 0 where a quick look doesn't tell.
fn sound_rows(shape: &Shape, piece: Piece, bytes: &[u8]) -> u32
    requires shape { IsShape shape.now }
    requires piece { IsPieceOf shape.now piece }
    requires layout { piece.layout ≡ layouts.Row }
    requires bytes { length bytes.now ≡ 8 * words_in piece }
    ensures inside { result ≤ words_in piece }
    ensures sound { spec.NoneBroken shape.now piece (word_of bytes.now) result }
{
    if piece.rows < 4 {
        return 0;
    }
    let rows = piece.rows - 3;
    match row_tops(shape) {
        Some(tops) if rows_are_sound(piece.columns, bytes, &tops, rows) => {
            rows * (piece.columns + 1)
        }
        _ => 0,
    }
}

// How many of the value words of a column are surely sound: 0 where a quick look doesn't tell.
fn sound_values(shape: &Shape, piece: Piece, bytes: &[u8]) -> u32
    requires shape { IsShape shape.now }
    requires piece { IsPieceOf shape.now piece }
    requires layout { piece.layout ≡ layouts.Column }
    requires bytes { length bytes.now ≡ 8 * words_in piece }
    ensures inside { result ≤ piece.rows }
    ensures sound { spec.NoneBroken shape.now piece (word_of bytes.now) result }
{
    match top_of(shape, piece.group) {
        Some(top) if runs_are_sound(piece.rows, bytes, top) => piece.rows / 8 * 8,
        _ => 0,
    }
}

// Judges a piece in the row layout.
fn check_rows(shape: &Shape, piece: Piece, bytes: &[u8]) -> Result<(), Damage>
    requires shape { IsShape shape.now }
    requires piece { IsPieceOf shape.now piece }
    requires layout { piece.layout ≡ layouts.Row }
    requires bytes { length bytes.now ≡ 8 * words_in piece }
    ensures ok { OnOk result (spec.NoneBroken shape.now piece (word_of bytes.now) (words_in piece)) }
    ensures err { IfErr result (λ d. spec.IsLeastBroken shape.now piece (word_of bytes.now) d.word) }
{
    let from = sound_rows(shape, piece, bytes);
    check_words(shape, piece, bytes, from, piece.words())
}

// Judges a piece in the column layout: the value words, and then the null words. Each bit of a null word names a row,
// but for those of the last word where it stands for fewer than 64.
fn check_column(shape: &Shape, piece: Piece, bytes: &[u8]) -> Result<(), Damage>
    requires shape { IsShape shape.now }
    requires piece { IsPieceOf shape.now piece }
    requires layout { piece.layout ≡ layouts.Column }
    requires bytes { length bytes.now ≡ 8 * words_in piece }
    ensures ok { OnOk result (spec.NoneBroken shape.now piece (word_of bytes.now) (words_in piece)) }
    ensures err { IfErr result (λ d. spec.IsLeastBroken shape.now piece (word_of bytes.now) d.word) }
{
    let from = sound_values(shape, piece, bytes);
    check_words(shape, piece, bytes, from, piece.rows)?;
    let whole_nulls = piece.rows / 64;
    check_words(shape, piece, bytes, piece.rows + whole_nulls, piece.words())
}

// Judges a piece.
fn check_piece(shape: &Shape, piece: Piece, bytes: &[u8]) -> Result<(), Damage>
    requires shape { IsShape shape.now }
    requires piece { IsPieceOf shape.now piece }
    requires layout { piece.layout ≡ shape.now.layout }
    requires bytes { length bytes.now ≡ 8 * words_in piece }
    ensures ok { OnOk result (spec.NoneBroken shape.now piece (word_of bytes.now) (words_in piece)) }
    ensures err { IfErr result (λ d. spec.IsLeastBroken shape.now piece (word_of bytes.now) d.word) }
{
    match piece.layout {
        Layout::Row => check_rows(shape, piece, bytes),
        Layout::Column => check_column(shape, piece, bytes),
    }
}

/// Whether no word of a piece breaks the rules; else the first one that does.
///
/// There are 8 bytes for each of the piece's words. A word breaks the rules where it is a mask or null word with a bit
/// set that names no column or row, a value word other than 0 under a set bit, or in a column of texts a value word
/// under a clear bit that is at least the length of the dictionary. After Ok each cell that is read is NULL exactly
/// where its bit is set. The words that `encode` gives are Ok, whatever the numbers in the cells are, so a reader
/// needs no bound on them. It takes no memory.
pub fn check(shape: &Shape, piece: u32, bytes: &[u8]) -> Result<(), Damage>
    requires shape { IsShape shape.now }
    requires there { piece < pieces shape.now }
    requires bytes { length bytes.now ≡ 8 * words_in (piece_at shape.now piece) }
    ensures ok { let q = piece_at shape.now piece in OnOk result
        (spec.NoneBroken shape.now q (word_of bytes.now) (words_in q)) }
    ensures err { IfErr result (λ d. spec.IsLeastBroken shape.now (piece_at shape.now piece) (word_of bytes.now)
        d.word) }
    ensures cells { OnOk result (spec.AreSoundCells shape.now (piece_at shape.now piece) (word_of bytes.now)) }
    ensures encoded { (rows : List (List Cell)) → AreRowsOf shape.now rows → bytes.now
        ≡ bytes_of (piece_words shape.now rows piece) → IsOk result }
{
    check_piece(shape, Piece::of(shape, piece), bytes)
}
