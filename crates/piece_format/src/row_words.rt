// The words of a chunk in the row layout, filled a column at a time: a column's cells stand side by side in the table.
ghost use Rattle.std.specs.Prelude.{◌≡◌, ◌<◌, ◌+◌, ◌*◌, ◌^◌, ℕ, [], OnOk, if◌then◌else◌, length, set, slice_index};
ghost use Rattle.piece_format.specs.declared.layout.Layout.TheVariants as layouts;
ghost use Rattle.piece_format.specs.Shape.{IsPiece, words_in};
ghost use Rattle.piece_format.specs.Encoding.{AreFilled, AreFirst, HoldsRows, held_cell};

use crate::cells::{is_null_at, value_word_at, with_bit};
use crate::pieces::Piece;
use std::alloc::AllocError;
use table_core::{Memory, Table};

// Makes so many words, all 0, where there are none. The error means out of memory.
fn make_zeros(words: &mut Vec<u64>, count: usize) -> Result<(), AllocError>
    requires { words.old.items ≡ [] }
    ensures len { OnOk result (length words.new.items ≡ count) }
    ensures zeros { OnOk result ((i : ℕ) → slice_index words.new.items i ≡ 0) }
{
    words.resize(count, 0)
}

// Puts a cell of a row: its bit into the mask word, which stands at this place, and its value word.
fn put_cell(words: &mut [u64], mask: usize, column: u32, null: bool, value: u64)
    requires column { column < 64 }
    requires there { mask + 1 + column < length words.old }
    requires low { slice_index words.old mask < 2 ^ column }
    ensures { let word = slice_index words.old mask + (if null then 2 ^ column else 0) in
        words.new ≡ set (set words.old mask word) (mask + 1 + column) value }
{
    words[mask] = with_bit(words[mask], column, null);
    words[mask + 1 + column as usize] = value;
}

// Puts the cells of a column, where those of the columns before it are put.
fn put_column(words: &mut [u64], piece: Piece, table: &Table, from: u32, x: u32)
    requires piece { IsPiece piece }
    requires rows { HoldsRows piece table.now from }
    requires column { x < piece.columns }
    requires before { AreFilled piece (held_cell piece table.now from) (λ _. x) words.old }
    ensures { AreFilled piece (held_cell piece table.now from) (λ _. x + 1) words.new }
{
    let column = table.column(x as usize);
    for row in 0..piece.rows {
        let place = (from + row) as usize;
        let mask = (row * (piece.columns + 1)) as usize;
        let null = is_null_at(column, place);
        put_cell(words, mask, x, null, value_word_at(column, place));
    }
}

/// The words of a chunk in the row layout, where no words stand. After an `Err`, which is out of memory, any words
/// stand there.
pub(crate) fn fill_rows(
    words: &mut Vec<u64>,
    piece: Piece,
    table: &Table,
    from: u32,
) -> Result<(), Memory>
    requires piece { IsPiece piece }
    requires layout { piece.layout ≡ layouts.Row }
    requires rows { HoldsRows piece table.now from }
    requires empty { words.old.items ≡ [] }
    ensures { OnOk result (AreFirst piece (held_cell piece table.now from) (words_in piece) words.new.items) }
{
    make_zeros(words, piece.words() as usize)?;
    for x in 0..piece.columns {
        put_column(words.as_mut_slice(), piece, table, from, x);
    }
    Ok(())
}
