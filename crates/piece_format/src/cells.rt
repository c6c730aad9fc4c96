// The words of one cell.
ghost use Rattle.std.specs.Prelude.{◌≡◌, ◌+◌, ◌<◌, ◌≤◌, ◌^◌, length, nat_le, slice_index_or, if◌then◌else◌};
ghost use Rattle.table_core.specs.Columns.{code_cell, column_cells};
ghost use Rattle.table_core.specs.declared.cell.Cell.TheVariants.{Null};
ghost use Rattle.piece_format.specs.Cells as spec;
ghost use Rattle.piece_format.specs.Encoding.{IsKept};
ghost use Rattle.std.specs.Int.{bit_at};
ghost use Rattle.std.specs.Prelude.{◌==◌};

use table_core::{Cell, Cells, Kind};

// Whether a cell of a column is NULL.
pub(crate) fn is_null_at(column: &Cells, row: usize) -> bool
    requires { row < length (column_cells column.now) }
    ensures { result ≡ spec.is_null (slice_index_or (column_cells column.now) row Null) }
{
    match column {
        Cells::Numbers(numbers) => numbers.is_none(row),
        Cells::Codes(codes) => codes.get(row).is_none(),
    }
}

// The value word of a code, if there is one.
fn code_word(code: Option<u32>) -> u64
    ensures { result ≡ spec.value_word (code_cell code) }
{
    match code {
        None => 0,
        Some(code) => u64::from(code),
    }
}

// The value word of a cell of a column, which gives the cell back.
pub(crate) fn value_word_at(column: &Cells, row: usize) -> u64
    requires { row < length (column_cells column.now) }
    ensures word { result ≡ spec.value_word (slice_index_or (column_cells column.now) row Null) }
    ensures kept { IsKept (slice_index_or (column_cells column.now) row Null) }
{
    match column {
        Cells::Numbers(numbers) => numbers.or_zero(row).cast_unsigned(),
        Cells::Codes(codes) => code_word(codes.get(row)),
    }
}

/// The cell of a null bit and a value word in a column of this kind.
///
/// It is NULL where the bit is set, a code in a column of texts, and a number in any other. A word of a column of texts
/// that is no code gives NULL, which never comes where `check` said Ok.
pub fn cell_of(kind: Kind, dict_len: u32, null: bool, word: u64) -> Cell
    ensures cell { result ≡ spec.cell_of kind dict_len null word }
    ensures fits { spec.FitsKind kind dict_len result }
{
    if null {
        return Cell::Null;
    }
    match kind {
        Kind::Int | Kind::Dec { places: _ } => Cell::Int(word.cast_signed()),
        Kind::Text => if word < u64::from(dict_len) {
            Cell::Code(word as u32)
        } else {
            Cell::Null
        },
    }
}

// A bit of a word.
pub(crate) fn bit(word: u64, place: u32) -> bool
    requires { place < 64 }
    ensures { result ≡ (bit_at word place == 1) }
{
    word >> place & 1 == 1
}

// Whether a bit from this one on is set.
pub(crate) fn has_bit_from(word: u64, count: u32) -> bool
    requires { count ≤ 64 }
    ensures { result ≡ nat_le (2 ^ count) word }
{
    count < 64 && word >> count != 0
}

// A word of fewer bits, with one bit more.
pub(crate) fn with_bit(word: u64, place: u32, set: bool) -> u64
    requires place { place < 64 }
    requires word { word < 2 ^ place }
    ensures word { result ≡ word + (if set then 2 ^ place else 0) }
    ensures small { result < 2 ^ (place + 1) }
{
    if set { word + (1 << place) } else { word }
}
