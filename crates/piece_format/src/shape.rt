// The shape of a table's pieces.
ghost use Rattle.std.specs.Prelude.{◌≡◌, ◌<◌, ◌≤◌, ◌+◌, ◌*◌, ◌/◌, ◌%◌, ℕ, length, slice_index};
ghost use Rattle.table_core.specs.Chunk.{chunk_count, chunk_end};
ghost use Rattle.piece_format.specs.Shape as spec;
ghost use Rattle.piece_format.specs.Cells.{dict_len_at, kind_at};

use crate::layout::Layout;
use crate::pieces::Piece;
use std::marker::Model;
use table_core::{Kind, MOST_CHUNK_ROWS, MOST_COLUMNS};

/// How a table is cut into chunks and these into pieces.
///
/// Each call with a shape wants 1 to `MOST_COLUMNS` kinds, as many lengths of dictionaries, 1 to `MOST_CHUNK_ROWS` rows
/// in a chunk, at most `MOST_ROWS` rows and at most `MOST_CHUNKS` chunks.
#[derive(Drop)]
pub struct Shape {
    pub layout: Layout,
    /// The kind of each column.
    pub kinds: Vec<Kind>,
    /// How many texts the dictionary of each column has; 0 in columns of numbers.
    pub dict_lens: Vec<u32>,
    /// How many rows the table has.
    pub rows: u32,
    /// How many rows each chunk but the last has.
    pub per: u32,
}

impl Model for Shape {
    ghost Value = { spec.TableShape };

    ghost view = { λ s. record {
      layout = s.layout;
      kinds = s.kinds.items;
      dict_lens = s.dict_lens.items;
      rows = s.rows;
      per = s.per;
    } };
}

impl Shape {
    // How many columns the table has.
    pub(crate) fn columns(&self) -> u32
        requires { spec.IsShape self.now }
        ensures { result ≡ length self.now.kinds }
    {
        self.kinds.len() as u32
    }

    // The kind of a column.
    pub(crate) fn kind(&self, column: u32) -> Kind
        requires { column < length self.now.kinds }
        ensures { result ≡ kind_at self.now column }
    {
        self.kinds[column as usize]
    }

    // How many texts the dictionary of a column has.
    pub(crate) fn dict_len(&self, column: u32) -> u32
        requires { column < length self.now.dict_lens }
        ensures { result ≡ dict_len_at self.now column }
    {
        self.dict_lens[column as usize]
    }
}

/// How many pieces a chunk of so many columns has: 1 in the row layout, one for each column in the column layout.
pub fn groups_in(layout: Layout, columns: u32) -> u32
    ensures { result ≡ spec.groups_in layout columns }
{
    match layout {
        Layout::Row => 1,
        Layout::Column => columns,
    }
}

/// How many words a piece has, in a table of so many columns and a chunk of so many rows.
pub fn word_count(layout: Layout, columns: u32, rows: u32) -> u32
    requires columns { columns ≤ MOST_COLUMNS }
    requires rows { rows ≤ MOST_CHUNK_ROWS }
    ensures { result ≡ spec.word_count layout columns rows }
{
    match layout {
        Layout::Row => rows * (columns + 1),
        Layout::Column => rows + (rows + 63) / 64,
    }
}

/// How many pieces a chunk has: 1 in the row layout, the number of columns in the column layout.
pub fn groups(shape: &Shape) -> u32
    requires { spec.IsShape shape.now }
    ensures groups { result ≡ spec.groups shape.now }
    ensures some { 1 ≤ result }
    ensures few { result ≤ MOST_COLUMNS }
{
    groups_in(shape.layout, shape.columns())
}

/// The piece of a chunk and a group: of its one piece in the row layout, of a column in the column layout.
pub fn piece_of(shape: &Shape, chunk: u32, group: u32) -> u32
    requires shape { spec.IsShape shape.now }
    requires chunk { chunk < spec.chunks shape.now }
    requires group { group < spec.groups shape.now }
    ensures piece { result ≡ chunk * spec.groups shape.now + group }
    ensures there { result < spec.pieces shape.now }
    ensures chunk { spec.chunk_of shape.now result ≡ chunk }
    ensures group { result % spec.groups shape.now ≡ group }
{
    chunk * groups(shape) + group
}

/// How many words a piece has.
pub fn piece_words(shape: &Shape, piece: u32) -> u32
    requires shape { spec.IsShape shape.now }
    requires there { piece < spec.pieces shape.now }
    ensures { result ≡ spec.words_in (spec.piece_at shape.now piece) }
{
    Piece::of(shape, piece).words()
}

/// How many words the greatest piece has; 0 where the table has no rows.
pub fn frame_words(shape: &Shape) -> u32
    requires { spec.IsShape shape.now }
    ensures words { result ≡ spec.frame_words shape.now }
    ensures greatest { (p : ℕ) → p < spec.pieces shape.now → spec.words_in (spec.piece_at shape.now p) ≤ result }
{
    word_count(shape.layout, shape.columns(), shape.per.min(shape.rows))
}
