// The columns of a table.
ghost use Rattle.std.specs.Prelude.{◌≡◌, List, length};
ghost use Rattle.table_core.specs.declared.schema.Column.{Column};

use crate::bytes::Bytes;
use std::marker::Model;

/// What the values of a column are.
#[derive(Clone, Copy, PartialEq, Eq)]
pub enum Kind {
    /// Whole numbers of 64 bits.
    Int,
    /// Texts of any encoding, ordered byte by byte.
    Text,
    /// Decimal numbers with so many digits after the point, 1 to 9.
    Dec { places: u32 },
}

/// A column: its name, which may be empty, and its kind.
#[derive(Drop)]
pub struct Column {
    pub name: Bytes,
    pub kind: Kind,
}

/// The columns of a table from left to right, seen as their list.
///
/// It is made from a vector without taking memory.
#[derive(Drop)]
pub struct Schema {
    pub columns: Vec<Column>,
}

impl Model for Schema {
    ghost Value = { List Column };

    ghost view = { λ s. s.columns.items };
}

impl Schema {
    /// The columns of a vector.
    pub fn new(columns: Vec<Column>) -> Self
        ensures { result ≡ columns.items }
    {
        Schema { columns }
    }

    /// The columns themselves.
    pub fn columns(&self) -> &[Column]
        ensures { result.now ≡ self.now }
    {
        self.columns.as_slice()
    }

    /// How many columns there are.
    pub fn len(&self) -> usize
        ensures { result ≡ length self.now }
    {
        self.columns.len()
    }
}
