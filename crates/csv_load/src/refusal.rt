// Why a list of records is no table.
ghost use Rattle.std.specs.Prelude.{◌≡◌};
ghost use Rattle.csv_load.specs.declared.refusal.LoadRefusal.TheVariants as refusal;

use std::alloc::AllocError;
use table_core::Memory;
use thiserror::Error;

/// Why a text is not loaded as a table. The causes but the last are judged in this order, and each names
/// the first place where it holds.
#[derive(Clone, Copy, Debug, PartialEq, Eq, Error)]
pub enum LoadRefusal {
    /// There is no record, so no header.
    #[error("no header")]
    NoHeader,
    /// The header has more than 16 fields.
    #[error("{columns} columns")]
    TooManyColumns {
        /// How many fields it has.
        columns: u32,
    },
    /// A field of the header has more than 128 bytes; the first one.
    #[error("name of column {column} too long")]
    LongName {
        /// Its place, from 0.
        column: u32,
    },
    /// Two fields of the header are equal; those of least second place, and then of least first place.
    #[error("columns {first} and {second} have one name")]
    TwiceNamed {
        /// The earlier place, from 0.
        first: u32,
        /// The later place, from 0.
        second: u32,
    },
    /// One of the first 2097152 (`MOST_ROWS`) data records has another number of fields than the header; the first one.
    #[error("row {row} has {fields} fields")]
    Ragged {
        /// Its number among the data records, from 1.
        row: u32,
        /// How many fields it has.
        fields: u32,
    },
    /// There are more than 2097152 data records, and the first 2097152 of them are as long as the header.
    #[error("too many rows")]
    TooManyRows,
    /// Out of memory. It may come in place of any other answer.
    #[error("memory")]
    Memory,
}

impl From<Memory> for LoadRefusal {
    ghost from_gives = { λ _ e. e ≡ refusal.Memory };

    fn from(_: Memory) -> Self {
        LoadRefusal::Memory
    }
}

impl From<AllocError> for LoadRefusal {
    ghost from_gives = { λ _ e. e ≡ refusal.Memory };

    fn from(_: AllocError) -> Self {
        LoadRefusal::Memory
    }
}
