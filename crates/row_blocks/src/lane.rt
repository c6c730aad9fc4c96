// A column of a block.
ghost use Rattle.std.specs.Prelude.{◌≡◌, ◌<◌, ◌==◌};
ghost use Rattle.std.specs.Int.{bit_at};
ghost use Rattle.row_blocks.specs.Lanes as spec;

use table_core::Cell;

/// What the words of a lane hold.
#[derive(Clone, Copy, PartialEq, Eq)]
pub enum Holds {
    /// Numbers of 64 bits in two's complement.
    Numbers,
    /// Codes of texts, below 2 to the power of 32.
    Codes,
}

/// A column of a block: for each of up to 64 rows a word and a null bit. What stands for rows that the block doesn't
/// have says nothing.
#[derive(Clone, Copy)]
pub struct Lane {
    /// What the words hold.
    pub holds: Holds,
    /// Bit `i` is set where row `i` is NULL; its word says nothing then.
    pub nulls: u64,
    /// The word of each row.
    pub words: [u64; 64],
}

// The value that a word holds.
fn held(holds: Holds, word: u64) -> Cell
    ensures { result ≡ spec.held holds word }
{
    match holds {
        Holds::Numbers => Cell::Int(word.cast_signed()),
        Holds::Codes => Cell::Code((word % 4294967296) as u32),
    }
}

impl Lane {
    /// A lane in which no row is NULL and each word is 0.
    pub fn empty(holds: Holds) -> Lane
        ensures holds { result.holds ≡ holds }
        ensures nulls { result.nulls ≡ 0 }
    {
        Lane {
            holds,
            nulls: 0,
            words: [0; 64],
        }
    }

    /// Whether a row is NULL.
    pub fn is_null(&self, row: u32) -> bool
        requires { row < 64 }
        ensures { result ≡ spec.is_null_at self.now row }
    {
        self.nulls >> row & 1 == 1
    }

    /// The cell of a row.
    pub fn cell(&self, row: u32) -> Cell
        requires { row < 64 }
        ensures { result ≡ spec.lane_cell self.now row }
    {
        if self.is_null(row) {
            return Cell::Null;
        }
        held(self.holds, self.words[row as usize])
    }
}
