// The result rows of a query, and why there may be none.
ghost use Rattle.std.specs.Prelude.{◌≡◌, List};
ghost use Rattle.table_core.specs.declared.cell.Cell.{Cell};
ghost use Rattle.table_core.specs.Lists.{lists};

use std::marker::Model;
use table_core::{Cell, Memory};

/// The result rows of a query, seen as their list: those of a groups query in key order, those of a rows query in its
/// order.
#[derive(Drop)]
pub struct Rows {
    rows: Vec<Vec<Cell>>,
}

impl Model for Rows {
    ghost Value = { List (List Cell) };

    ghost view = { λ r. lists r.rows.items };
}

impl Rows {
    /// The rows of a vector.
    pub fn new(rows: Vec<Vec<Cell>>) -> Self
        ensures { result ≡ lists rows.items }
    {
        Rows { rows }
    }

    /// The rows themselves.
    pub fn as_slice(&self) -> &[Vec<Cell>]
        ensures { lists result.now ≡ self.now }
    {
        self.rows.as_slice()
    }
}

/// Why groups have no result rows.
#[derive(Clone, Copy, PartialEq, Eq)]
pub enum FinishFault {
    /// A sum is no whole number of 64 bits: the first in key order, then in item order. Items are counted from 1.
    SumOverflow { item: u32, total: i128 },
    /// Out of memory.
    Memory,
}

impl From<Memory> for FinishFault {
    ghost use Rattle.agg_groups.specs.declared.rows.FinishFault.{FinishFault};
    ghost use Rattle.agg_groups.specs.declared.rows.FinishFault.TheVariants as FinishFault;

    ghost from_gives = { λ _ fault. fault ≡ FinishFault.Memory };

    fn from(_: Memory) -> Self {
        FinishFault::Memory
    }
}
