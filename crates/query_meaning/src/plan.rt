// What a rows query asks for.
ghost use Rattle.std.specs.Prelude.{◌≡◌, IfOk};
ghost use Rattle.query_meaning.specs.Rows.{RowQuery};

use crate::order::Order;
use std::alloc::Global;
use std::marker::Model;
use table_core::Memory;

/// What a rows query asks for: seen as a record of lists. Columns are counted from 0.
#[derive(Drop)]
pub struct RowPlan {
    /// The columns whose values are answered, from left to right.
    pub columns: Vec<u32>,
    /// The orders, the first one deciding first.
    pub order: Vec<Order>,
    /// How many rows are answered at most.
    pub limit: u32,
}

impl Model for RowPlan {
    ghost Value = { RowQuery };

    ghost view = { λ p. record { columns = p.columns.items; order = p.order.items; limit = p.limit } };
}

impl RowPlan {
    /// The same plan again, since each part of a query has first rows of its own.
    pub fn copy(&self, alloc: Global) -> Result<Self, Memory>
        ensures { IfOk result (λ plan. plan ≡ self.now) }
    {
        Ok(RowPlan {
            columns: Vec::from_slice(alloc, &self.columns)?,
            order: Vec::from_slice(alloc, &self.order)?,
            limit: self.limit,
        })
    }
}
