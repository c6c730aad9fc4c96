//! The first rows in an order that a query asks for, in whatever order rows come.
//!
//!     let order = Order { column: 1, descending: true };
//!     let mut top = TopRows::new(alloc, RowPlan { columns, order: orders, limit: 10 })?;
//!     top.add(number, row)?;                            // in any order of the rows
//!     top.merge(other)?;                                // what others kept
//!     let rows = top.finish()?;                         // equal ones by their numbers
#![tactic(auto)]

mod row_order;
mod standing;
mod text;
mod top;

pub use agg_groups::Rows as Picked;
pub use query_meaning::{Order, RowPlan};
pub use row_order::one_order;
pub use text::picked_text;
pub use top::TopRows;
