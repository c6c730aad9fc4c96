//! What a query asks for, and what it means over rows: the items of a groups query, the columns, orders and limit of a
//! rows query, and the answer to each over all rows at once. It knows nothing of the way an answer is gathered.
//!
//!     let items = [Item::Key(0), Item::Sum(1)];
//!     let plan = RowPlan { columns, order: orders, limit: 10 };    // Order { column: 1, descending: true }
//!
//! docs/SQL.md and docs/ANSWERS.md have the rules.
#![tactic(auto)]

mod item;
mod order;
mod plan;

pub use item::Item;
pub use order::Order;
pub use plan::RowPlan;
