//! Groups of rows with the running values of their items: what an aggregate query answers, in whatever order its rows
//! come.
//!
//!     let mut groups = Groups::new(alloc, items, keys)?;    // Item::Sum(1), Item::Key(0); keys [0]
//!     groups.add_row(row)?;                             // in any order of the rows
//!     groups.merge(other)?;                             // what others gathered
//!     let rows = groups.finish()?;                      // by rising keys; or the first sum that overflows
#![tactic(auto)]

mod chosen;
mod finding;
mod groups;
mod lanes;
mod met;
mod place;
mod rows;
mod running;
mod steps;
mod table;
mod text;

pub use groups::Groups;
pub use query_meaning::Item;
pub use rows::{FinishFault, Rows};
pub use text::rows_text;
