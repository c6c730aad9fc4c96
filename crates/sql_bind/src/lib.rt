//! Binds a query to the columns of a table: its names become numbers, its literals bounds over cells. What the query
//! means over the values of rows, its plan means over their cells.
//!
//!     let text = b"SELECT dept, SUM(pay) FROM t WHERE pay >= 40 GROUP BY dept";
//!     let plan = match plan_of(alloc, text, table.schema(), &dicts) {
//!         Ok(plan) => plan,
//!         Err(StatementRefusal::Text(refusal)) => return no_query(refusal),
//!         Err(StatementRefusal::Query(refusal)) => return no_such_column(refusal),
//!     };
//!
//! `bind` does the same for a query that was read. `docs/SQL.md` says what binds to what.
#![tactic(auto)]

mod binding;
mod bounds;
mod conditions;
mod items;
mod judging;
mod names;
mod naming;
mod places;
mod plan;
mod plan_meaning;
mod refusal;
mod statement;

pub use binding::bind;
pub use plan::Plan;
pub use plan_meaning::{one_meaning, readable_answers};
pub use refusal::BindRefusal;
pub use statement::{StatementRefusal, one_cause, plan_of};
