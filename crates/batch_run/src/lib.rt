//! A batch of queries over one table: the table is put into a depot piece by piece, workers run the scans of the
//! queries at once over shared frames, each scan gathers the rows of the chunks that it takes as they come, and what
//! the parts of a query gathered is joined to its answer.
//!
//!     let tasks = [Task { query: 1, plan: &plan }];
//!     let options = Options { workers: 4, frames: 13, per: 1024, layout: Layout::Row, parts: 1 };
//!     match run_batch(&rt, alloc, loaded, &tasks, &options, MemDepot::new(alloc), Relevance, &NoGate, 4) {
//!         Ok(BatchEnd { answers, ran, .. }) => show(answers, ran.taken, ran.story),
//!         Err((depot, refusal)) => refuse(depot, refusal),
//!     }
//!
//! docs/BATCH.md has the rules, and docs/PARTS.md those of a part.
#![tactic(auto)]

mod batch;
mod crew;
mod part;
mod picking;
mod rows;
mod running;
mod scanning;
mod seating;
mod shop;
mod worker;

pub use batch::run_batch;
pub use batch_ends::{BatchEnd, Ran, Taken, lost_without_faults, plans_fit};
pub use batch_plan::{Options, Task};
pub use query_gather::{Answer, Cause};
pub use table_pieces::BatchRefusal;
