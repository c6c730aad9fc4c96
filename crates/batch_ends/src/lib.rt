//! What a batch has before its scans and after them: its shape, their needs and a job for each; and the answers to its
//! queries by what came of their scans, what its workers left, and what holds of them. It knows the story of the scans,
//! and nothing of those who made it: `batch_run` runs a batch.
//!
//!     let setup = set_up(alloc, &table, &dicts, tasks, &options)?;    // the shape, the needs, room for what comes
//!     let jobs = jobs_of(alloc, &setup.needs, tasks, workers, parts)?;    // a job for each scan
//!     let results = in_order(&jobs, lists, results);    // each worker's list taken apart again
//!     answer_all(alloc, tasks.len(), options.parts, results, &mut answers);
//!     note_all(&mut taken, options.parts, &story);
//!     let end = BatchEnd { answers, ran: Ran { story, taken }, depot, schema, dicts };
//!
//! docs/BATCH.md has the rules, and docs/PARTS.md those of a part.
#![tactic(auto)]

mod answering;
mod batch_end;
mod job;
mod lost_queries;
mod ordering;
mod ran;
mod setup;
mod taken;
mod takings;

pub use answering::answer_all;
pub use batch_end::BatchEnd;
pub use job::{Job, jobs_of};
pub use lost_queries::{lost_without_faults, plans_fit};
pub use ordering::in_order;
pub use ran::Ran;
pub use setup::{Setup, set_up};
pub use taken::Taken;
pub use takings::{note_all, takings_of};
