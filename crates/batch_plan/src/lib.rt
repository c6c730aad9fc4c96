//! The plan of a batch: its scans, which chunks each part of a query takes, what each scan needs, and on which worker
//! it runs.
//!
//!     let tasks = [Task { query: 1, plan: &plan }];
//!     let options = Options { workers: 2, frames: 7, per: 1024, layout: Layout::Row, parts: 2 };
//!     let needs = needs_of(alloc, &shape, &zones, &tasks, &options)?;    // of two scans, on workers 0 and 1
//!     let second = scan_number(options.parts, 1, 1);                     // 2
//!     let chunks = deal(&needed, options.parts, 1);                      // those of the second part
//!
//! `docs/PARTS.md` has the rules.
#![tactic(auto)]

mod dealing;
mod dealt_chunks;
mod needs;
mod options;
mod task;

pub use dealing::deal;
pub use dealt_chunks::{all_are_dealt, needs_add_up};
pub use needs::{needs_of, scan_number};
pub use options::Options;
pub use task::Task;
