//! What `coop_inspect` says to its words: it explains a batch of coop_cli, judges the output of a run, or draws it.
//! docs/INSPECT.md has the words.
//!
//!     let words = vec![in alloc; explain, table, batch]?;
//!     let (mut out, mut err) = (StdoutSink::new(rt), StderrSink::new(rt));
//!     let status = inspect(&rt, alloc, keys, &words, &mut DiskShelf::new(rt), &mut out, &mut err);
#![tactic(auto)]

mod calls;
mod drawing;
mod excerpts;
mod explaining;
mod file;
mod judging;
mod lines;
mod output;
mod ranks;
mod reasons;
mod refusals;
mod reply;
mod setting_faults;
mod settings;
mod showing;
mod statements;
mod stderr_sink;
mod story_judging;
mod story_verdicts;
mod unfits;
mod verdicts;

pub use calls::inspect;
pub use reply::{Reply, say};
pub use stderr_sink::StderrSink;
