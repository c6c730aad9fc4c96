//! Answers a batch of statements over a table, for a program that brings its own shelf, depot, policy, gate and sink.
//!
//!     let mut shelf = DiskShelf::new(rt);
//!     let depot = MemDepot::new(alloc);
//!     let mut out = StdoutSink::new(rt);
//!     let keys = RandomState::new(&rt)?;
//!     let ended = run(&rt, alloc, keys, &words, &mut shelf, depot, Relevance, &NoGate, &mut out);
//!     Ok(ExitCode::from(ended.status))
//!
//! `run` takes the words of the command line and carries the theorem, whose clauses are in `run_ends`; `run_settings`
//! takes `Settings` in their place; `run_boxed` takes a list of policies in boxes, of which the words name one, or
//! compares all. `decide` and `answer` go as far as the texts and the answers. docs/COMMAND_LINE.md is the manual, and
//! docs/POLICIES.md tells the rules of a comparison.
#![tactic(auto)]

mod answering;
mod boxed;
mod comparing;
mod deciding;
mod next;
mod one_policy;
mod settle;
mod single;
mod taken_policy;

pub use answering::answer;
pub use boxed::run_boxed;
pub use deciding::decide;
pub use one_policy::{run, run_settings};
pub use piece_format::Layout;
pub use run_ends::{BoxedEnd, Ended, PolicyRun, Settings, stops_are_stopped_queries};
