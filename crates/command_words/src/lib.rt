//! The words of the command line: what they ask for, or that they are refused.
//!
//! `clap` reads the words; numbers, names and what goes together are judged here. docs/COMMAND_LINE.md is the manual.
//!
//!     let words = ["--threads", "8", "orders.csv", "report.sql"];
//!     let request = options_of(alloc, Call::Run, &words)?;    // or Refused::Usage
//!     let table = request.table;                        // a file's name, or a generated table's seed and rows
//!     let scratch = scratch_of(alloc, &words)?;         // None
#![tactic(auto)]

mod call;
mod command;
mod limits;
mod names;
mod numbers;
mod options;
mod program_words;
mod request;
mod values;

pub use call::{Call, Refused};
pub use limits::{
    MOST_FRAMES, MOST_GENERATED_ROWS, MOST_PARTS, MOST_WORKERS, USUAL_CHUNK_ROWS, USUAL_WORKERS,
};
pub use names::{Batch, Table};
pub use options::{options_of, scratch_of};
pub use piece_format::Layout;
pub use program_words::{all_words, behind_name};
pub use request::Request;
pub use scan_story::{Memory, PolicyName};
