//! What a run is given: from the words of the command line and a shelf to a loaded table and a batch of statements,
//! each with its plan or its refusal; or why the run stops. The texts of `gen:SEED:ROWS` and `gen` are made here.
//! docs/COMMAND_LINE.md is the manual.
//!
//!     let request = request_in(alloc, Call::Run, &words)?;
//!     let inputs = inputs_of(&rt, alloc, keys, &request, &mut shelf)?; // or the first stop of the work
//!     let rows = inputs.loaded.table.len();
//!     let first = &inputs.outcomes[0];                  // its plan, or why it is refused
//!     let table = table_text(alloc, 7, 200000)?;        // gen:7:200000
//!     let batch = batch_text();                         // gen
#![tactic(auto)]

mod batch;
mod depot;
mod draws;
mod frames;
mod generated_batch;
mod generated_table;
mod inputs;
mod limits;
mod reading_inputs;
mod request;
mod table;
mod unread;

pub use depot::depot_of;
pub use generated_batch::batch_text;
pub use generated_table::table_text;
pub use inputs::{Inputs, ReadTexts};
pub use limits::{MOST_BATCH_BYTES, MOST_POOL_WORDS, MOST_SCANS, MOST_STATEMENTS};
pub use reading_inputs::{inputs_again, inputs_of, one_batch, read_inputs};
pub use request::request_in;
pub use run_stops::Outcome;
pub use unread::stop_of;
