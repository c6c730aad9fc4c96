//! That coop_cli's loader takes what coop_prepare writes, as laws over the definitions of both: those of
//! `prepare_rules`, which say what is written, and those of `csv_load`, which say what a text is as a table.
//!
//! Each law is the contract of a function that does nothing:
//!
//!     what_is_written_loads();                          // from here on the prover has the law
#![tactic(auto)]

mod laws;

pub use laws::{
    the_loader_reads_the_records, what_is_written_loads, what_is_written_up_to_a_refusal_loads,
};
