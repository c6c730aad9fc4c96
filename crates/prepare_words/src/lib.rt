//! The words of `coop_prepare`: what is to be made of which export, or why the words are refused.
//!
//! `clap` reads the words by a command with subcommands, and says help, the version and what is wrong with them; what
//! stands in the values of options is judged here, each by a rule of its own. docs/EXPORT.md is the manual.
//!
//!     let words = ["write", "--delimiter", ";", "--numbers", "pay", "--decimal-comma", "export.csv"];
//!     let Asked::Write(writing) = asked_of(alloc, &words)?;    // or a Refused
//!     let made = prepare(alloc, &writing.rules(), input, output)?;
//!     let status = refused.status();                    // 0 for help and the version, 2 for faulty words
#![tactic(auto)]

mod asked;
mod asked_words;
mod bytes;
mod columns;
mod command;
mod delimiter;
mod encodings;
mod fault;
mod found;
mod numbers;
mod orders;
mod places;
mod refused;
mod renames;
mod writing;
mod writing_words;

pub use asked::Asked;
pub use asked_words::asked_of;
pub use delimiter::Delimiter;
pub use fault::{Fault, Word};
pub use refused::Refused;
pub use writing::Writing;
