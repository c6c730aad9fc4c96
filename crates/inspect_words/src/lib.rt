//! The words of `coop_inspect`: which of its subcommands they name, and what that is to work on; or why they are
//! refused.
//!
//! `clap` reads the words by a command with subcommands, and says help, the version and what is wrong with them. The
//! words of a run mean what they mean to `coop_cli`, since `command_words` reads them. docs/INSPECT.md is the manual.
//!
//!     let words = ["judge", "--threads", "8", "orders.csv", "report.sql", "answers.txt"];
//!     let asked = asked_of(alloc, &words)?;             // Asked::Judge { run, output: "answers.txt" }, or a Refused
//!     let status = refused.status();                    // 0 for help and the version, 2 for faulty words
//!     let text = refused.text(alloc)?;                  // what is to be printed of it
#![tactic(auto)]

mod asked;
mod asked_words;
mod command;
mod culprit;
mod form;
mod places;
mod refused;
mod story_words;
mod version;
mod window;

pub use asked::Asked;
pub use asked_words::asked_of;
pub use command_words::Request;
pub use culprit::Culprit;
pub use form::Form;
pub use refused::Refused;
pub use window::Window;
