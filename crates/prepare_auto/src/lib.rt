//! An export as the CSV that `coop_cli` takes, by the rules that a look at it gives: those that change no value and
//! leave out no record. Rules that are asked for beside them win.
#![tactic(auto)]

mod advice;
mod ending;
mod given;
mod laws;
mod spelling;
mod stop;
mod writing;

pub use ending::Ending;
pub use given::Given;
pub use laws::{fields_keep_their_value, records_are_kept};
pub use stop::Stop;
pub use writing::write_auto;
