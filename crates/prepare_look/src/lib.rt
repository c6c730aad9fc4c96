//! What an export is: its lines, its records with the lines on which they begin, quotes that are open at its end, and
//! what the fields of each column are.
#![tactic(auto)]

mod exponent;
mod failure;
mod kind;
mod laws;
mod lines;
mod missing;
mod noting;
mod open;
mod place;
mod reading;
mod rows;
mod seen;
mod shape;
mod spot;
mod survey;
mod surveying;
mod traits;

pub use failure::Failure;
pub use kind::{KINDS, Kind, kind_of};
pub use laws::each_record_has_its_line;
pub use lines::{Lines, count_lines};
pub use missing::is_missing;
pub use noting::field_or_none;
pub use open::open_quote;
pub use place::Marks;
pub use reading::without_mark;
pub use rows::Rows;
pub use seen::Seen;
pub use survey::Survey;
pub use surveying::{skip_rows, survey_of};
