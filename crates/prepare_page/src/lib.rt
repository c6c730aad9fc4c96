//! What is guessed of an export by what is seen of it, and the page that tells it.
#![tactic(auto)]

mod advice;
mod blanks;
mod column;
mod columns_told;
mod counts;
mod dated;
mod delimiter;
mod header;
mod hint;
mod look;
mod marks;
mod naming;
mod needs;
mod page;
mod phrases;
mod quoting;
mod row_names;
mod titles;
mod usual;
mod widths;
mod words;

pub use advice::{POWERS, Reading, ZEROS, act_on, needs_rules, reading_of};
pub use blanks::tabs_in;
pub use counts::{WIDEST, Widths};
pub use delimiter::{Guess, delimiter_of};
pub use header::has_names;
pub use hint::Hint;
pub use look::{First, Look, look_at, look_by};
pub use marks::MARKS;
pub use needs::Advice;
pub use page::{Page, page_of};
pub use titles::titles_of;
pub use usual::{Usual, usual_of};
pub use widths::widths_of;
