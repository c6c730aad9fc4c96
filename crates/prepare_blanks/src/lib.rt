//! Texts whose columns are parted by runs of blanks, written with a tab between two words.
#![tactic(auto)]

mod laws;
mod place;
mod tabs;

pub use laws::{lines_are_read_word_by_word, words_in_quotes_stay};
pub use tabs::with_tabs;
