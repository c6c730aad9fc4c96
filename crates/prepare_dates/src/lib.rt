//! Dates as exports spell them, day first or month first, and as `coop_cli` compares them, YYYY-MM-DD: which fields are
//! one, and its digits written anew. The calendar is `jiff`'s.
#![tactic(auto)]

mod date;
mod laws;
mod number;
mod order;
mod runs;
mod text;

pub use date::date_of;
pub use laws::{written_dates_are_read_back, written_dates_stay};
pub use order::Order;
pub use text::text_of;
