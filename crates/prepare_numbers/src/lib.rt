//! Numbers as exports spell them, and as `coop_cli` reads them: which fields spell one, and its digits written anew.
#![tactic(auto)]

mod form;
mod laws;
mod limit;
mod mantissa;
mod place;
mod power;
mod rounding;
mod spelling;
mod writing;

pub use form::Form;
pub use laws::{
    fitting_numbers_keep_their_value, numbers_are_rounded_to_the_nearest, numbers_keep_their_value,
    numbers_stay_within,
};
pub use limit::{Fit, Limit};
pub use spelling::{Spelling, spelling_of};
pub use writing::{push_number, push_within};
