//! A referee of long stories: whether a list of entries is a legal story, and if not, which entry may not come and why.
//!
//! It reads the entries once and keeps what they say in the manager's own book, so that each entry costs some
//! microseconds. It takes every policy and both layouts, or leaves choices free, and its contract is the definitions'.
//! `docs/MANAGER.md` tells the rules, `docs/POLICIES.md` the choices. The crate `help_judge` is the same judge as a
//! plain, slow program.
//!
//!     let terms = Terms { needs, chunks, workers, frames, groups, policy };
//!     match judge(alloc, &terms, Choices::OfPolicy, &entries)? {
//!         Ruling::Legal { whole, counts } => ..,          // whole: each query is over and nothing is left open
//!         Ruling::Illegal { place, reason } => ..,        // the rule that the entry breaks, or the better choice
//!     }
#![tactic(auto)]

mod choices;
mod counts;
mod cursor;
mod holds;
mod judging;
mod load;
mod nearest;
mod needs;
mod outdone;
mod phase;
mod places;
mod rank;
mod ranks;
mod referee;
mod rule;
mod rules;
mod ruling;
mod terms;
mod whole;

pub use choices::Choices;
pub use counts::{Counts, Kind, count_kinds, is_of};
pub use judging::judge;
pub use rank::{Choice, Rank, beats};
pub use rule::Rule;
pub use ruling::{Better, Reason, Ruling};
pub use table_sets::Memory;
pub use terms::Terms;
