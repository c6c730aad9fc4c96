//! What several policies of the manager pick alike (`first_to_load`, `longest_waiting`,
//! `fitter_of`), and `Relevance`, the policy that goes by the rank of queries and the ratios of chunks.
//!
//!     let mut policy = Relevance;
//!     if let Some(query) = policy.pick_query(&book) {
//!         let chunk = policy.pick_load(&book, query);    // Some: whoever is picked has a chunk to load
//!         let victim = policy.pick_victim(&book);        // what leaves where frames are short
//!     }
//!     let next = policy.pick_delivery(&book, reader);    // a chunk in frames for a query that runs
//!
//! `docs/MANAGER.md` and `docs/POLICIES.md` tell the rules.
#![tactic(auto)]

mod around;
mod best;
mod loads;
mod ranks;
mod rated;
mod relevance;
mod search;
mod victim;
mod waiting;

pub use around::{distance, first_to_deliver, first_to_load};
pub use interest_book::Policy;
pub use ranks::{keep_ratio, load_ratio, query_rank, use_ratio};
pub use rated::{lesser_of, number_in};
pub use relevance::Relevance;
pub use scan_story::{PolicyName, Ratio};
pub use victim::{Fitness, chunk_in, fitter_of};
pub use waiting::longest_waiting;
