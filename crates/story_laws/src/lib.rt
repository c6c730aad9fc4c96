//! What every legal story has, whatever its setting and its policy: what stays in frames, which queries are active,
//! that a chunk may always be evicted without harm, and how much is loaded and written down.
//!
//! Each law is the contract of a function that does nothing. A law speaks of every setting that a manager may be made
//! for with three frames for each worker and one more, counted in chunks, and of every legal list of entries, the
//! newest first. `docs/MANAGER.md` tells each in a sentence.
//!
//!     legal_stories_are_undisturbed();                  // from here on the prover has the law
//!     chunks_are_delivered_once();
#![tactic(auto)]

mod bounds;
mod frames;
mod queries;
mod victims;

pub use bounds::{
    legal_stories_are_short, loads_are_paid, lost_triggers_pay_ahead, next_entry_has_room,
    settings_fit_capacity, triggers_stay_starved, whole_stories_load_little,
};
pub use frames::{
    eviction_frees_a_frame, fill_takes_one_frame, frames_have_pieces, held_chunks_are_framed,
    held_pieces_stay, holders_are_workers, legal_stories_are_undisturbed, loads_are_proper,
    missing_pieces_are_in_no_frame, no_piece_stands_twice, targets_are_not_whole,
};
pub use queries::{
    chunks_are_delivered_once, ended_are_not_stopped, ended_took_all, few_are_active,
    one_active_a_worker,
};
pub use victims::{
    always_a_far_victim, chosen_victims_are_far, evictions_starve_nobody, victims_were_far,
};
