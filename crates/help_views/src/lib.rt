//! What a list of entries says: the views and numbers of a story, its load underway, its candidates and the policy's
//! cursor.
//!
//! Each definition walks the whole list anew, so it is slow, and meant for stories of tens of entries. It takes every
//! policy and both layouts, and its contracts are the definitions. `docs/MANAGER.md` tells the rules.
//!
//!     let needs = needs_chunk(&setting, &entries, query, chunk);
//!     let held = held_by(&entries, worker);             // its query and chunk
//!     let starved = is_starved(&setting, &entries, query);
//!     let load = underway(alloc, &setting, &entries)?;
//!     let victim = is_victim(&setting, &entries, &load, chunk);
#![tactic(auto)]

mod candidates;
mod cursors;
mod loads;
mod needs;
mod numbers;
mod views;

pub use candidates::{is_ready, is_target, is_trigger, is_victim};
pub use cursors::{at, cursor_at};
pub use loads::{
    all_begun, begins, begins_in, free_frames, has_filled, is_free, is_load_by, is_load_of, misses,
    missing_for, underway,
};
pub use needs::{asks_for, chunk_of, piece_at, reads_group, worker_of};
pub use numbers::{
    available, cached, close, interested, is_starved, needed, overlap, running, starved_overlap,
    waiting,
};
pub use views::{
    held_by, is_active, is_available, is_ended, is_framed, is_held, is_registered, is_stopped,
    is_wholly_framed, needs_chunk, piece_in, registers,
};
