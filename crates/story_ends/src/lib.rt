//! That a run of the rules ends, and what each worker may do until then; and that frames make nobody wait.
//!
//! Each law is the contract of a function that does nothing. It speaks of every setting that a manager may be made for
//! with three frames for each worker and one more, counted in chunks, and of every legal list of entries, the newest
//! first. `README.md` tells each in a sentence.
//!
//!     each_worker_goes_on();                            // from here on the prover has the law
//!     fair_runs_end();
#![tactic(auto)]

mod ends;
mod frames;
mod going;
mod telling;

pub use ends::{fair_runs_end, schedules_end, whole_stories_are_over};
pub use frames::{
    claimed_frames_are_unused, delivered_pieces_are_ready, fills_find_free_frames,
    frames_make_nobody_wait, held_pieces_stay_ready, pins_and_fills_are_apart,
};
pub use going::{each_worker_goes_on, somebody_goes_on};
pub use telling::turns_tell;
