//! How workers wait, as a machine of atomic steps: that never do all sleep while one of them has a query.
//!
//! The machine has the lobby, in which a worker sleeps that asks for the desk; the bell, at which it sleeps for others,
//! with its count; and what each worker does: its turns, its loads, and whom it rings for. README.md names the line of
//! code that each step stands for. A law is the contract of a function that does nothing.
//!
//!     never_do_all_sleep();                 // from here on the prover has the law
#![tactic(auto)]

mod bell;
mod lobby;
mod turns;
mod whole;

pub use bell::{bell_steps_keep, count_steps_keep, nobody_is_hidden, sleepers_are_seen};
pub use lobby::{lobby_steps_keep, nobody_sleeps_on};
pub use turns::{loads_alone_bring_chunks, others_stay_active};
pub use whole::{never_do_all_sleep, never_stands_still};
