//! The manager's turn: what a worker's query is answered, and how the story of it stays legal.
//!
//! A `Desk` keeps the book, the story, the policy and, while no load is underway, the depot. Each of its calls appends
//! the entries that it names, and its type keeps that the story is legal. `docs/MANAGER.md` has the turn as a table.
//!
//!     let mut desk = Desk::new(alloc, needs, chunks, workers, frames, groups, Relevance, depot)?;
//!     desk.register(worker, query);
//!     match desk.turn(worker, query) {
//!         Turn::Take { chunk, slots } => desk.release(worker, query, chunk),
//!         Turn::Load(ticket, depot) => desk.filled(ticket, depot),    // once each piece is read
//!         Turn::NotYet | Turn::Finished | Turn::Stopped(_) => {}
#![tactic(auto)]

mod cause;
mod desk;
mod ends;
mod loads;
mod room;
mod ticket;
mod turn;
mod turns;
mod waiting;

pub use desk::Desk;
pub use room::frames_needed;
pub use scan_story::{Cause, Memory, Why};
pub use table_sets::Slots;
pub use ticket::Ticket;
pub use turn::Turn;
pub use waiting::{
    active_queries_are_last, holds_stay, loads_stay, queries_run_on, registers_stay, turns_stay,
    workers_rest_alone,
};
