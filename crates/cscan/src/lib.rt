//! Scans over shared frames.
//!
//! A `CScan` takes the chunks that a query needs, one after another, in whatever order the manager gives them. It loads
//! pieces where the manager says so, pins the frames of the chunk that it has out, and reads cells under these pins.
//!
//!     let mut scan = CScan::begin(rt, &baton, &pool, &shape, &mut station, query);
//!     while let Next::Chunk(held, delivery) = scan.next(rt) {
//!         let called = gate.holding(rt, delivery);
//!         for row in 0..held.rows() {
//!             let cell = held.cell(&mut scan, row, column);
//!         }
//!         held.release(rt, &mut scan, called);
//!     }
//!
//! docs/SCANS.md has the life of a chunk as a picture.
#![tactic(auto)]

mod delivery;
mod desk;
mod filling;
mod gate;
mod held;
mod loading;
mod next;
mod pausing;
mod releasing;
mod rounds;
mod scan;
mod slots;
mod station;
mod waking;

pub use delivery::Delivery;
pub use gate::{Gate, NoGate};
pub use held::Held;
pub use next::Next;
pub use scan::CScan;
pub use station::Station;
