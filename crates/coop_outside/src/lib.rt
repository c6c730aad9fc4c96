//! The outside of the engine: where bytes are read from and where they go. A shelf gives the bytes of a
//! name, a sink takes bytes. Each device counts its faults, and a call may fail only where that count
//! rose; so a caller can say why an answer is missing. The devices in memory tell all that they hold, and
//! fail at the calls that a test lists; the real ones stand on files and on standard output.
//!
//!     let mut shelf = DiskShelf::new(rt);
//!     let table = read_all(alloc, &mut shelf, "orders.csv", 268435456)?;    // or Fault, TooLong, Memory
//!     let mut depot = MemDepot::new(alloc);
//!     depot.put(0, &words)?;
//!     depot.get(0, &mut buf)?;                          // a fault is counted: depot.faults()
//!     write_all(&mut StdoutSink::new(rt), &text)?;      // or how many bytes are gone
//!
//! docs/DEVICES.md has the promises in one place.
#![tactic(auto)]

mod any_depot;
mod bytes;
mod depot;
mod disk_shelf;
mod failed;
mod mem_depot;
mod mem_shelf;
mod mem_sink;
mod opened_file;
mod reading;
mod scratch_depot;
mod scratch_file;
mod shelf;
mod sink;
mod spoilt_depot;
mod stdout_sink;
mod writing;

pub use any_depot::AnyDepot;
pub use bytes::Bytes;
pub use depot::{Depot, DepotFault};
pub use disk_shelf::DiskShelf;
pub use failed::Failed;
pub use mem_depot::MemDepot;
pub use mem_shelf::MemShelf;
pub use mem_sink::MemSink;
pub use reading::{ReadFault, read_all};
pub use scratch_depot::ScratchDepot;
pub use shelf::Shelf;
pub use sink::Sink;
pub use spoilt_depot::SpoiltDepot;
pub use stdout_sink::StdoutSink;
pub use writing::{WriteFault, write_all};
