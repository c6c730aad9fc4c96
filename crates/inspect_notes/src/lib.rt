//! What is told of a loaded table and of the statements of a batch before they run. Of the table: its rows, and for
//! each column its name, kind, NULLs, distinct texts, least and greatest value, and why it is one of texts where some
//! of its values spell numbers. Of a statement: the query in its one form, the columns that it reads, how many chunks
//! it needs, and what stands in the way where it needs all of them.
//!
//!     let profiles = profile_of(alloc, &loaded)?;
//!     let text = write_profile(alloc, &loaded, &profiles)?;           // a line for the table, one for each column
//!     let zones = zones_of_table(alloc, &loaded, Layout::Row, 1024)?;
//!     let (schema, dicts) = (loaded.table.schema(), &loaded.dicts);
//!     let note = note_of(alloc, b"select a from t where a < 3 limit 2", schema, dicts, &zones)?;
//!     let text = write_note(alloc, 1, schema, &note)?;
//!     // 1: SELECT "a" FROM "t" WHERE "a" < 3 LIMIT 2
//!     //   reads "a"
//!     //   chunks 3 of 40
//!
//! docs/INSPECT.md has the form of the lines, and docs/ZONES.md says which chunks a condition needs.
#![tactic(auto)]

mod counting;
mod members;
mod note;
mod note_writing;
mod noting;
mod number;
mod obstacle;
mod part_demands;
mod parts;
mod profile;
mod profile_writing;
mod profiling;
mod reason;
mod zones;

pub use note::Note;
pub use note_writing::write_note;
pub use noting::{note_of, note_of_plan};
pub use number::spells_number;
pub use obstacle::{Choice, Obstacle};
pub use part_demands::demanded_parts;
pub use profile::ColumnProfile;
pub use profile_writing::{write_name, write_profile};
pub use profiling::profile_of;
pub use reason::Reason;
pub use zones::zones_of_table;
