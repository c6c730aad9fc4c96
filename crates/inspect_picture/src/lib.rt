//! A picture of what a buffer manager did, as the text of an SVG: the stays of pieces in frames, the chunks in the
//! hands of queries, loads, evictions and faults, entry by entry. It stays small, however long the story is.
//!
//!     let entries = story_of_output(alloc, printed)?;       // what `coop_cli --trace` printed, or a story alone
//!     let groups = groups_of(&entries).unwrap_or(1);        // how many pieces a chunk has
//!     let svg = draw(alloc, &entries, groups)?;             // bytes of an SVG
//!     let bars = bars_of(alloc, &entries, groups)?;         // each stay: frame, piece, first and last entry
//!
//! The marks of a picture are defined by the entries alone, and the laws say that they leave nothing out.
#![tactic(auto)]

mod ahead;
mod bar;
mod counts;
mod delivery;
mod drawing;
mod groups;
mod guide;
mod head;
mod ink;
mod lanes;
mod life;
mod mark;
mod marks;
mod reading;
mod rect;
mod rows;
mod scale;
mod shape;
mod stretch;
mod trace;
mod view;
mod whole_pictures;

pub use bar::{Bar, Ended};
pub use delivery::Delivery;
pub use drawing::{draw, draw_part};
pub use groups::groups_of;
pub use life::Life;
pub use mark::Mark;
pub use marks::{bars_of, marks_of};
pub use reading::Reading;
pub use trace::{TraceRefusal, story_of_output};
pub use view::View;
pub use whole_pictures::{
    bars_are_stays, deliveries_are_marks, marks_are_drawn, pictures_are_small, windows_are_parts,
};
