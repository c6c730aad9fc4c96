//! One page of HTML with the picture of a story and a table of its scans, which a browser opens without anything else.
//!
//!     let page = page_of(alloc, &entries, groups, View::WHOLE)?;   // bytes of an HTML page
//!     let scans = scans_of(alloc, &entries)?;                      // the rows of its table: who, how many, when
//!
//! The picture is that of inspect_picture, byte for byte. What is under the pointer is told, and a scan that is chosen
//! stands out.
#![tactic(auto)]

mod fixed;
mod page;
mod scan;
mod scan_end;
mod scans;
mod table;
mod tallies;
mod tally;

pub use page::page_of;
pub use scan::Scan;
pub use scan_end::ScanEnd;
pub use scans::scans_of;
