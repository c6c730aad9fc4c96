ghost use Rattle.std.specs.Prelude.{Some};
ghost use Rattle.inspect_page.specs.Page.{row_text};

use crate::scan_end::ScanEnd;
use std::fmt;

/// What a story says of a scan, from the entry on by which its query registers. Entries are numbered from 1.
#[derive(Clone, Copy, Debug, PartialEq, Eq)]
pub struct Scan {
    /// The worker that runs it.
    pub worker: u32,
    /// The number of the query in the story.
    pub query: u32,
    /// How many loads are planned for it, by whichever worker.
    pub loads: u32,
    /// How many chunks it is given.
    pub deliveries: u32,
    /// How many loads for it fail.
    pub failures: u32,
    /// The entry by which its query registers.
    pub first: u32,
    /// How it ends.
    pub end: ScanEnd,
}

// A row of the table.
impl fmt::Display for Scan {
    ghost output = { λ s. Some (row_text s) };

    #[tactic(auto, unfolding(crate::specs::Page::row_text))]
    fn fmt<W: fmt::Write>(&self, f: &mut fmt::Formatter<W>) -> fmt::Result {
        let (query, worker, loads) = (self.query, self.worker, self.loads);
        write!(f, "<tr><td>{query}<td>{worker}<td>{loads}")?;
        let (deliveries, failures) = (self.deliveries, self.failures);
        write!(f, "<td>{deliveries}<td>{failures}")?;
        let (first, end) = (self.first, self.end);
        write!(f, "<td>{first}<td>{end}\n")
    }
}
