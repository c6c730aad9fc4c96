ghost use Rattle.std.specs.Prelude.{◌≡◌};
ghost use Rattle.inspect_page.specs.Ahead.{blank, query_of, with_entry};

use crate::scan_end::ScanEnd;
use scan_story::Entry;

// What the entries ahead say of a query.
#[derive(Clone, Copy, Debug, PartialEq, Eq)]
pub(crate) struct Tally {
    pub(crate) loads: u32,
    pub(crate) deliveries: u32,
    pub(crate) failures: u32,
    pub(crate) end: ScanEnd,
}

impl Tally {
    // Of no entries.
    pub(crate) fn blank() -> Tally
        ensures { result ≡ blank }
    {
        Tally {
            loads: 0,
            deliveries: 0,
            failures: 0,
            end: ScanEnd::Open,
        }
    }

    // With the entry of this number before those that are ahead, which tells of the query.
    pub(crate) fn with_entry(self, number: u32, entry: Entry) -> Tally
        ensures { result ≡ with_entry number entry self }
    {
        match entry {
            Entry::Plan { .. } => Tally {
                loads: self.loads.saturating_add(1),
                ..self
            },
            Entry::Deliver { .. } => Tally {
                deliveries: self.deliveries.saturating_add(1),
                ..self
            },
            Entry::Failed { .. } => Tally {
                failures: self.failures.saturating_add(1),
                ..self
            },
            Entry::Stop { .. } => Tally {
                end: ScanEnd::Stopped { entry: number },
                ..self
            },
            Entry::End { .. } => Tally {
                end: ScanEnd::Over { entry: number },
                ..self
            },
            _ => self,
        }
    }
}

// The query of which an entry tells something, beside that it registers.
pub(crate) fn query_of(entry: Entry) -> Option<u32>
    ensures { result ≡ query_of entry }
{
    match entry {
        Entry::Plan { query, .. }
        | Entry::Deliver { query, .. }
        | Entry::Failed { query, .. }
        | Entry::Stop { query, .. }
        | Entry::End { query, .. } => Some(query),
        _ => None,
    }
}
