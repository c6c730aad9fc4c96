//! How many entries of each kind a story has.
ghost use Rattle.std.specs.Prelude.{◌≡◌, filter, length};
ghost use Rattle.inspect_referee.specs.Counts.{is_of, AreCounts};

use scan_story::Entry;

/// The kinds of entries.
#[derive(Clone, Copy, Debug, PartialEq, Eq)]
pub enum Kind {
    Register,
    Plan,
    Evict,
    Fill,
    Filled,
    Failed,
    Deliver,
    Release,
    Stop,
    End,
}

/// How many entries there are of each kind.
#[derive(Clone, Copy, Debug, PartialEq, Eq)]
pub struct Counts {
    pub registers: usize,
    pub plans: usize,
    pub evicts: usize,
    pub fills: usize,
    pub filled: usize,
    pub failed: usize,
    pub delivers: usize,
    pub releases: usize,
    pub stops: usize,
    pub ends: usize,
}

/// Whether the entry is of the kind.
pub fn is_of(kind: Kind, entry: &Entry) -> bool
    ensures { result ≡ is_of kind entry.now }
{
    match *entry {
        Entry::Register { .. } => kind == Kind::Register,
        Entry::Plan { .. } => kind == Kind::Plan,
        Entry::Evict { .. } => kind == Kind::Evict,
        Entry::Fill { .. } => kind == Kind::Fill,
        Entry::Filled { .. } => kind == Kind::Filled,
        Entry::Failed { .. } => kind == Kind::Failed,
        Entry::Deliver { .. } => kind == Kind::Deliver,
        Entry::Release { .. } => kind == Kind::Release,
        Entry::Stop { .. } => kind == Kind::Stop,
        Entry::End { .. } => kind == Kind::End,
    }
}

fn count(entries: &[Entry], kind: Kind) -> usize
    ensures { result ≡ length (filter (is_of kind) entries.now) }
{
    entries.iter().filter(|e| is_of(kind, *e)).count()
}

/// Counts the entries of each kind, in one pass for each.
pub fn count_kinds(entries: &[Entry]) -> Counts
    ensures { AreCounts entries.now result }
{
    Counts {
        registers: count(entries, Kind::Register),
        plans: count(entries, Kind::Plan),
        evicts: count(entries, Kind::Evict),
        fills: count(entries, Kind::Fill),
        filled: count(entries, Kind::Filled),
        failed: count(entries, Kind::Failed),
        delivers: count(entries, Kind::Deliver),
        releases: count(entries, Kind::Release),
        stops: count(entries, Kind::Stop),
        ends: count(entries, Kind::End),
    }
}
