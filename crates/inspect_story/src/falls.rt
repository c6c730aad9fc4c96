// The counts that the faults of a story name.
ghost use Rattle.std.specs.Prelude.{◌≡◌, ◌∷◌, IfNone, IfSome, IsTrue, false};
ghost use Rattle.scan_story.specs.Causes.{last_fault};
ghost use Rattle.scan_story.specs.Views.{History, past};
ghost use Rattle.inspect_story.specs.Falling.{FallsBelow, IsFirstFall, KeepsCount, NeverFalls};

use scan_story::{Entry, Why};

/// An entry whose fault begins below the count that the last fault before it left.
#[derive(Clone, Copy, Debug, PartialEq, Eq)]
pub(crate) struct Fall {
    /// Its place in the story, from 0.
    pub(crate) place: usize,
    /// The count that the last fault left.
    pub(crate) last: u64,
}

fn falls_below(last: u64, entry: &Entry) -> bool
    ensures falls { IsTrue result → FallsBelow last entry.now }
    ensures keeps { result ≡ false → KeepsCount last entry.now }
{
    match *entry {
        Entry::Failed {
            why: Why::Fault { before, .. },
            ..
        } => before < last,
        _ => false,
    }
}

/// The count that the last fault left, after one entry more.
pub fn count_after(last: u64, entry: &Entry) -> u64
    ensures { (h : History) → last ≡ last_fault 0 h → result ≡ last_fault 0 (entry.now ∷ h) }
{
    match *entry {
        Entry::Failed {
            why: Why::Fault { after, .. },
            ..
        } => after,
        _ => last,
    }
}

/// The first entry of a story whose fault begins below the count that the last one left. It takes no memory.
pub(crate) fn first_fall(story: &[Entry]) -> Option<Fall>
    ensures some { IfSome result (IsFirstFall story.now) }
    ensures none { IfNone result (NeverFalls (past story.now)) }
{
    let mut last = 0;
    for place in 0..story.len() {
        let entry = &story[place];
        if falls_below(last, entry) {
            return Some(Fall { place, last });
        }
        last = count_after(last, entry);
    }
    None
}
