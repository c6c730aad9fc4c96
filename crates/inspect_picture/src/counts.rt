ghost use Rattle.std.specs.Prelude.{◌≡◌, ◌≤◌, ◌^◌, length};
ghost use Rattle.inspect_picture.specs.Extents.{shown_count};
ghost use Rattle.scan_story.specs.Spent.{deliveries, reads};

use crate::mark::Mark;
use crate::scale::Scale;
use scan_story::Entry;

// How many pieces are read in these entries, also with a fault or a broken piece.
pub(crate) fn reads(entries: &[Entry]) -> u32
    requires size { length entries.now ≤ 2 ^ 30 }
    ensures { result ≡ reads entries.now }
{
    let mut count = 0;
    for entry in entries {
        match *entry {
            Entry::Filled { .. } | Entry::Failed { .. } => count += 1,
            _ => {}
        }
    }
    count
}

// How many deliveries there are in these entries.
pub(crate) fn deliveries(entries: &[Entry]) -> u32
    requires size { length entries.now ≤ 2 ^ 30 }
    ensures { result ≡ deliveries entries.now }
{
    let mut count = 0;
    for entry in entries {
        match *entry {
            Entry::Deliver { .. } => count += 1,
            _ => {}
        }
    }
    count
}

// How many of the marks are shown.
pub(crate) fn shown_in(scale: &Scale, marks: &[Mark]) -> u64
    ensures { result ≡ shown_count scale.now marks.now }
{
    let mut count = 0;
    for place in 0..marks.len() {
        if scale.is_shown(marks[place]) {
            count += 1;
        }
    }
    count
}
