// On which worker a query is.
ghost use Rattle.std.specs.Prelude.{◌≡◌};
ghost use Rattle.inspect_story.specs.Freedom as spec;

use crate::freedom::Freedom;
use scan_story::{Entry, Need};

// The worker on which the entry registers the query.
fn worker_by(entry: &Entry, q: u32) -> Option<u32>
    ensures { result ≡ spec.worker_by q entry.now }
{
    match *entry {
        Entry::Register { worker, query } if query == q => Some(worker),
        _ => None,
    }
}

// The worker on which the entries register the query first.
fn first_worker(entries: &[Entry], q: u32) -> Option<u32>
    ensures { result ≡ spec.first_worker entries.now q }
{
    for entry in entries {
        if let Some(worker) = worker_by(entry, q) {
            return Some(worker);
        }
    }
    None
}

/// The worker of a query among so many: its need's, or, where dealing is left to the story, the one on which the story
/// registers it first. Where there is no such worker it is its need's.
pub(crate) fn worker_for(freedom: Freedom, workers: u32, entries: &[Entry], need: &Need) -> u32
    ensures { result ≡ spec.worker_for freedom workers entries.now need.now }
{
    if !freedom.dealing {
        return need.worker;
    }
    match first_worker(entries, need.query) {
        Some(worker) if worker < workers => worker,
        _ => need.worker,
    }
}
