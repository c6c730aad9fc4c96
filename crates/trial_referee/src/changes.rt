//! A story changed in one entry.
use scan_story::Entry;
use std::alloc::{AllocError, Global};

/// What is changed.
#[derive(Clone, Copy, Debug, PartialEq, Eq)]
pub(crate) enum Change {
    Dropped,
    Doubled,
    Swapped,
    OtherWorker,
    OtherQuery,
    OtherChunk,
    OtherFrame,
}

pub(crate) const CHANGES: [Change; 7] = [
    Change::Dropped,
    Change::Doubled,
    Change::Swapped,
    Change::OtherWorker,
    Change::OtherQuery,
    Change::OtherChunk,
    Change::OtherFrame,
];

fn next(n: u32) -> u32 {
    n.wrapping_add(1)
}

fn with_query(entry: Entry) -> Entry {
    match entry {
        Entry::Register { worker, query } => Entry::Register {
            worker,
            query: next(query),
        },
        Entry::Stop { worker, query } => Entry::Stop {
            worker,
            query: next(query),
        },
        Entry::End { worker, query } => Entry::End {
            worker,
            query: next(query),
        },
        other => other,
    }
}

fn with_worker(entry: Entry) -> Entry {
    match entry {
        Entry::Register { worker, query } => Entry::Register {
            worker: next(worker),
            query,
        },
        Entry::Evict { worker, chunk } => Entry::Evict {
            worker: next(worker),
            chunk,
        },
        Entry::Fill {
            worker,
            frame,
            piece,
        } => Entry::Fill {
            worker: next(worker),
            frame,
            piece,
        },
        other => other,
    }
}

fn with_chunk(entry: Entry) -> Entry {
    match entry {
        Entry::Plan {
            worker,
            query,
            chunk,
        } => Entry::Plan {
            worker,
            query,
            chunk: next(chunk),
        },
        Entry::Evict { worker, chunk } => Entry::Evict {
            worker,
            chunk: next(chunk),
        },
        Entry::Deliver {
            worker,
            query,
            chunk,
        } => Entry::Deliver {
            worker,
            query,
            chunk: next(chunk),
        },
        other => other,
    }
}

fn with_frame(entry: Entry) -> Entry {
    match entry {
        Entry::Fill {
            worker,
            frame,
            piece,
        } => Entry::Fill {
            worker,
            frame: next(frame),
            piece,
        },
        Entry::Filled {
            worker,
            frame,
            piece,
        } => Entry::Filled {
            worker,
            frame: next(frame),
            piece,
        },
        other => other,
    }
}

/// The story with the entry at the place changed.
pub(crate) fn changed(
    alloc: Global,
    entries: &[Entry],
    place: usize,
    change: Change,
) -> Result<Vec<Entry>, AllocError> {
    let mut story: Vec<Entry> = entries.iter().copied().collect(alloc)?;
    if place >= story.len() {
        return Ok(story);
    }
    let entry = story[place];
    match change {
        Change::Dropped => {
            story.remove(place);
        }
        Change::Doubled => story.insert(place, entry)?,
        Change::Swapped => {
            let last = story.len() - 1;
            story.swap(place, last);
        }
        Change::OtherWorker => story[place] = with_worker(entry),
        Change::OtherQuery => story[place] = with_query(entry),
        Change::OtherChunk => story[place] = with_chunk(entry),
        Change::OtherFrame => story[place] = with_frame(entry),
    }
    Ok(story)
}
