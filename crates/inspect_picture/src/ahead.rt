// The entries that are ahead in a story, as a walk back from its end knows them.
ghost use Rattle.std.specs.Prelude.{◌≡◌, ◌==◌, ◌+◌, ◌/◌, ◌<◌, ◌≤◌, ◌^◌, ◌∷◌, [], ℕ, List, OnOk, None, Some, length};
ghost use Rattle.std.specs.Prelude.{nat_eq, if◌then◌else◌};
ghost use Rattle.std.specs.HashMap.{get};
ghost use Rattle.scan_story.specs.declared.entry.Entry.{Entry};
ghost use Rattle.inspect_picture.specs.Ahead.{IsAhead, cut_by, read_by};
ghost use Rattle.inspect_picture.specs.Marks.{bar_of, delivery_of, life_of, mark_of, read_of};
ghost use Rattle.inspect_picture.specs.declared.bar.Ended.TheVariants as Ended;

use crate::bar::{Bar, Ended};
use crate::delivery::Delivery;
use crate::life::Life;
use crate::mark::Mark;
use crate::reading::Reading;
use scan_story::{Entry, Memory};
use std::alloc::Global;
use std::collections::HashMap;

// The number of the next entry that fills a frame, evicts a chunk, has a worker take or give back one, ends a query, or
// fails a piece.
#[derive(Drop)]
pub(crate) struct Ahead {
    pub(crate) fills: HashMap<u32, u32>,
    pub(crate) evictions: HashMap<u32, u32>,
    pub(crate) turns: HashMap<u32, u32>,
    pub(crate) ends: HashMap<u32, u32>,
    pub(crate) faults: HashMap<u32, u32>,
}

fn put(map: &mut HashMap<u32, u32>, key: u32, number: u32) -> Result<(), Memory>
    ensures { OnOk result ((k : ℕ) → get nat_eq map.new k
        ≡ (if key == k then Some number else get nat_eq map.old k)) }
{
    match map.insert(key, number) {
        Ok(_) => Ok(()),
        Err(_) => Err(Memory),
    }
}

// The stay, cut by the sooner of the two.
fn cut(bar: Bar, fill: Option<u32>, eviction: Option<u32>) -> Bar
    ensures { result ≡ cut_by bar fill eviction }
{
    match (fill, eviction) {
        (None, None) => bar,
        (Some(last), None) => Bar {
            last,
            ended: Ended::Refilled,
            ..bar
        },
        (None, Some(last)) => Bar {
            last,
            ended: Ended::Evicted,
            ..bar
        },
        (Some(fill), Some(eviction)) => {
            if fill < eviction {
                Bar {
                    last: fill,
                    ended: Ended::Refilled,
                    ..bar
                }
            } else {
                Bar {
                    last: eviction,
                    ended: Ended::Evicted,
                    ..bar
                }
            }
        }
    }
}

// The reading, cut by the sooner of the two.
fn read_by(reading: Reading, fill: Option<u32>, fault: Option<u32>) -> Reading
    ensures { result ≡ read_by reading fill fault }
{
    match (fill, fault) {
        (None, None) => reading,
        (Some(last), None) => Reading {
            last,
            failed: false,
            ..reading
        },
        (None, Some(last)) => Reading {
            last,
            failed: true,
            ..reading
        },
        (Some(fill), Some(fault)) => {
            if fill < fault {
                Reading {
                    last: fill,
                    failed: false,
                    ..reading
                }
            } else {
                Reading {
                    last: fault,
                    failed: true,
                    ..reading
                }
            }
        }
    }
}

impl Ahead {
    // Nothing is ahead of the end.
    pub(crate) fn new(alloc: Global) -> Self
        ensures { (i : ℕ) → IsAhead result i [] }
    {
        Ahead {
            fills: HashMap::new(alloc),
            evictions: HashMap::new(alloc),
            turns: HashMap::new(alloc),
            ends: HashMap::new(alloc),
            faults: HashMap::new(alloc),
        }
    }

    // The walk goes back over the entry with this number.
    pub(crate) fn note(&mut self, number: u32, entry: Entry) -> Result<(), Memory>
        ensures { (es : List Entry) → IsAhead self.old (number + 1) es
            → OnOk result (IsAhead self.new number (entry ∷ es)) }
    {
        match entry {
            Entry::Fill { frame, .. } => put(&mut self.fills, frame, number),
            Entry::Filled { frame, .. } => put(&mut self.fills, frame, number),
            Entry::Evict { chunk, .. } => put(&mut self.evictions, chunk, number),
            Entry::Deliver { worker, .. } => put(&mut self.turns, worker, number),
            Entry::Release { worker, .. } => put(&mut self.turns, worker, number),
            Entry::Stop { query, .. } => put(&mut self.ends, query, number),
            Entry::End { query, .. } => put(&mut self.ends, query, number),
            Entry::Failed { piece, .. } => put(&mut self.faults, piece, number),
            _ => Ok(()),
        }
    }

    // The stay of a piece that came by the entry with this number, in a story that ends at `end`.
    fn stay(&self, groups: u32, frame: u32, piece: u32, number: u32, end: u32) -> Bar
        requires groups { 1 ≤ groups }
        ensures { (es : List Entry) → IsAhead self.now (number + 1) es → end ≡ number + 1 + length es
            → result ≡ bar_of groups frame piece number (number + 1) es }
    {
        let whole = Bar {
            frame,
            piece,
            first: number,
            last: end,
            ended: Ended::Story,
        };
        let fill = self.fills.get(&frame).copied();
        let eviction = self.evictions.get(&(piece / groups)).copied();
        cut(whole, fill, eviction)
    }

    // The delivery to a worker by the entry with this number, in a story that ends at `end`.
    fn delivery(&self, worker: u32, query: u32, chunk: u32, number: u32, end: u32) -> Delivery
        ensures { (es : List Entry) → IsAhead self.now (number + 1) es → end ≡ number + 1 + length es
            → result ≡ delivery_of worker query chunk number (number + 1) es }
    {
        let last = self.turns.get(&worker).copied().unwrap_or(end);
        Delivery {
            worker,
            query,
            chunk,
            first: number,
            last,
        }
    }

    // The reading of a piece into a frame that began by the entry with this number, in a story that ends at `end`.
    fn reading(&self, frame: u32, piece: u32, number: u32, end: u32) -> Reading
        ensures { (es : List Entry) → IsAhead self.now (number + 1) es → end ≡ number + 1 + length es
            → result ≡ read_of frame piece number (number + 1) es }
    {
        let whole = Reading {
            frame,
            piece,
            first: number,
            last: end,
            failed: false,
        };
        let fill = self.fills.get(&frame).copied();
        let fault = self.faults.get(&piece).copied();
        read_by(whole, fill, fault)
    }

    // The life of a query that registered by the entry with this number, in a story that ends at `end`.
    fn life(&self, worker: u32, query: u32, number: u32, end: u32) -> Life
        ensures { (es : List Entry) → IsAhead self.now (number + 1) es → end ≡ number + 1 + length es
            → result ≡ life_of worker query number (number + 1) es }
    {
        let last = self.ends.get(&query).copied().unwrap_or(end);
        Life {
            worker,
            query,
            first: number,
            last,
        }
    }

    // The mark of the entry with this number, in a story that ends at `end`.
    pub(crate) fn mark(&self, groups: u32, number: u32, entry: Entry, end: u32) -> Option<Mark>
        requires groups { 1 ≤ groups }
        ensures { (es : List Entry) → IsAhead self.now (number + 1) es → end ≡ number + 1 + length es
            → result ≡ mark_of groups number entry es }
    {
        match entry {
            Entry::Register { worker, query } => {
                Some(Mark::Alive(self.life(worker, query, number, end)))
            }
            Entry::Plan {
                worker,
                query,
                chunk,
            } => Some(Mark::Load {
                worker,
                query,
                chunk,
                entry: number,
            }),
            Entry::Fill { frame, piece, .. } => {
                Some(Mark::Read(self.reading(frame, piece, number, end)))
            }
            Entry::Evict { chunk, .. } => Some(Mark::Eviction {
                chunk,
                entry: number,
            }),
            Entry::Filled { frame, piece, .. } => {
                Some(Mark::Stay(self.stay(groups, frame, piece, number, end)))
            }
            Entry::Failed { query, piece, .. } => Some(Mark::Fault {
                query,
                piece,
                entry: number,
            }),
            Entry::Deliver {
                worker,
                query,
                chunk,
            } => {
                let delivery = self.delivery(worker, query, chunk, number, end);
                Some(Mark::Given(delivery))
            }
            Entry::Release { .. } | Entry::Stop { .. } | Entry::End { .. } => None,
        }
    }
}
