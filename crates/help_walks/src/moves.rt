ghost use Rattle.std.specs.Prelude.{◌≡◌, ◌<◌, ℕ};
ghost use Rattle.scan_story.specs.Views.{past};
ghost use Rattle.scan_story.specs.Loads.{underway};
ghost use Rattle.help_views.specs.Small.{IsSmall};

use help_views::{
    available, begins, free_frames, has_filled, held_by, is_active, is_free, is_registered, needed,
};
use rand_core::Rng;
use rand_pcg::Pcg32;
use scan_story::{Entry, Load, Need, Setting, Why};

/// What proposals are made from.
#[derive(Clone, Copy)]
pub struct Draw {
    /// Which kind of entry: from 0 to 31.
    kind: u32,
    worker: u32,
    /// Where the search for a need, a chunk, a frame or a piece begins.
    need: u32,
    chunk: u32,
    frame: u32,
    piece: u32,
}

/// A number below `n`; 0 where `n` is 0.
pub fn below(rng: &mut Pcg32, n: u32) -> u32
    ensures { 0 < n → result < n }
{
    let word = rng.next_u32();
    if n == 0 { 0 } else { word % n }
}

/// What is drawn for one step.
pub fn roll(s: &Setting, rng: &mut Pcg32) -> Draw {
    let kind = below(rng, 32);
    let worker = below(rng, s.workers);
    let need = below(rng, 1024);
    let chunk = below(rng, s.chunks);
    let frame = below(rng, s.frames);
    let piece = below(rng, s.groups);
    Draw {
        kind,
        worker,
        need,
        chunk,
        frame,
        piece,
    }
}

/// The number `i` places after `start`, going round at `n`.
fn around(start: u32, i: u32, n: u32) -> u32 {
    if n == 0 { 0 } else { start.wrapping_add(i) % n }
}

/// The need at the place, going round.
fn need_at(s: &Setting, place: u32) -> Option<&Need> {
    let mut count: u32 = 0;
    for _n in s.needs.iter() {
        count = count.saturating_add(1);
    }
    let mut left = around(place, 0, count);
    for n in s.needs.iter() {
        if left == 0 {
            return Some(n);
        }
        left -= 1;
    }
    None
}

/// A missing piece of the load that wasn't begun.
fn unbegun(load: &Load, start: u32) -> Option<u32> {
    let mut left = start;
    let mut found = None;
    for p in load.missing.iter() {
        if let Ok(p) = u32::try_from(*p) {
            if !begins(load, p) {
                if left == 0 {
                    return Some(p);
                }
                left -= 1;
                found = Some(p);
            }
        }
    }
    found
}

/// A frame and a piece that the load began and hasn't filled.
fn unfilled(load: &Load, start: u32) -> Option<(u32, u32)> {
    let mut left = start;
    let mut found = None;
    for b in load.begun.iter() {
        if !has_filled(load, b.1) {
            if left == 0 {
                return Some(*b);
            }
            left -= 1;
            found = Some(*b);
        }
    }
    found
}

fn free_frame(s: &Setting, entries: &[Entry], load: &Option<Load>, start: u32) -> Option<u32>
    requires small { IsSmall s.now }
    requires load { load.now ≡ underway s.now (past entries.now) }
{
    for i in 0..s.frames {
        let f = around(start, i, s.frames);
        if is_free(s, entries, load, f) {
            return Some(f);
        }
    }
    None
}

/// The load lacks frames, and has begun nothing.
fn must_evict(s: &Setting, entries: &[Entry], load: &Option<Load>, l: &Load) -> bool
    requires small { IsSmall s.now }
    requires load { load.now ≡ underway s.now (past entries.now) }
{
    let free = free_frames(s, entries, load) as usize;
    l.begun.is_empty() && free < l.missing.len()
}

fn eviction(s: &Setting, l: &Load, drawn: &Draw, i: u32) -> Option<Entry> {
    if i >= s.chunks {
        return None;
    }
    Some(Entry::Evict {
        worker: l.worker,
        chunk: around(drawn.chunk, i, s.chunks),
    })
}

/// A Filled, or rarely a Failed, of a piece that was begun.
fn closing(l: &Load, drawn: &Draw) -> Option<Entry> {
    let (frame, piece) = unfilled(l, drawn.piece)?;
    if drawn.kind == 0 {
        let before = drawn.need as u64;
        return Some(Entry::Failed {
            worker: l.worker,
            query: l.query,
            piece,
            why: Why::Fault {
                before,
                after: before + 1,
            },
        });
    }
    Some(Entry::Filled {
        worker: l.worker,
        frame,
        piece,
    })
}

/// The next entry of a load that is underway.
fn of_load(
    s: &Setting,
    entries: &[Entry],
    load: &Option<Load>,
    l: &Load,
    drawn: &Draw,
    i: u32,
) -> Option<Entry>
    requires small { IsSmall s.now }
    requires load { load.now ≡ underway s.now (past entries.now) }
{
    if must_evict(s, entries, load, l) {
        return eviction(s, l, drawn, i);
    }
    if i > 0 {
        return None;
    }
    let Some(piece) = unbegun(l, drawn.piece) else {
        return closing(l, drawn);
    };
    let frame = free_frame(s, entries, load, drawn.frame)?;
    Some(Entry::Fill {
        worker: l.worker,
        frame,
        piece,
    })
}

/// The query that is active on the worker.
fn active_on(s: &Setting, entries: &[Entry], w: u32) -> Option<u32> {
    for n in s.needs.iter() {
        if n.worker == w && is_active(entries, n.query) {
            return Some(n.query);
        }
    }
    None
}

fn registration(s: &Setting, entries: &[Entry], drawn: &Draw, i: u32) -> Option<Entry> {
    if i > 0 {
        return None;
    }
    for n in s.needs.iter() {
        if n.worker == drawn.worker && !is_registered(entries, n.query) {
            return Some(Entry::Register {
                worker: n.worker,
                query: n.query,
            });
        }
    }
    None
}

/// A Plan for some query, which need not be the worker's.
fn plan(s: &Setting, drawn: &Draw, i: u32) -> Option<Entry> {
    if s.chunks == 0 {
        return None;
    }
    let n = need_at(s, drawn.need.wrapping_add(i / s.chunks))?;
    Some(Entry::Plan {
        worker: drawn.worker,
        query: n.query,
        chunk: around(drawn.chunk, i, s.chunks),
    })
}

/// What the worker does with its query.
fn of_query(s: &Setting, entries: &[Entry], q: u32, drawn: &Draw, i: u32) -> Option<Entry>
    requires { IsSmall s.now }
{
    let worker = drawn.worker;
    if needed(s, entries, q) == 0 {
        return if i == 0 {
            Some(Entry::End { worker, query: q })
        } else {
            None
        };
    }
    if drawn.kind == 25 || drawn.kind == 26 {
        return if i == 0 {
            Some(Entry::Stop { worker, query: q })
        } else {
            None
        };
    }
    if available(s, entries, q) == 0 || drawn.kind % 4 == 2 {
        return plan(s, drawn, i);
    }
    if i >= s.chunks {
        return None;
    }
    Some(Entry::Deliver {
        worker,
        query: q,
        chunk: around(drawn.chunk, i, s.chunks),
    })
}

/// The `i`th proposal from what was drawn, from 0. With none, there is none after it.
pub fn proposal(
    s: &Setting,
    entries: &[Entry],
    load: &Option<Load>,
    drawn: &Draw,
    i: u32,
) -> Option<Entry>
    requires small { IsSmall s.now }
    requires load { load.now ≡ underway s.now (past entries.now) }
{
    if let Some(l) = load {
        if drawn.kind < 24 {
            return of_load(s, entries, load, l, drawn, i);
        }
    }
    let worker = drawn.worker;
    if let Some(hold) = held_by(entries, worker) {
        return if i == 0 {
            Some(Entry::Release {
                worker,
                query: hold.query,
                chunk: hold.chunk,
            })
        } else {
            None
        };
    }
    match active_on(s, entries, worker) {
        Some(q) => of_query(s, entries, q, drawn, i),
        None => {
            if drawn.kind % 8 == 7 {
                return plan(s, drawn, i);
            }
            registration(s, entries, drawn, i)
        }
    }
}
