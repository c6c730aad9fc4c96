//! The numbers of which the laws of legal stories speak, computed at each beginning of a story.
ghost use Rattle.std.specs.Prelude.{◌≡◌, ◌<◌, ℕ, length};
ghost use Rattle.scan_story.specs.Views.{past};
ghost use Rattle.scan_story.specs.Loads.{underway};
ghost use Rattle.help_views.specs.Small.{IsSmall};

use crate::proper::expect_proper;
use help_judge::{chooses, is_undisturbed, is_whole};
use help_stories::paid_by;
use help_views::{
    asks_for, close, cursor_at, free_frames, held_by, is_active, is_ended, is_starved, is_stopped,
    is_victim, is_wholly_framed, piece_in, underway,
};
use scan_story::{Entry, Load, Setting, capacity};
use std::alloc::Global;
use std::process::Abort;
use std::test::Fail;

/// How often what a law speaks of was met.
#[derive(Clone, Copy, Debug, PartialEq, Eq)]
pub struct Seen {
    pub entries: u64,
    pub loads: u64,
    pub evictions: u64,
    /// Loads that lacked frames.
    pub lacking: u64,
    /// Entries after which loads are just paid.
    pub tight: u64,
    /// Entries while the trigger of the load underway was stopped.
    pub lost: u64,
    /// Whole stories without stopped queries.
    pub whole: u64,
}

fn one_more(n: &mut u64) {
    *n = n.saturating_add(1);
}

/// What the entries spent so far.
#[derive(Clone, Copy)]
struct Spent {
    loads: u64,
    deliveries: u64,
}

/// How many times the chunk was delivered to the query.
fn times_delivered(entries: &[Entry], q: u32, c: u32) -> u64 {
    let mut times: u64 = 0;
    for entry in entries.iter() {
        if let Entry::Deliver { query, chunk, .. } = *entry {
            if query == q && chunk == c {
                times = times.saturating_add(1);
            }
        }
    }
    times
}

/// No piece stands in two frames, and each is of the table.
fn expect_frames<R: Abort>(rt: &R, s: &Setting, entries: &[Entry])
    requires { IsSmall s.now }
{
    for f in 0..s.frames {
        if let Some(p) = piece_in(s, entries, f) {
            assert!(rt; (p as u64) < s.chunks as u64 * s.groups as u64);
            for g in 0..f {
                assert!(rt; piece_in(s, entries, g) != Some(p), "piece {p} twice");
            }
        }
    }
}

/// What is held is in frames.
fn expect_holds<R: Abort>(rt: &R, s: &Setting, entries: &[Entry])
    requires { IsSmall s.now }
{
    for w in 0..s.workers {
        if let Some(hold) = held_by(entries, w) {
            assert!(rt;
                is_wholly_framed(s, entries, hold.query, hold.chunk),
                "held by {w}"
            );
        }
    }
}

/// One active query a worker; a query that has ended took all, and isn't stopped.
fn expect_queries<R: Abort>(rt: &R, s: &Setting, entries: &[Entry]) {
    for n in s.needs.iter() {
        for m in s.needs.iter() {
            if n.worker == m.worker && n.query != m.query {
                assert!(rt; !(is_active(entries, n.query) && is_active(entries, m.query)));
            }
        }
        if is_ended(entries, n.query) {
            assert!(rt; !is_stopped(entries, n.query));
            for c in n.chunks.iter() {
                assert_eq!(rt; times_delivered(entries, n.query, *c), 1, "chunk {c}");
            }
        }
    }
}

/// Where some candidate is close to no query, each victim that the policy may choose is.
fn expect_choice<R: Abort>(
    rt: &R,
    alloc: Global,
    s: &Setting,
    entries: &[Entry],
    load: &Option<Load>,
    worker: u32,
) -> Result<(), Fail>
    requires small { IsSmall s.now }
    requires load { load.now ≡ underway s.now (past entries.now) }
{
    let cursor = cursor_at(alloc, s, entries)?;
    let mut far = false;
    let mut chosen: u32 = 0;
    for chunk in 0..s.chunks {
        let close = close(s, entries, chunk);
        far = far || (close == 0 && is_victim(s, entries, load, chunk));
        let evict = Entry::Evict { worker, chunk };
        if chooses(s, entries, load, cursor.as_slice(), &evict) {
            assert_eq!(rt; close, 0, "chunk {chunk}");
            chosen = chosen.saturating_add(1);
        }
    }
    assert!(rt; far, "no victim");
    assert!(rt; chosen > 0, "no choice");
    Ok(())
}

/// The load is proper, its trigger is starved or paid ahead, and it finds a victim that is close to no query.
fn expect_load<R: Abort>(
    rt: &R,
    alloc: Global,
    s: &Setting,
    entries: &[Entry],
    load: &Option<Load>,
    l: &Load,
    rest: u64,
    seen: &mut Seen,
) -> Result<(), Fail>
    requires small { IsSmall s.now }
    requires load { load.now ≡ underway s.now (past entries.now) }
{
    expect_proper(rt, s, entries, l);
    assert!(rt; !is_wholly_framed(s, entries, l.query, l.chunk));
    if is_active(entries, l.query) {
        assert!(rt; is_starved(s, entries, l.query), "trigger {}", l.query);
    } else {
        assert!(rt; rest > 0, "trigger {} is lost", l.query);
        one_more(&mut seen.lost);
    }
    let free = free_frames(s, entries, load) as usize;
    if l.begun.is_empty() && free < l.missing.len() {
        one_more(&mut seen.lacking);
        expect_choice(rt, alloc, s, entries, load, l.worker)?;
    }
    Ok(())
}

/// The chunk that was evicted was close to nobody, a frame is free now, and nobody was starved by it.
fn expect_eviction<R: Abort>(
    rt: &R,
    alloc: Global,
    s: &Setting,
    before: &[Entry],
    after: &[Entry],
    c: u32,
) -> Result<(), Fail>
    requires { IsSmall s.now }
{
    assert_eq!(rt; close(s, before, c), 0, "chunk {c}");
    for n in s.needs.iter() {
        assert!(rt; !is_starved(s, after, n.query) || is_starved(s, before, n.query));
    }
    let old = underway(alloc, s, before)?;
    let new = underway(alloc, s, after)?;
    assert!(rt; free_frames(s, before, &old) < free_frames(s, after, &new));
    Ok(())
}

/// What is said of the entry and of the entries up to it.
fn expect_entry<R: Abort>(
    rt: &R,
    alloc: Global,
    s: &Setting,
    before: &[Entry],
    after: &[Entry],
    entry: Entry,
    spent: &mut Spent,
    seen: &mut Seen,
) -> Result<(), Fail>
    requires { IsSmall s.now }
{
    let old = underway(alloc, s, before)?;
    let load = underway(alloc, s, after)?;
    match entry {
        Entry::Deliver { query, chunk, .. } => {
            assert!(rt; asks_for(s, query, chunk));
            assert_eq!(rt; times_delivered(before, query, chunk), 0, "chunk {chunk}");
            one_more(&mut spent.deliveries);
        }
        Entry::Evict { chunk, .. } => {
            expect_eviction(rt, alloc, s, before, after, chunk)?;
            one_more(&mut seen.evictions);
        }
        Entry::Fill { .. } => {
            let taken = free_frames(s, before, &old).saturating_sub(free_frames(s, after, &load));
            assert!(rt; taken <= 1, "{taken} frames");
        }
        Entry::Filled { .. } => {
            if old.is_some() && load.is_none() {
                one_more(&mut spent.loads);
                one_more(&mut seen.loads);
            }
        }
        _ => {}
    }
    let paid = paid_by(s, after, spent.deliveries);
    assert!(rt; spent.loads <= paid, "{} loads, paid {paid}", spent.loads);
    if spent.loads == paid {
        one_more(&mut seen.tight);
    }
    if let Some(l) = &load {
        let rest = paid.saturating_sub(spent.loads);
        expect_load(rt, alloc, s, after, &load, l, rest, seen)?;
    }
    expect_frames(rt, s, after);
    expect_holds(rt, s, after);
    expect_queries(rt, s, after);
    one_more(&mut seen.entries);
    Ok(())
}

/// The chunks of all needs together.
fn sizes(s: &Setting) -> u64 {
    let mut sum: u64 = 0;
    for n in s.needs.iter() {
        sum = sum.saturating_add(n.chunks.len() as u64);
    }
    sum
}

fn none_stopped(s: &Setting, entries: &[Entry]) -> bool {
    s.needs.iter().all(|n| !is_stopped(entries, n.query))
}

/// Each law holds of each beginning of the story.
pub fn expect_laws<R: Abort>(
    rt: &R,
    alloc: Global,
    s: &Setting,
    story: &[Entry],
    seen: &mut Seen,
) -> Result<(), Fail>
    requires { IsSmall s.now }
{
    let mut spent = Spent {
        loads: 0,
        deliveries: 0,
    };
    for i in 0..story.len() {
        let before = &story[..i];
        let after = &story[..=i];
        expect_entry(rt, alloc, s, before, after, story[i], &mut spent, seen)?;
    }
    let d = sizes(s);
    let q = s.needs.len() as u64;
    let g = s.groups as u64;
    assert!(rt; d <= 262144 && q <= 256 && g <= 16);
    assert!(rt; story.len() as u64 <= capacity(d, q, g));
    assert!(rt; is_undisturbed(s, story));
    if is_whole(alloc, s, story)? && none_stopped(s, story) {
        assert!(rt; spent.loads <= d, "{} loads", spent.loads);
        one_more(&mut seen.whole);
    }
    Ok(())
}
