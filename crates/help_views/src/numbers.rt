ghost use Rattle.std.specs.Prelude.{◌≡◌, ◌<◌, ◌≤◌, ℕ, length, IfSome};
ghost use Rattle.scan_story.specs.Views.{past};
ghost use Rattle.scan_story.specs.Numbers.{needed, available, is_starved, begins_wait, since_wait, holds_for};
ghost use Rattle.scan_story.specs.Numbers.{waiting, running, interested, close, cached, overlap, starved_overlap};
ghost use Rattle.std.specs.Prelude.{◌&&◌, nat_le};
ghost use Rattle.scan_story.specs.Views.{is_active, is_available, needs_chunk};
ghost use Rattle.scan_story.specs.Setting.{shares};
ghost use Rattle.help_views.specs.Small.{IsSmall};

use crate::needs::{piece_at, shares, worker_of};
use crate::views::{held_by, is_active, is_available, is_framed, needs_chunk};
use scan_story::{Entry, Setting};

/// How many chunks the query needs.
#[tactic(auto, using(crate::proofs::Below::count_below_more))]
pub fn needed(s: &Setting, entries: &[Entry], q: u32) -> u32
    ensures { result ≡ needed s.now (past entries.now) q }
{
    let mut count = 0;
    for c in 0..s.chunks {
        if needs_chunk(s, entries, q, c) {
            count += 1;
        }
    }
    count
}

/// How many chunks are available to the query.
#[tactic(auto, using(crate::proofs::Below::count_below_more))]
pub fn available(s: &Setting, entries: &[Entry], q: u32) -> u32
    requires { IsSmall s.now }
    ensures { result ≡ available s.now (past entries.now) q }
{
    let mut count = 0;
    for c in 0..s.chunks {
        if is_available(s, entries, q, c) {
            count += 1;
        }
    }
    count
}

/// Active, with fewer than two chunks available.
pub fn is_starved(s: &Setting, entries: &[Entry], q: u32) -> bool
    requires { IsSmall s.now }
    ensures { result ≡ is_starved s.now (past entries.now) q }
{
    is_active(entries, q) && available(s, entries, q) < 2
}

fn begins_wait(q: u32, entry: &Entry) -> bool
    ensures { result ≡ begins_wait q entry.now }
{
    match *entry {
        Entry::Register { query, .. } | Entry::Release { query, .. } => query == q,
        _ => false,
    }
}

fn since_wait(entries: &[Entry], q: u32) -> Option<u64>
    ensures value { result ≡ since_wait (past entries.now) q }
    ensures bound { IfSome result (λ n. n < length entries.now) }
{
    match entries {
        [] => None,
        [rest @ .., last] => {
            if begins_wait(q, last) {
                return Some(0);
            }
            match since_wait(rest, q) {
                Some(n) => Some(n + 1),
                None => None,
            }
        }
    }
}

fn holds_for(s: &Setting, entries: &[Entry], q: u32) -> bool
    ensures { result ≡ holds_for s.now (past entries.now) q }
{
    match worker_of(s, q) {
        Some(w) => {
            match held_by(entries, w) {
                Some(hold) => hold.query == q,
                None => false,
            }
        }
        None => false,
    }
}

/// How many entries the query has waited.
pub fn waiting(s: &Setting, entries: &[Entry], q: u32) -> u64
    ensures value { result ≡ waiting s.now (past entries.now) q }
    ensures bound { result ≤ length entries.now }
{
    if holds_for(s, entries, q) {
        return 0;
    }
    match since_wait(entries, q) {
        Some(n) => n,
        None => 0,
    }
}

/// How many queries are active.
#[tactic(auto, using(crate::proofs::Below::count_among_cons, crate::proofs::Below::count_within))]
pub fn running(s: &Setting, entries: &[Entry]) -> u32
    requires { IsSmall s.now }
    ensures value { result ≡ running s.now (past entries.now) }
    ensures bound { result ≤ 256 }
{
    let mut count = 0;
    for n in s.needs.iter() {
        if is_active(entries, n.query) {
            count += 1;
        }
    }
    count
}

/// How many active queries need the chunk.
#[tactic(auto, using(crate::proofs::Below::count_among_cons, crate::proofs::Below::count_within))]
pub fn interested(s: &Setting, entries: &[Entry], c: u32) -> u32
    requires { IsSmall s.now }
    ensures value { result ≡ interested s.now (past entries.now) c }
    ensures bound { result ≤ 256 }
{
    let mut count = 0;
    for n in s.needs.iter() {
        if is_active(entries, n.query) && needs_chunk(s, entries, n.query, c) {
            count += 1;
        }
    }
    count
}

fn is_close(s: &Setting, entries: &[Entry], q: u32, c: u32) -> bool
    requires { IsSmall s.now }
    ensures { result ≡ (is_active (past entries.now) q && is_available s.now (past entries.now) q c && nat_le
        (available s.now (past entries.now) q) 2) }
{
    is_active(entries, q) && is_available(s, entries, q, c) && available(s, entries, q) <= 2
}

/// How many active queries have the chunk available, and at most two available chunks.
#[tactic(auto, using(crate::proofs::Below::count_among_cons, crate::proofs::Below::count_within))]
pub fn close(s: &Setting, entries: &[Entry], c: u32) -> u32
    requires { IsSmall s.now }
    ensures value { result ≡ close s.now (past entries.now) c }
    ensures bound { result ≤ 256 }
{
    let mut count = 0;
    for n in s.needs.iter() {
        if is_close(s, entries, n.query, c) {
            count += 1;
        }
    }
    count
}

/// How many pieces of the chunk are in frames.
#[tactic(auto, using(crate::proofs::Below::count_below_more))]
pub fn cached(s: &Setting, entries: &[Entry], c: u32) -> u32
    requires { IsSmall s.now }
    ensures { result ≡ cached s.now (past entries.now) c }
{
    let mut count = 0;
    for g in 0..s.groups {
        if is_framed(s, entries, piece_at(s, c, g)) {
            count += 1;
        }
    }
    count
}

fn overlaps(s: &Setting, entries: &[Entry], q: u32, r: u32, c: u32) -> bool
    ensures { result ≡ (is_active (past entries.now) r && needs_chunk s.now (past entries.now) r c && shares s.now q
        r) }
{
    is_active(entries, r) && needs_chunk(s, entries, r, c) && shares(s, q, r)
}

fn starved_overlaps(s: &Setting, entries: &[Entry], q: u32, r: u32, c: u32) -> bool
    requires { IsSmall s.now }
    ensures { result ≡ (is_starved s.now (past entries.now) r && needs_chunk s.now (past entries.now) r c && shares
        s.now q r) }
{
    is_starved(s, entries, r) && needs_chunk(s, entries, r, c) && shares(s, q, r)
}

/// How many active queries need the chunk and read a piece of it that the query reads.
#[tactic(auto, using(crate::proofs::Below::count_among_cons, crate::proofs::Below::count_within))]
pub fn overlap(s: &Setting, entries: &[Entry], q: u32, c: u32) -> u32
    requires { IsSmall s.now }
    ensures value { result ≡ overlap s.now (past entries.now) q c }
    ensures bound { result ≤ 256 }
{
    let mut count = 0;
    for n in s.needs.iter() {
        if overlaps(s, entries, q, n.query, c) {
            count += 1;
        }
    }
    count
}

/// How many of these are starved.
#[tactic(auto, using(crate::proofs::Below::count_among_cons, crate::proofs::Below::count_within))]
pub fn starved_overlap(s: &Setting, entries: &[Entry], q: u32, c: u32) -> u32
    requires { IsSmall s.now }
    ensures value { result ≡ starved_overlap s.now (past entries.now) q c }
    ensures bound { result ≤ 256 }
{
    let mut count = 0;
    for n in s.needs.iter() {
        if starved_overlaps(s, entries, q, n.query, c) {
            count += 1;
        }
    }
    count
}
