ghost use Rattle.std.specs.Prelude.{◌≡◌, ℕ};
ghost use Rattle.scan_story.specs.Views.{registers, stops, ends, delivers, is_registered, is_stopped};
ghost use Rattle.scan_story.specs.Views.{is_ended, is_active, needs_chunk, held_by, is_held};
ghost use Rattle.scan_story.specs.Views.{piece_in, is_framed, is_wholly_framed, is_available, past};
ghost use Rattle.std.specs.List.{list_any};
ghost use Rattle.scan_story.specs.Counting.{is_number};
ghost use Rattle.scan_story.specs.Views.{is_hold_of};
ghost use Rattle.help_views.specs.Small.{IsSmall};

use crate::needs::{asks_for, chunk_of, need_of, piece_at};
use scan_story::{Entry, Hold, Setting};

/// The entry is a Register of the query.
pub fn registers(q: u32, entry: &Entry) -> bool
    ensures { result ≡ registers q entry.now }
{
    match *entry {
        Entry::Register { query, .. } => query == q,
        _ => false,
    }
}

fn stops(q: u32, entry: &Entry) -> bool
    ensures { result ≡ stops q entry.now }
{
    match *entry {
        Entry::Stop { query, .. } | Entry::Failed { query, .. } => query == q,
        _ => false,
    }
}

fn ends(q: u32, entry: &Entry) -> bool
    ensures { result ≡ ends q entry.now }
{
    match *entry {
        Entry::End { query, .. } => query == q,
        _ => false,
    }
}

fn delivers(q: u32, c: u32, entry: &Entry) -> bool
    ensures { result ≡ delivers q c entry.now }
{
    match *entry {
        Entry::Deliver { query, chunk, .. } => query == q && chunk == c,
        _ => false,
    }
}

/// The query has a Register.
pub fn is_registered(entries: &[Entry], q: u32) -> bool
    ensures { result ≡ is_registered (past entries.now) q }
{
    match entries {
        [] => false,
        [rest @ .., last] => registers(q, last) || is_registered(rest, q),
    }
}

/// The query has a Stop, or a Failed names it.
pub fn is_stopped(entries: &[Entry], q: u32) -> bool
    ensures { result ≡ is_stopped (past entries.now) q }
{
    match entries {
        [] => false,
        [rest @ .., last] => stops(q, last) || is_stopped(rest, q),
    }
}

/// The query has an End.
pub fn is_ended(entries: &[Entry], q: u32) -> bool
    ensures { result ≡ is_ended (past entries.now) q }
{
    match entries {
        [] => false,
        [rest @ .., last] => ends(q, last) || is_ended(rest, q),
    }
}

fn is_delivered(entries: &[Entry], q: u32, c: u32) -> bool
    ensures { result ≡ list_any (delivers q c) (past entries.now) }
{
    match entries {
        [] => false,
        [rest @ .., last] => delivers(q, c, last) || is_delivered(rest, q, c),
    }
}

/// Registered, neither stopped nor ended.
pub fn is_active(entries: &[Entry], q: u32) -> bool
    ensures { result ≡ is_active (past entries.now) q }
{
    is_registered(entries, q) && !is_stopped(entries, q) && !is_ended(entries, q)
}

/// The query's need has the chunk, which wasn't delivered to it, and the query isn't over.
pub fn needs_chunk(s: &Setting, entries: &[Entry], q: u32, c: u32) -> bool
    ensures { result ≡ needs_chunk s.now (past entries.now) q c }
{
    asks_for(s, q, c)
        && !is_stopped(entries, q)
        && !is_ended(entries, q)
        && !is_delivered(entries, q, c)
}

/// What the worker holds.
pub fn held_by(entries: &[Entry], w: u32) -> Option<Hold>
    ensures { result ≡ held_by (past entries.now) w }
{
    match entries {
        [] => None,
        [rest @ .., last] => {
            match *last {
                Entry::Deliver {
                    worker,
                    query,
                    chunk,
                } if worker == w => Some(Hold { query, chunk }),
                Entry::Release { worker, .. } if worker == w => None,
                _ => held_by(rest, w),
            }
        }
    }
}

fn holds_chunk(entries: &[Entry], w: u32, c: u32) -> bool
    ensures { result ≡ is_hold_of c (held_by (past entries.now) w) }
{
    match held_by(entries, w) {
        Some(hold) => hold.chunk == c,
        None => false,
    }
}

/// Some worker holds the chunk.
#[tactic(auto, using(crate::proofs::Below::any_below_more))]
pub fn is_held(s: &Setting, entries: &[Entry], c: u32) -> bool
    ensures { result ≡ is_held s.now (past entries.now) c }
{
    let mut found = false;
    for w in 0..s.workers {
        found = holds_chunk(entries, w, c) || found;
    }
    found
}

/// The piece that the frame holds.
pub fn piece_in(s: &Setting, entries: &[Entry], f: u32) -> Option<u32>
    requires { IsSmall s.now }
    ensures { result ≡ piece_in s.now (past entries.now) f }
{
    match entries {
        [] => None,
        [rest @ .., last] => {
            match *last {
                Entry::Filled { frame, piece, .. } if frame == f => Some(piece),
                Entry::Fill { frame, .. } if frame == f => None,
                Entry::Evict { chunk, .. } => {
                    match piece_in(s, rest, f) {
                        Some(p) if chunk_of(s, p) == chunk => None,
                        kept => kept,
                    }
                }
                _ => piece_in(s, rest, f),
            }
        }
    }
}

fn frame_has(s: &Setting, entries: &[Entry], f: u32, p: u64) -> bool
    requires { IsSmall s.now }
    ensures { result ≡ is_number p (piece_in s.now (past entries.now) f) }
{
    match piece_in(s, entries, f) {
        Some(o) => o as u64 == p,
        None => false,
    }
}

/// Some frame has the piece.
#[tactic(auto, using(crate::proofs::Below::any_below_more))]
pub fn is_framed(s: &Setting, entries: &[Entry], p: u64) -> bool
    requires { IsSmall s.now }
    ensures { result ≡ is_framed s.now (past entries.now) p }
{
    let mut found = false;
    for f in 0..s.frames {
        found = frame_has(s, entries, f, p) || found;
    }
    found
}

/// Each piece of the chunk that the query reads is in a frame.
pub fn is_wholly_framed(s: &Setting, entries: &[Entry], q: u32, c: u32) -> bool
    requires { IsSmall s.now }
    ensures { result ≡ is_wholly_framed s.now (past entries.now) q c }
{
    if s.groups == 1 {
        return is_framed(s, entries, piece_at(s, c, 0));
    }
    match need_of(s, q) {
        Some(n) => n
            .columns
            .iter()
            .map(|g| piece_at(s, c, *g))
            .all(|p| is_framed(s, entries, p)),
        None => true,
    }
}

/// The query needs the chunk, and it is wholly in frames for it.
pub fn is_available(s: &Setting, entries: &[Entry], q: u32, c: u32) -> bool
    requires { IsSmall s.now }
    ensures { result ≡ is_available s.now (past entries.now) q c }
{
    needs_chunk(s, entries, q, c) && is_wholly_framed(s, entries, q, c)
}
