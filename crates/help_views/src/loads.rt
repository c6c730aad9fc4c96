ghost use Rattle.std.specs.List.{list_any};
ghost use Rattle.std.specs.Prelude.{◌==◌, ◌≡◌, ℕ, IfOk, length};
ghost use Rattle.scan_story.specs.Views.{past};
ghost use Rattle.scan_story.specs.Counting.{has};
ghost use Rattle.scan_story.specs.Loads.{missing_pieces, begin_fill, end_fill, is_open, if_open};
ghost use Rattle.scan_story.specs.Loads.{underway, begins, begins_in, all_begun, is_load_by};
ghost use Rattle.scan_story.specs.Loads.{is_load_of, fills_frame, is_free, free_frames};
ghost use Rattle.std.specs.Option.{option_map};
ghost use Rattle.help_views.specs.Small.{IsSmall};

use crate::needs::{need_of, piece_at};
use crate::views::{is_framed, piece_in};
use scan_story::{Entry, Load, Setting};
use std::alloc::{AllocError, Global};
use std::collections::LinkedList;

fn missing_pieces(
    alloc: Global,
    s: &Setting,
    entries: &[Entry],
    q: u32,
    c: u32,
) -> Result<LinkedList<u64>, AllocError>
    requires { IsSmall s.now }
    ensures { IfOk result (λ ps. ps ≡ missing_pieces s.now (past entries.now) q c) }
{
    if s.groups == 1 {
        let mut pieces = LinkedList::new(alloc);
        let piece = piece_at(s, c, 0);
        if !is_framed(s, entries, piece) {
            pieces.push_back(piece)?;
        }
        return Ok(pieces);
    }
    match need_of(s, q) {
        Some(n) => n
            .columns
            .iter()
            .map(|g| piece_at(s, c, *g))
            .filter(|p| !is_framed(s, entries, *p))
            .collect(alloc),
        None => Ok(LinkedList::new(alloc)),
    }
}

/// How many pieces of the chunk the query reads and no frame has.
pub fn missing_for(s: &Setting, entries: &[Entry], q: u32, c: u32) -> usize
    requires { IsSmall s.now }
    ensures { result ≡ length (missing_pieces s.now (past entries.now) q c) }
{
    if s.groups == 1 {
        return if is_framed(s, entries, piece_at(s, c, 0)) {
            0
        } else {
            1
        };
    }
    match need_of(s, q) {
        Some(n) => n
            .columns
            .iter()
            .map(|g| piece_at(s, c, *g))
            .filter(|p| !is_framed(s, entries, *p))
            .count(),
        None => 0,
    }
}

fn is_filled(load: &Load, p: u64) -> bool
    ensures { result ≡ has load.now.filled p }
{
    load.filled.iter().any(|y| *y as u64 == p)
}

/// The load filled the piece.
pub fn has_filled(load: &Load, p: u32) -> bool
    ensures { result ≡ has load.now.filled p }
{
    load.filled.iter().any(|y| *y == p)
}

/// The piece was missing as the load was planned.
pub fn misses(load: &Load, p: u32) -> bool
    ensures { result ≡ has load.now.missing p }
{
    load.missing.iter().any(|y| *y == p as u64)
}

fn is_open(load: &Load) -> bool
    ensures { result ≡ is_open load.now }
{
    load.missing.iter().any(|p| !is_filled(load, *p))
}

fn begin_fill(load: Option<Load>, f: u32, p: u32) -> Result<Option<Load>, AllocError>
    ensures { IfOk result (λ o. o ≡ option_map (begin_fill f p) load) }
{
    match load {
        Some(mut l) => {
            l.begun.push_front((f, p))?;
            Ok(Some(l))
        }
        None => Ok(None),
    }
}

fn end_fill(load: Option<Load>, p: u32) -> Result<Option<Load>, AllocError>
    ensures { IfOk result (λ o. o ≡ if_open (option_map (end_fill p) load)) }
{
    match load {
        Some(mut l) => {
            l.filled.push_front(p)?;
            if is_open(&l) { Ok(Some(l)) } else { Ok(None) }
        }
        None => Ok(None),
    }
}

/// The load that is underway after the entries.
pub fn underway(alloc: Global, s: &Setting, entries: &[Entry]) -> Result<Option<Load>, AllocError>
    requires { IsSmall s.now }
    ensures { IfOk result (λ o. o ≡ underway s.now (past entries.now)) }
{
    match entries {
        [] => Ok(None),
        [rest @ .., last] => {
            match *last {
                Entry::Plan {
                    worker,
                    query,
                    chunk,
                } => {
                    let missing = missing_pieces(alloc, s, rest, query, chunk)?;
                    Ok(Some(Load {
                        worker,
                        query,
                        chunk,
                        missing,
                        begun: LinkedList::new(alloc),
                        filled: LinkedList::new(alloc),
                    }))
                }
                Entry::Fill { frame, piece, .. } => {
                    let load = underway(alloc, s, rest)?;
                    begin_fill(load, frame, piece)
                }
                Entry::Filled { piece, .. } => {
                    let load = underway(alloc, s, rest)?;
                    end_fill(load, piece)
                }
                Entry::Failed { .. } => Ok(None),
                _ => underway(alloc, s, rest),
            }
        }
    }
}

/// The load began a fill of the piece.
pub fn begins(load: &Load, p: u32) -> bool
    ensures { result ≡ begins load.now p }
{
    load.begun.iter().any(|b| b.1 == p)
}

fn begins_wide(load: &Load, p: u64) -> bool
    ensures { result ≡ begins load.now p }
{
    load.begun.iter().any(|b| b.1 as u64 == p)
}

/// The load began a fill of the frame with the piece.
pub fn begins_in(load: &Load, f: u32, p: u32) -> bool
    ensures { result ≡ begins_in load.now f p }
{
    load.begun.iter().any(|b| b.0 == f && b.1 == p)
}

/// Each missing piece was begun.
pub fn all_begun(load: &Load) -> bool
    ensures { result ≡ all_begun load.now }
{
    load.missing.iter().all(|p| begins_wide(load, *p))
}

/// The load underway, if any, is the worker's.
pub fn is_load_by(w: u32, load: &Option<Load>) -> bool
    ensures { result ≡ is_load_by w load.now }
{
    match load {
        Some(l) => l.worker == w,
        None => false,
    }
}

/// The load underway, if any, loads the chunk.
pub fn is_load_of(c: u32, load: &Option<Load>) -> bool
    ensures { result ≡ is_load_of c load.now }
{
    match load {
        Some(l) => l.chunk == c,
        None => false,
    }
}

fn begins_frame(load: &Load, f: u32) -> bool
    ensures { result ≡ list_any (λ b. b.0 == f) load.now.begun }
{
    load.begun.iter().any(|b| b.0 == f)
}

fn fills_frame(f: u32, load: &Option<Load>) -> bool
    ensures { result ≡ fills_frame f load.now }
{
    match load {
        Some(l) => begins_frame(l, f),
        None => false,
    }
}

/// No piece is in the frame, and the load underway hasn't begun to fill it.
pub fn is_free(s: &Setting, entries: &[Entry], load: &Option<Load>, f: u32) -> bool
    requires small { IsSmall s.now }
    requires load { load.now ≡ underway s.now (past entries.now) }
    ensures { result ≡ is_free s.now (past entries.now) f }
{
    piece_in(s, entries, f).is_none() && !fills_frame(f, load)
}

/// How many frames are free.
#[tactic(auto, using(crate::proofs::Below::count_below_more))]
pub fn free_frames(s: &Setting, entries: &[Entry], load: &Option<Load>) -> u32
    requires small { IsSmall s.now }
    requires load { load.now ≡ underway s.now (past entries.now) }
    ensures { result ≡ free_frames s.now (past entries.now) }
{
    let mut count = 0;
    for f in 0..s.frames {
        if is_free(s, entries, load, f) {
            count += 1;
        }
    }
    count
}
