//! The load underway, entry by entry.
ghost use Rattle.std.specs.Prelude.{◌≡◌, ◌==◌, ◌∷◌, ◌<◌, ◌≤◌, [], ℕ, IfOk};
ghost use Rattle.std.specs.List.{list_any};
ghost use Rattle.std.specs.Option.{option_map};
ghost use Rattle.scan_story.specs.declared.setting.Setting.{Setting};
ghost use Rattle.scan_story.specs.Counting.{has};
ghost use Rattle.scan_story.specs.Views.{History};
ghost use Rattle.scan_story.specs.Loads.{all_begun, begin_fill, begins, begins_in, end_fill, fills_frame};
ghost use Rattle.scan_story.specs.Loads.{if_open, is_load_by, is_open, missing_pieces, underway};
ghost use Rattle.interest_book.specs.Stands.{MayFollow, Stands};

use interest_book::{Book, Pieces};
use scan_story::{Entry, Load};
use std::alloc::{AllocError, Global};
use std::collections::LinkedList;

// The pieces as a list.
fn list_of(alloc: Global, pieces: &Pieces) -> Result<LinkedList<u64>, AllocError>
    ensures { IfOk result (λ list. list ≡ pieces.now) }
{
    let mut list = LinkedList::new(alloc);
    for i in 0..pieces.len() {
        list.push_back(pieces.at(i) as u64)?;
    }
    Ok(list)
}

// The load that a Plan begins.
fn planned(
    alloc: Global,
    book: &Book,
    worker: u32,
    query: u32,
    chunk: u32,
) -> Result<Load, AllocError>
    requires query { query ≤ 256 }
    requires chunk { chunk < 1024 }
    ensures { (s : Setting) (h : History) → Stands book.now s h → IfOk result (λ l. l ≡ record {
      worker = worker;
      query = query;
      chunk = chunk;
      missing = missing_pieces s h query chunk;
      begun = [];
      filled = [];
    }) }
{
    let missing = list_of(alloc, &book.missing_pieces(query, chunk))?;
    Ok(Load {
        worker,
        query,
        chunk,
        missing,
        begun: LinkedList::new(alloc),
        filled: LinkedList::new(alloc),
    })
}

fn begin_fill(load: Option<Load>, f: u32, p: u32) -> Result<Option<Load>, AllocError>
    ensures { IfOk result (λ o. o ≡ option_map (begin_fill f p) load) }
{
    match load {
        Some(mut l) => {
            l.begun.push_front((f, p))?;
            Ok(Some(l))
        }
        None => Ok(None),
    }
}

fn is_filled(load: &Load, p: u64) -> bool
    ensures { result ≡ has load.now.filled p }
{
    load.filled.iter().any(|y| *y as u64 == p)
}

fn is_open(load: &Load) -> bool
    ensures { result ≡ is_open load.now }
{
    load.missing.iter().any(|p| !is_filled(load, *p))
}

fn end_fill(load: Option<Load>, p: u32) -> Result<Option<Load>, AllocError>
    ensures { IfOk result (λ o. o ≡ if_open (option_map (end_fill p) load)) }
{
    match load {
        Some(mut l) => {
            l.filled.push_front(p)?;
            if is_open(&l) { Ok(Some(l)) } else { Ok(None) }
        }
        None => Ok(None),
    }
}

/// The load underway after one entry more; the book stands for the entries before it.
pub fn load_after(
    alloc: Global,
    book: &Book,
    load: Option<Load>,
    entry: &Entry,
) -> Result<Option<Load>, AllocError>
    requires { MayFollow book.now entry.now }
    ensures { (s : Setting) (h : History) → Stands book.now s h → load ≡ underway s h
        → IfOk result (λ o. o ≡ underway s (entry.now ∷ h)) }
{
    match *entry {
        Entry::Plan {
            worker,
            query,
            chunk,
        } => {
            let load = planned(alloc, book, worker, query, chunk)?;
            Ok(Some(load))
        }
        Entry::Fill { frame, piece, .. } => begin_fill(load, frame, piece),
        Entry::Filled { piece, .. } => end_fill(load, piece),
        Entry::Failed { .. } => Ok(None),
        _ => Ok(load),
    }
}

fn begins_frame(load: &Load, f: u32) -> bool
    ensures { result ≡ list_any (λ b. b.0 == f) load.now.begun }
{
    load.begun.iter().any(|b| b.0 == f)
}

/// The load underway, if any, has begun to fill the frame.
pub fn fills_frame(f: u32, load: &Option<Load>) -> bool
    ensures { result ≡ fills_frame f load.now }
{
    match load {
        Some(l) => begins_frame(l, f),
        None => false,
    }
}

/// The load underway, if any, is the worker's.
pub fn is_load_by(w: u32, load: &Option<Load>) -> bool
    ensures { result ≡ is_load_by w load.now }
{
    match load {
        Some(l) => l.worker == w,
        None => false,
    }
}

/// The load misses the piece.
pub fn misses(load: &Load, p: u32) -> bool
    ensures { result ≡ has load.now.missing p }
{
    load.missing.iter().any(|y| *y == p as u64)
}

/// The load filled the piece.
pub fn has_filled(load: &Load, p: u32) -> bool
    ensures { result ≡ has load.now.filled p }
{
    load.filled.iter().any(|y| *y == p)
}

/// The load began a fill of the piece.
pub fn begins(load: &Load, p: u32) -> bool
    ensures { result ≡ begins load.now p }
{
    load.begun.iter().any(|b| b.1 == p)
}

fn begins_wide(load: &Load, p: u64) -> bool
    ensures { result ≡ begins load.now p }
{
    load.begun.iter().any(|b| b.1 as u64 == p)
}

/// The load began a fill of the frame with the piece.
pub fn begins_in(load: &Load, f: u32, p: u32) -> bool
    ensures { result ≡ begins_in load.now f p }
{
    load.begun.iter().any(|b| b.0 == f && b.1 == p)
}

/// Each missing piece was begun.
pub fn all_begun(load: &Load) -> bool
    ensures { result ≡ all_begun load.now }
{
    load.missing.iter().all(|p| begins_wide(load, *p))
}
