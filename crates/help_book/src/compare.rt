//! The numbers of a book beside those that the judge makes of the list.
ghost use Rattle.std.specs.Prelude.{◌≡◌, ◌≤◌, ◌<◌, ℕ};
ghost use Rattle.scan_story.specs.Views.{past};
ghost use Rattle.scan_story.specs.Loads.{underway};
ghost use Rattle.help_views.specs.Small.{IsSmall};

use help_views as views;
use interest_book::{Book, Memory};
use scan_story::{Entry, Load, Setting};
use std::alloc::Global;

fn same_query(s: &Setting, entries: &[Entry], book: &Book, q: u32) -> bool
    requires small { IsSmall s.now }
    requires query { q ≤ 256 }
{
    book.needed(q) == views::needed(s, entries, q)
        && book.available(q) == views::available(s, entries, q)
        && book.starved(q) == views::is_starved(s, entries, q)
        && book.waiting(q) == views::waiting(s, entries, q)
}

// How many starved queries need the chunk.
fn starved_interested(s: &Setting, entries: &[Entry], c: u32) -> usize
    requires { IsSmall s.now }
{
    s.needs
        .iter()
        .filter(|n| views::is_starved(s, entries, n.query)
            && views::needs_chunk(s, entries, n.query, c))
        .count()
}

fn same_counts(s: &Setting, entries: &[Entry], book: &Book, c: u32) -> bool
    requires { IsSmall s.now }
{
    book.interested(c) == views::interested(s, entries, c)
        && book.starved_interested(c) as usize == starved_interested(s, entries, c)
        && book.close(c) == views::close(s, entries, c)
}

fn same_chunk(s: &Setting, entries: &[Entry], load: &Option<Load>, book: &Book, c: u32) -> bool
    requires small { IsSmall s.now }
    requires load { load.now ≡ underway s.now (past entries.now) }
    requires chunk { c < 1024 }
{
    same_counts(s, entries, book, c)
        && book.cached(c) == views::cached(s, entries, c)
        && book.cached(c) as u64 + book.missing(c) as u64 == s.groups as u64
        && book.is_held(c) == views::is_held(s, entries, c)
        && book.is_victim(c) == views::is_victim(s, entries, load, c)
}

fn same_pair(s: &Setting, entries: &[Entry], book: &Book, q: u32, c: u32) -> bool
    requires small { IsSmall s.now }
    requires query { q ≤ 256 }
    requires chunk { c < 1024 }
{
    book.needs_chunk(q, c) == views::needs_chunk(s, entries, q, c)
        && book.is_available(q, c) == views::is_available(s, entries, q, c)
        && book.missing_for(q, c) as usize == views::missing_for(s, entries, q, c)
        && book.overlap(q, c) == views::overlap(s, entries, q, c)
        && book.starved_overlap(q, c) == views::starved_overlap(s, entries, q, c)
}

fn same_chunks(s: &Setting, entries: &[Entry], load: &Option<Load>, book: &Book) -> bool
    requires small { IsSmall s.now }
    requires load { load.now ≡ underway s.now (past entries.now) }
{
    for c in 0..s.chunks {
        if c < 1024 && !same_chunk(s, entries, load, book, c) {
            return false;
        }
    }
    // a chunk that the table doesn't have
    same_counts(s, entries, book, s.chunks)
}

fn same_pairs(s: &Setting, entries: &[Entry], book: &Book, q: u32) -> bool
    requires small { IsSmall s.now }
    requires query { q ≤ 256 }
{
    for c in 0..s.chunks {
        if c < 1024 && !same_pair(s, entries, book, q, c) {
            return false;
        }
    }
    true
}

fn same_queries(s: &Setting, entries: &[Entry], book: &Book) -> bool
    requires { IsSmall s.now }
{
    for n in s.needs.iter() {
        let q = n.query;
        if q <= 256 && !(same_query(s, entries, book, q) && same_pairs(s, entries, book, q)) {
            return false;
        }
    }
    true
}

fn same_frames(s: &Setting, entries: &[Entry], book: &Book) -> bool
    requires { IsSmall s.now }
{
    for f in 0..s.frames {
        if book.piece_in(f) != views::piece_in(s, entries, f) {
            return false;
        }
    }
    true
}

fn same_holds(s: &Setting, entries: &[Entry], book: &Book) -> bool {
    for w in 0..s.workers {
        let held = match views::held_by(entries, w) {
            Some(hold) => Some(hold.chunk),
            None => None,
        };
        if w < 32 && book.held_by(w) != held {
            return false;
        }
    }
    true
}

fn same_load(load: &Option<Load>, book: &Book) -> bool {
    match (load, book.underway()) {
        (None, None) => true,
        (Some(l), Some(u)) => l.worker == u.worker && l.query == u.query && l.chunk == u.chunk,
        _ => false,
    }
}

// Whether each number of the book is the one that the judge makes of the list, whose load underway this is.
fn same_numbers(s: &Setting, entries: &[Entry], load: &Option<Load>, book: &Book) -> bool
    requires small { IsSmall s.now }
    requires load { load.now ≡ underway s.now (past entries.now) }
{
    book.running() == views::running(s, entries)
        && book.free_frames() == views::free_frames(s, entries, load)
        && same_load(load, book)
        && same_queries(s, entries, book)
        && same_chunks(s, entries, load, book)
        && same_frames(s, entries, book)
        && same_holds(s, entries, book)
}

/// Whether each number of the book is the one that the judge makes of the list. The error is out of memory.
pub fn agrees(alloc: Global, s: &Setting, entries: &[Entry], book: &Book) -> Result<bool, Memory>
    requires { IsSmall s.now }
{
    let load = views::underway(alloc, s, entries)?;
    Ok(same_numbers(s, entries, &load, book))
}
