ghost use Rattle.std.specs.Prelude.{◌≡◌, ◌==◌, ◌*◌, ◌+◌, ◌/◌, ℕ, map};
ghost use Rattle.std.specs.Option.{option_copied};
ghost use Rattle.std.specs.List.{list_any, list_all};
ghost use Rattle.scan_story.specs.Counting.{has};
ghost use Rattle.scan_story.specs.Setting.{need_of, worker_of, asks_for, groups_read};
ghost use Rattle.scan_story.specs.Setting.{reads_group, shares, piece_at, chunk_of};
ghost use Rattle.help_views.specs.Small.{IsSmall};

use scan_story::{Need, Setting};
use std::collections::LinkedList;

/// The number is in the list.
pub fn has(xs: &LinkedList<u32>, x: u32) -> bool
    ensures { result ≡ has xs.now x }
{
    xs.iter().any(|y| *y == x)
}

/// The need that names the query.
pub fn need_of(s: &Setting, q: u32) -> Option<&Need>
    ensures { option_copied result ≡ need_of s.now q }
{
    for n in s.needs.iter() {
        if n.query == q {
            return Some(n);
        }
    }
    None
}

/// The worker that the query's need names.
pub fn worker_of(s: &Setting, q: u32) -> Option<u32>
    ensures { result ≡ worker_of s.now q }
{
    match need_of(s, q) {
        Some(n) => Some(n.worker),
        None => None,
    }
}

/// The query's need has the chunk.
pub fn asks_for(s: &Setting, q: u32, c: u32) -> bool
    ensures { result ≡ asks_for s.now q c }
{
    match need_of(s, q) {
        Some(n) => has(&n.chunks, c),
        None => false,
    }
}

/// The query reads the group.
pub fn reads_group(s: &Setting, q: u32, g: u32) -> bool
    ensures { result ≡ reads_group s.now q g }
{
    if s.groups == 1 {
        return 0 == g;
    }
    match need_of(s, q) {
        Some(n) => has(&n.columns, g),
        None => false,
    }
}

/// The second query reads a piece of a chunk that the first one reads.
pub fn shares(s: &Setting, q: u32, r: u32) -> bool
    ensures { result ≡ shares s.now q r }
{
    if s.groups == 1 {
        return reads_group(s, r, 0);
    }
    match need_of(s, q) {
        Some(n) => n.columns.iter().any(|g| reads_group(s, r, *g)),
        None => false,
    }
}

/// The number of a chunk's piece.
pub fn piece_at(s: &Setting, c: u32, g: u32) -> u64
    ensures { result ≡ piece_at s.now c g }
{
    c as u64 * s.groups as u64 + g as u64
}

/// The chunk of which the piece is one.
pub fn chunk_of(s: &Setting, p: u32) -> u32
    requires { IsSmall s.now }
    ensures { result ≡ chunk_of s.now p }
{
    p / s.groups
}
