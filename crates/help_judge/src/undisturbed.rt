ghost use Rattle.std.specs.Prelude.{◌≡◌, ◌↔◌, ℕ, IsTrue};
ghost use Rattle.scan_story.specs.Counting.{any_below};
ghost use Rattle.scan_story.specs.Views.{past, piece_in};
ghost use Rattle.scan_story.specs.Whole.{is_piece_of, has_taken, had_piece, Undisturbed};
ghost use Rattle.help_views.specs.Small.{IsSmall};
ghost use Rattle.help_judge.specs.Tests.{is_undisturbed};

use help_views::{chunk_of, piece_in};
use scan_story::{Entry, Setting};

fn has_piece_of(s: &Setting, entries: &[Entry], c: u32, f: u32) -> bool
    requires { IsSmall s.now }
    ensures { result ≡ is_piece_of s.now c (piece_in s.now (past entries.now) f) }
{
    match piece_in(s, entries, f) {
        Some(p) => chunk_of(s, p) == c,
        None => false,
    }
}

fn had_piece(s: &Setting, entries: &[Entry], w: u32, f: u32) -> bool
    requires { IsSmall s.now }
    ensures { result ≡ had_piece s.now (past entries.now) w f }
{
    match entries {
        [] => false,
        [rest @ .., last] => {
            match *last {
                Entry::Deliver { worker, chunk, .. } if worker == w => {
                    has_piece_of(s, rest, chunk, f) || had_piece(s, rest, w, f)
                }
                Entry::Release { worker, .. } if worker == w => false,
                _ => had_piece(s, rest, w, f),
            }
        }
    }
}

#[tactic(auto, using(help_views::proofs::Below::any_below_more))]
fn was_taken(s: &Setting, entries: &[Entry], f: u32) -> bool
    requires { IsSmall s.now }
    ensures { result ≡ any_below (λ v. had_piece s.now (past entries.now) v f) s.now.workers }
{
    let mut found = false;
    for v in 0..s.workers {
        found = had_piece(s, entries, v, f) || found;
    }
    found
}

/// Whether the chunk was delivered to the worker, which has not released since.
fn has_taken(entries: &[Entry], w: u32, c: u32) -> bool
    ensures { result ≡ has_taken (past entries.now) w c }
{
    match entries {
        [] => false,
        [rest @ .., last] => {
            match *last {
                Entry::Deliver { worker, chunk, .. } if worker == w => {
                    chunk == c || has_taken(rest, w, c)
                }
                Entry::Release { worker, .. } if worker == w => false,
                _ => has_taken(rest, w, c),
            }
        }
    }
}

#[tactic(auto, using(help_views::proofs::Below::any_below_more))]
fn is_taken(s: &Setting, entries: &[Entry], c: u32) -> bool
    ensures { result ≡ any_below (λ v. has_taken (past entries.now) v c) s.now.workers }
{
    let mut found = false;
    for v in 0..s.workers {
        found = has_taken(entries, v, c) || found;
    }
    found
}

fn undisturbed(s: &Setting, entries: &[Entry]) -> bool
    requires { IsSmall s.now }
    ensures { result ≡ is_undisturbed s.now (past entries.now) }
{
    match entries {
        [] => true,
        [rest @ .., last] => {
            match *last {
                Entry::Evict { chunk, .. } => !is_taken(s, rest, chunk) && undisturbed(s, rest),
                Entry::Fill { frame, .. } => !was_taken(s, rest, frame) && undisturbed(s, rest),
                _ => undisturbed(s, rest),
            }
        }
    }
}

/// Whether no chunk was evicted, and no frame of it filled, while it was held.
pub fn is_undisturbed(s: &Setting, entries: &[Entry]) -> bool
    requires { IsSmall s.now }
    ensures { IsTrue result ↔ Undisturbed s.now (past entries.now) }
{
    undisturbed(s, entries)
}
