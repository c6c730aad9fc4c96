//! What each worker holds, and for which query.
ghost use Rattle.std.specs.Prelude.{◌≡◌, ◌∷◌, ◌<◌, ℕ, IfOk, None, length, slice_index_or};
ghost use Rattle.scan_story.specs.Views.{History};
ghost use Rattle.interest_book.specs.Held.{AreHolds};
ghost use Rattle.inspect_referee.specs.Seen.{holds_within};

use scan_story::{Entry, Hold};
use std::alloc::{AllocError, Global};

fn nothing(alloc: Global, n: usize) -> Result<Vec<Option<Hold>>, AllocError>
    ensures length { IfOk result (λ v. length v.items ≡ n) }
    ensures none { IfOk result (λ v. (w : ℕ) → slice_index_or v.items w None ≡ None) }
{
    vec![in alloc; None; n]
}

/// None of 32 workers holds a chunk.
pub fn no_holds(alloc: Global) -> Result<Vec<Option<Hold>>, AllocError>
    ensures length { IfOk result (λ v. length v.items ≡ 32) }
    ensures none { IfOk result (λ v. (w : ℕ) → slice_index_or v.items w None ≡ None) }
{
    nothing(alloc, 32)
}

/// What the worker holds; nothing where it isn't in the list.
pub fn held_in(holds: &[Option<Hold>], w: u32) -> Option<Hold>
    ensures { result ≡ slice_index_or holds.now w None }
{
    if (w as usize) < holds.len() {
        holds[w as usize]
    } else {
        None
    }
}

/// Follows one entry more. A worker that delivers or releases is in the list.
pub fn note_hold(holds: &mut [Option<Hold>], entry: &Entry)
    requires { holds_within (length holds.old) entry.now }
    ensures { (h : History) → AreHolds h holds.old → AreHolds (entry.now ∷ h) holds.new }
{
    match *entry {
        Entry::Deliver {
            worker,
            query,
            chunk,
        } => holds[worker as usize] = Some(Hold { query, chunk }),
        Entry::Release { worker, .. } => holds[worker as usize] = None,
        _ => {}
    }
}
