//! What workers hold, and how long queries wait.
ghost use Rattle.std.specs.Prelude.{◌≡◌, ◌-◌, ◌<◌, ◌≤◌, ◌&&◌, not, ℕ, None, length, slice_index_or, unwrap_or};
ghost use Rattle.std.specs.Option.{option_map};
ghost use Rattle.scan_story.specs.Counting.{any_below, has};
ghost use Rattle.scan_story.specs.Views.{is_hold_of};
ghost use Rattle.interest_book.specs.Held.{hold_for};

use scan_story::Hold;
use table_sets::ChunkSet;

fn is_of(hold: Option<Hold>, c: u32) -> bool
    ensures { result ≡ is_hold_of c hold }
{
    match hold {
        Some(hold) => hold.chunk == c,
        None => false,
    }
}

/// Whether one of the first n workers holds the chunk.
#[tactic(auto, using(chunk_interest::proofs::Below::any_below_more))]
pub fn holds_chunk(holds: &[Option<Hold>], n: u32, c: u32) -> bool
    requires { n ≤ length holds.now }
    ensures { result ≡ any_below (λ w. is_hold_of c (slice_index_or holds.now w None)) n }
{
    let mut found = false;
    for w in 0..n {
        found = is_of(holds[w as usize], c) || found;
    }
    found
}

// Takes the chunk that is held, if there is one, out of the set.
fn leave_out(chunks: &mut ChunkSet, hold: Option<Hold>)
    ensures { (c : ℕ) → c < 1024 → has chunks.new c ≡ (has chunks.old c && not (is_hold_of c hold)) }
{
    if let Some(hold) = hold {
        if hold.chunk < 1024 {
            chunks.remove(hold.chunk);
        }
    }
}

/// The chunks of the set that none of the first n workers holds.
pub fn unheld(chunks: &ChunkSet, holds: &[Option<Hold>], n: u32) -> ChunkSet
    requires { n ≤ length holds.now }
    ensures { (c : ℕ) → c < 1024 → has result c
        ≡ (has chunks.now c && not (any_below (λ w. is_hold_of c (slice_index_or holds.now w None)) n)) }
{
    let mut left = chunks.copy();
    for w in 0..n {
        leave_out(&mut left, holds[w as usize]);
    }
    left
}

/// Whether the worker, if there is one, holds a chunk for the query.
pub fn holds_query(holds: &[Option<Hold>], worker: Option<u32>, q: u32) -> bool
    ensures { result ≡ hold_for holds.now q worker }
{
    match worker {
        Some(w) => match holds.get(w as usize) {
            Some(Some(hold)) => hold.query == q,
            _ => false,
        },
        None => false,
    }
}

/// How many entries came after this one; none where there is none.
pub fn since(noted: u64, began: Option<u64>) -> u64
    ensures value { result ≡ unwrap_or (option_map (λ b. noted - b) began) 0 }
    ensures within { result ≤ noted }
{
    match began {
        Some(b) => noted.saturating_sub(b),
        None => 0,
    }
}
