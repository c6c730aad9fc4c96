//! Where a search for the best goes on.
ghost use Rattle.std.specs.Prelude.{◌≡◌, ◌<◌, ◌≤◌, ℕ, true, false, IfNone, IfSome};
ghost use Rattle.scan_story.specs.Counting.{has};
ghost use Rattle.relevance.specs.Best.{may_exceed, is_least};

use crate::best::BestChunk;
use interest_book::CountedSet;

/// Whether a ratio with this number over one or more may be greater than the best so far.
pub fn may_exceed(num: u32, best: Option<BestChunk>) -> bool
    ensures { result ≡ may_exceed num best }
{
    match best {
        None => true,
        Some(b) => (b.ratio.num as u64) < num as u64 * b.ratio.den as u64,
    }
}

/// Whether the best so far has the number 0, below which no ratio is.
pub fn is_least(best: Option<BestChunk>) -> bool
    ensures { result ≡ is_least best }
{
    match best {
        None => false,
        Some(b) => b.ratio.num == 0,
    }
}

/// The next chunk to be tried, from a chunk on; none where the search is over before.
pub fn next_chunk(set: &CountedSet, from: u32, is_over: bool) -> Option<u32>
    ensures none { IfNone result (is_over ≡ false → (x : ℕ) → from ≤ x → has set.now x ≡ false) }
    ensures from { IfSome result (λ m. from ≤ m) }
    ensures there { IfSome result (λ m. has set.now m ≡ true) }
    ensures least { IfSome result (λ m. (x : ℕ) → from ≤ x → x < m → has set.now x ≡ false) }
    ensures below { IfSome result (λ m. m < 1024) }
{
    if is_over { None } else { set.least_from(from) }
}
