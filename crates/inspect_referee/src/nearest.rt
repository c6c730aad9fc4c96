//! The next of some chunks, going up and around from a start.
ghost use Rattle.std.specs.Prelude.{◌≡◌, ◌<◌, ℕ, true};
ghost use Rattle.scan_story.specs.declared.setting.Setting.{Setting};
ghost use Rattle.scan_story.specs.Counting.{has};
ghost use Rattle.scan_story.specs.Policies.{dist_from};
ghost use Rattle.relevance.specs.Least.{PicksLeast};

use interest_book::CountedSet;

/// The chunk of a set that is nearest to the start, going up and around; none where the set has none.
pub fn nearest(chunks: &CountedSet, start: u32) -> Option<u32>
    ensures { (s : Setting) → start < s.chunks → ((y : ℕ) → has chunks.now y ≡ true → y < s.chunks)
        → PicksLeast (has chunks.now) (dist_from s start) result }
{
    match chunks.least_from(start) {
        Some(c) => Some(c),
        None => chunks.least_from(0),
    }
}
