//! How many frames and how much room for entries a manager needs.
ghost use Rattle.std.specs.Prelude.{◌≡◌, ◌+◌, ◌*◌, ◌≤◌, map};
ghost use Rattle.scan_story.specs.declared.setting.Setting.{Setting};
ghost use Rattle.scan_story.specs.Setting.{IsSetting};
ghost use Rattle.story_laws.specs.Bounds.{capacity_for};
ghost use Rattle.chunk_interest.specs.Fresh.{as_need};

use interest_book::Need;
use scan_story::capacity;

/// How many frames are enough for so many workers, at most 32, over chunks of so many pieces, at most 16: three chunks'
/// worth for each worker, and one more.
pub fn frames_needed(workers: u32, groups: u32) -> u64
    requires workers { workers ≤ 32 }
    requires groups { groups ≤ 16 }
    ensures { result ≡ (3 * workers + 1) * groups }
{
    (3 * workers as u64 + 1) * groups as u64
}

// How many entries a legal story of these needs has at most.
pub(crate) fn room_for(needs: &[Need], groups: u32) -> u64
    requires { (s : Setting) × IsSetting s × (map as_need needs.now ≡ s.needs) × (groups ≡ s.groups) }
    ensures { (s : Setting) → map as_need needs.now ≡ s.needs → groups ≡ s.groups → result ≡ capacity_for s }
{
    let mut wanted = 0;
    for need in needs {
        wanted += need.chunks.len() as u64;
    }
    capacity(wanted, needs.len() as u64, groups as u64)
}
