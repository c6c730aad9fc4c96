// How many pieces a chunk has, by what a story says.
ghost use Rattle.std.specs.Prelude.{◌≡◌, ◌<◌, ◌≤◌, ℕ, true, false, IfSome, IsNone};
ghost use Rattle.inspect_picture.specs.Groups.{IsLeastGroups, fills_agree};

use scan_story::Entry;

// Whether each piece that is read is one of the chunk that was last planned, where a chunk has so many pieces.
fn fills_agree(entries: &[Entry], groups: u32) -> bool
    requires groups { 1 ≤ groups }
    ensures { result ≡ fills_agree groups 0 entries.now }
{
    let mut planned = 0;
    for entry in entries {
        match *entry {
            Entry::Plan { chunk, .. } => planned = chunk,
            Entry::Fill { piece, .. } if piece / groups != planned => return false,
            _ => {}
        }
    }
    true
}

/// How many pieces a chunk has: the least number up to 16 by which each piece that the story reads is one of the chunk
/// that was last planned. None where there is no such number; a legal story has one.
pub fn groups_of(entries: &[Entry]) -> Option<u32>
    ensures least { IfSome result (IsLeastGroups entries.now) }
    ensures none { IsNone result → (g : ℕ) → 1 ≤ g → g ≤ 16 → fills_agree g 0 entries.now ≡ false }
{
    for groups in 1..17 {
        if fills_agree(entries, groups) {
            return Some(groups);
        }
    }
    None
}
