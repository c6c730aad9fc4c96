// What the judge says of the story of a batch.
ghost use Rattle.std.specs.Prelude.{◌≤◌};
ghost use Rattle.std.specs.Bool.{OnTrue};
ghost use Rattle.help_views.specs.Small as small;

use help_judge::{first_illegal, is_licensed, is_undisturbed, is_whole};
use scan_story::{Entry, Setting};
use std::alloc::Global;
use std::process::Abort;
use std::test::Fail;

fn is_small(s: &Setting) -> bool
    ensures { OnTrue result (small.IsSmall s.now) }
{
    s.needs.len() <= 256 && s.groups > 0 && s.groups <= 16
}

// Whether the story is legal by the policy of the setting.
pub(crate) fn is_legal(
    rt: &impl Abort,
    alloc: Global,
    s: &Setting,
    story: &[Entry],
) -> Result<bool, Fail> {
    assert!(rt; is_small(s));
    Ok(first_illegal(alloc, s, story)?.is_none())
}

// Whether it is also whole, undisturbed, and licensed by so many faults.
pub(crate) fn is_sound(
    rt: &impl Abort,
    alloc: Global,
    s: &Setting,
    story: &[Entry],
    faults: u64,
) -> Result<bool, Fail> {
    assert!(rt; is_small(s));
    let is_legal = first_illegal(alloc, s, story)?.is_none();
    let is_whole = is_whole(alloc, s, story)?;
    Ok(is_legal && is_whole && is_undisturbed(s, story) && is_licensed(true, 0, faults, story))
}
