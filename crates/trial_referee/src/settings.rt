//! Terms for a setting that a judge knows.
ghost use Rattle.std.specs.Prelude.{IfOk, IfSome};
ghost use Rattle.scan_story.specs.Setting.{IsSetting};
ghost use Rattle.inspect_referee.specs.Terms.{setting_of};

use help_book::{book_needs, has_numbers};
use inspect_referee::{Memory, Terms};
use scan_story::Setting;
use std::alloc::Global;

/// The terms of the setting, where it is one that a manager may be made for; the policy begins with its first cursor.
pub(crate) fn terms_of(alloc: Global, s: &Setting) -> Result<Option<Terms>, Memory>
    ensures { IfOk result (λ o. IfSome o (λ t. IsSetting (setting_of t))) }
{
    if !has_numbers(s) {
        return Ok(None);
    }
    let Some(needs) = book_needs(alloc, s)? else {
        return Ok(None);
    };
    Ok(Some(Terms {
        needs,
        chunks: s.chunks,
        workers: s.workers,
        frames: s.frames,
        groups: s.groups,
        policy: s.policy,
    }))
}
