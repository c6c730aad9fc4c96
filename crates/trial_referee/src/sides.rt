//! The referee beside the plain judge.
ghost use Rattle.help_views.specs.Small.{IsSmall};

use crate::settings::terms_of;
use help_judge::{first_illegal, is_whole, may_follow};
use inspect_referee::{Choices, Memory, Ruling, judge};
use scan_story::{Entry, Setting};
use std::alloc::{AllocError, Global};

// The place of the first entry that breaks a rule, whichever choice it takes.
fn first_unruly(alloc: Global, s: &Setting, entries: &[Entry]) -> Result<Option<usize>, AllocError>
    requires { IsSmall s.now }
{
    for place in 0..entries.len() {
        if !may_follow(alloc, s, &entries[..place], &entries[place])? {
            return Ok(Some(place));
        }
    }
    Ok(None)
}

// What the plain judge says: the first entry that may not come, or else whether the story is whole.
fn plainly(
    alloc: Global,
    s: &Setting,
    choices: Choices,
    entries: &[Entry],
) -> Result<(Option<usize>, bool), AllocError>
    requires { IsSmall s.now }
{
    let first = match choices {
        Choices::OfPolicy => first_illegal(alloc, s, entries)?,
        Choices::Free => first_unruly(alloc, s, entries)?,
    };
    if first.is_some() {
        return Ok((first, false));
    }
    let whole = is_whole(alloc, s, entries)?;
    Ok((None, whole))
}

/// What the referee says of the story; `None` where no manager may be made for the setting.
pub(crate) fn ruling_on(
    alloc: Global,
    s: &Setting,
    choices: Choices,
    entries: &[Entry],
) -> Result<Option<Ruling>, Memory> {
    let Some(terms) = terms_of(alloc, s)? else {
        return Ok(None);
    };
    let ruling = judge(alloc, &terms, choices, entries)?;
    Ok(Some(ruling))
}

// Whether both judges say the same of the story by these choices.
fn agree_by(alloc: Global, s: &Setting, choices: Choices, entries: &[Entry]) -> Result<bool, Memory>
    requires { IsSmall s.now }
{
    let plain = plainly(alloc, s, choices, entries)?;
    let found = match ruling_on(alloc, s, choices, entries)? {
        Some(Ruling::Legal { whole, .. }) => (None, whole),
        Some(Ruling::Illegal { place, .. }) => (Some(place), false),
        None => return Ok(false),
    };
    Ok(found == plain)
}

/// Whether both judges say the same of the story, under its policy and where choices are free. The setting begins with
/// the policy's first cursor.
pub(crate) fn agree(alloc: Global, s: &Setting, entries: &[Entry]) -> Result<bool, Memory>
    requires { IsSmall s.now }
{
    let of_policy = agree_by(alloc, s, Choices::OfPolicy, entries)?;
    let free = agree_by(alloc, s, Choices::Free, entries)?;
    Ok(of_policy && free)
}
