ghost use Rattle.std.specs.Prelude.{◌≡◌, ◌↔◌, ℕ, IfOk, IsTrue};
ghost use Rattle.scan_story.specs.Views.{past};
ghost use Rattle.scan_story.specs.Loads.{underway};
ghost use Rattle.scan_story.specs.MayFollow.{Allowed};
ghost use Rattle.scan_story.specs.Legal.{cursor_at, Chosen, Legal};
ghost use Rattle.help_views.specs.Small.{IsSmall};
ghost use Rattle.help_judge.specs.Tests.{follows, is_legal};
ghost use Rattle.help_judge.specs.First.{IsFirstIllegal};

use crate::choices::chooses;
use crate::may::allows;
use help_views::{cursor_at, underway};
use scan_story::{Entry, Load, Setting};
use std::alloc::{AllocError, Global};

/// Whether the entry may follow the entries and takes a choice of the policy.
fn follows(
    s: &Setting,
    entries: &[Entry],
    load: &Option<Load>,
    cursor: &[u64],
    entry: &Entry,
) -> bool
    requires small { IsSmall s.now }
    requires load { load.now ≡ underway s.now (past entries.now) }
    requires cursor { cursor.now ≡ cursor_at s.now (past entries.now) }
    ensures { result ≡ follows s.now (past entries.now) entry.now }
{
    allows(s, entries, load, entry) && chooses(s, entries, load, cursor, entry)
}

fn followed(
    alloc: Global,
    s: &Setting,
    entries: &[Entry],
    entry: &Entry,
) -> Result<bool, AllocError>
    requires { IsSmall s.now }
    ensures { IfOk result (λ b. b ≡ follows s.now (past entries.now) entry.now) }
{
    let load = underway(alloc, s, entries)?;
    let cursor = cursor_at(alloc, s, entries)?;
    Ok(follows(s, entries, &load, cursor.as_slice(), entry))
}

/// Whether the entry may follow the entries, whichever policy would choose what it takes. The setting has at most 256
/// needs, and 1 to 16 groups. The error is out of memory.
pub fn may_follow(
    alloc: Global,
    s: &Setting,
    entries: &[Entry],
    entry: &Entry,
) -> Result<bool, AllocError>
    requires { IsSmall s.now }
    ensures { IfOk result (λ b. IsTrue b ↔ Allowed s.now (past entries.now) entry.now) }
{
    let load = underway(alloc, s, entries)?;
    let may = allows(s, entries, &load, entry);
    Ok(may)
}

/// Whether the entry may come after the entries: it may follow them, and takes a choice of the policy. The setting has
/// at most 256 needs, and 1 to 16 groups. The error is out of memory.
pub fn may_come(
    alloc: Global,
    s: &Setting,
    entries: &[Entry],
    entry: &Entry,
) -> Result<bool, AllocError>
    requires { IsSmall s.now }
    ensures { IfOk result (λ b. IsTrue b ↔ (Allowed s.now (past entries.now) entry.now
        × Chosen s.now (past entries.now) entry.now)) }
{
    let may = followed(alloc, s, entries, entry)?;
    Ok(may)
}

fn judged(alloc: Global, s: &Setting, entries: &[Entry]) -> Result<bool, AllocError>
    requires { IsSmall s.now }
    ensures { IfOk result (λ b. b ≡ is_legal s.now (past entries.now)) }
{
    match entries {
        [] => Ok(true),
        [rest @ .., last] => {
            let before = judged(alloc, s, rest)?;
            let here = followed(alloc, s, rest, last)?;
            Ok(here && before)
        }
    }
}

/// Whether the entries are a legal story of the setting, which has at most 256 needs, and 1 to 16 groups. The error is
/// out of memory.
pub fn is_legal(alloc: Global, s: &Setting, entries: &[Entry]) -> Result<bool, AllocError>
    requires { IsSmall s.now }
    ensures { IfOk result (λ b. IsTrue b ↔ Legal s.now (past entries.now)) }
{
    let legal = judged(alloc, s, entries)?;
    Ok(legal)
}

/// The place, from 0, of the first entry that may not come where it stands; `None` where the story is legal. The
/// setting has at most 256 needs, and 1 to 16 groups. The error is out of memory.
pub fn first_illegal(
    alloc: Global,
    s: &Setting,
    entries: &[Entry],
) -> Result<Option<usize>, AllocError>
    requires { IsSmall s.now }
    ensures { IfOk result (λ place. IsFirstIllegal s.now entries.now place) }
{
    for i in 0..entries.len() {
        let may = followed(alloc, s, &entries[..i], &entries[i])?;
        if !may {
            return Ok(Some(i));
        }
    }
    Ok(None)
}
