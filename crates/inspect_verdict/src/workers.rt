// The order in which all workers register their queries.
ghost use Rattle.std.specs.Prelude.{◌≡◌, ◌≤◌, IfOk, List, length, map};
ghost use Rattle.chunk_interest.specs.Fresh.{as_need};
ghost use Rattle.scan_story.specs.declared.setting.Setting.{Setting as SettingOf};
ghost use Rattle.inspect_verdict.specs.Words as spec;

use crate::order::{Turns, turns_of};
use chunk_interest::Need;
use scan_story::Entry;
use std::alloc::{AllocError, Global};

// The queries of a worker, in the order of the needs.
fn due_on(alloc: Global, needs: &[Need], worker: u32) -> Result<Vec<u32>, AllocError>
    ensures { IfOk result (λ due. due.items ≡ spec.due_among (map as_need needs.now) worker) }
{
    let mut due = Vec::new(alloc);
    for need in needs {
        if need.worker == worker {
            due.push(need.query)?;
        }
    }
    Ok(due)
}

// What is known with one worker more.
fn both_turns(one: Turns, other: Turns) -> Turns
    ensures { result ≡ spec.both_turns one other }
{
    match other {
        Turns::Broken { .. } => other,
        Turns::All => one,
        Turns::Some => match one {
            Turns::All => other,
            _ => one,
        },
    }
}

/// The entries before the first that is out of order.
pub(crate) fn in_order(turns: Turns, story: &[Entry]) -> &[Entry]
    requires { spec.IsInside turns (length story.now) }
    ensures { result.now ≡ spec.in_order turns story.now }
{
    match turns {
        Turns::Broken { place, .. } => &story[..place],
        _ => story,
    }
}

/// Whether each of so many workers registers its queries in the order of the needs; or the place of the first entry of
/// all that is out of order.
pub(crate) fn order_of(
    alloc: Global,
    needs: &[Need],
    workers: u32,
    story: &[Entry],
) -> Result<Turns, AllocError>
    ensures order { (s : SettingOf) → s.needs ≡ map as_need needs.now → s.workers ≡ workers
        → IfOk result (spec.IsOrder s story.now workers) }
{
    let mut turns = Turns::All;
    for worker in 0..workers {
        let due = due_on(alloc, needs, worker)?;
        let more = turns_of(in_order(turns, story), worker, &due);
        turns = both_turns(turns, more);
    }
    Ok(turns)
}
