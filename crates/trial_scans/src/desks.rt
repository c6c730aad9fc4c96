//! The desk of a trial.
ghost use Rattle.std.specs.Prelude.{◌≡◌, ◌≤◌, ◌*◌, [], None, IfOk, IfSome};
ghost use Rattle.abm_policy.specs.Depots.{depot_view};
ghost use Rattle.abm_policy.specs.Sound.{start_of};
ghost use Rattle.piece_format.specs.Shape.{frame_words};
ghost use Rattle.scan_story.specs.Setting.{HasRoom};
ghost use Rattle.trial_scans.specs.Trials.{FitEachOther, under};

use crate::fitting::has_room;
use abm_policy::Desk;
use coop_outside::SpoiltDepot;
use help_book::{book_needs, has_numbers};
use relevance::Policy;
use scan_story::{Memory, Origin, Setting};
use std::alloc::Global;

/// A desk before its first entry; `None` where there can be none for the setting. The error is out of memory.
pub(crate) fn desk_of<S: Origin, P: Policy>(
    alloc: Global,
    s: &Setting,
    policy: P,
    depot: SpoiltDepot,
) -> Result<Option<Desk<S, P, SpoiltDepot>>, Memory>
    requires { S.origin ≡ start_of (under s.now (P.name policy) (P.cursor policy))
        (depot_view None depot.inner.gets depot.inner.faults) }
    ensures { IfOk result (λ o. IfSome o (λ d. d ≡ [])) }
{
    if !has_numbers(s) {
        return Ok(None);
    }
    if !has_room(s) {
        return Ok(None);
    }
    if depot.inner.gets > 1 << 63 {
        return Ok(None);
    }
    let Ok(needs) = book_needs(alloc, s) else {
        return Err(Memory);
    };
    let Some(needs) = needs else {
        return Ok(None);
    };
    match Desk::<S, P, SpoiltDepot>::new(
        alloc, needs, s.chunks, s.workers, s.frames, s.groups, policy, depot,
    ) {
        Ok(desk) => Ok(Some(desk)),
        Err(_parts) => Err(Memory),
    }
}
