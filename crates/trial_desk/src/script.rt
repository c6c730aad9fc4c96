//! The calls that a story asks for.
ghost use Rattle.std.specs.Prelude.{◌≡◌, None};
ghost use Rattle.abm_policy.specs.Depots.{depot_view};
ghost use Rattle.abm_policy.specs.Sound.{start_of};
ghost use Rattle.trial_desk.specs.Rigged.{under};

use crate::rig::Rig;
use crate::said::Said;
use coop_outside::SpoiltDepot;
use interest_book::Memory;
use relevance::Policy;
use scan_story::{Entry, Origin, Setting};
use std::alloc::Global;
use std::marker::Brand;

// Registers the query. Where another one ran on the worker that was stopped, a turn tells so first.
fn register<S: Origin, P: Policy>(s: &Setting, rig: &mut Rig<S, P>, w: u32, q: u32) -> Option<Said>
    requires { s.now.needs ≡ S.origin.setting.needs }
{
    if rig.on(w).is_some() {
        let _stopped = rig.turn(w);
    }
    rig.register(s, w, q)
}

// The call that the entry is of. The entries of a load after its first one, and those of its end after the first, ask
// for none.
fn follow<S: Origin, P: Policy>(s: &Setting, rig: &mut Rig<S, P>, entry: &Entry) -> Option<Said>
    requires { s.now.needs ≡ S.origin.setting.needs }
{
    match *entry {
        Entry::Register { worker, query } => return register(s, rig, worker, query),
        Entry::Plan { worker, .. } => return rig.turn(worker),
        Entry::Deliver { worker, .. } => return rig.turn(worker),
        Entry::End { worker, .. } => return rig.turn(worker),
        Entry::Release { worker, .. } => return rig.release(worker),
        Entry::Stop { worker, .. } => return rig.stop(worker),
        Entry::Filled { .. } => return rig.close(),
        Entry::Failed { .. } => return rig.close(),
        Entry::Evict { .. } => return None,
        Entry::Fill { .. } => return None,
    }
}

fn play_in<S: Origin, P: Policy>(
    alloc: Global,
    s: &Setting,
    policy: P,
    depot: SpoiltDepot,
    entries: &[Entry],
) -> Result<Option<(Vec<Entry>, SpoiltDepot)>, Memory>
    requires { S.origin ≡ start_of (under s.now (P.name policy) (P.cursor policy))
        (depot_view None depot.inner.gets depot.inner.faults) }
{
    let Some(mut rig) = Rig::<S, P>::new(alloc, s, policy, depot)? else {
        return Ok(None);
    };
    for entry in entries {
        let _said = follow(s, &mut rig, entry);
    }
    let _said = rig.close();
    match rig.finish() {
        Some((story, _policy, depot)) => Ok(Some((story, depot))),
        None => Ok(None),
    }
}

/// Makes the calls that the story asks for on a new desk, and gives what becomes of it: the desk's own story and
/// the depot. A load that the story leaves underway is ended. `None` where there can be no desk for the setting;
/// the error is out of memory.
pub fn play<P: Policy>(
    alloc: Global,
    s: &Setting,
    policy: P,
    depot: SpoiltDepot,
    entries: &[Entry],
) -> Result<Option<(Vec<Entry>, SpoiltDepot)>, Memory> {
    play_in::<Brand, P>(alloc, s, policy, depot, entries)
}
