//! Calls of a desk at random.
ghost use Rattle.std.specs.Prelude.{◌≡◌, ◌<◌, None};
ghost use Rattle.abm_policy.specs.Depots.{depot_view};
ghost use Rattle.abm_policy.specs.Sound.{start_of};
ghost use Rattle.trial_desk.specs.Rigged.{under};

use crate::rig::Rig;
use crate::said::Said;
use coop_outside::SpoiltDepot;
use help_walks::below;
use interest_book::Memory;
use rand_pcg::Pcg32;
use relevance::Policy;
use scan_story::{Entry, Origin, Setting};
use std::alloc::Global;
use std::marker::Brand;

/// What becomes of a walk.
#[derive(Drop)]
pub struct Walked {
    /// The desk's story.
    pub story: Vec<Entry>,
    /// Each call and its answer, the oldest first.
    pub said: Vec<Said>,
    pub depot: SpoiltDepot,
}

// Registers the first query of the worker that wasn't yet.
fn register_next<S: Origin, P: Policy>(s: &Setting, rig: &mut Rig<S, P>, w: u32) -> Option<Said>
    requires { s.now.needs ≡ S.origin.setting.needs }
{
    match rig.next_on(s, w) {
        Some(query) => rig.register(s, w, query),
        None => None,
    }
}

// What the worker does next; at times it does nothing, and one time in 32 it gives up in place of a turn.
fn act<S: Origin, P: Policy>(s: &Setting, rig: &mut Rig<S, P>, w: u32, kind: u32) -> Option<Said>
    requires { s.now.needs ≡ S.origin.setting.needs }
{
    if rig.loads(w) {
        return if kind < 12 { rig.close() } else { None };
    }
    if rig.holds(w).is_some() {
        return if kind < 16 { rig.release(w) } else { None };
    }
    if rig.on(w).is_none() {
        return register_next(s, rig, w);
    }
    if kind == 0 {
        return rig.stop(w);
    }
    rig.turn(w)
}

fn walk_in<S: Origin, P: Policy>(
    alloc: Global,
    s: &Setting,
    policy: P,
    depot: SpoiltDepot,
    seed: u64,
    steps: u32,
) -> Result<Option<Walked>, Memory>
    requires { S.origin ≡ start_of (under s.now (P.name policy) (P.cursor policy))
        (depot_view None depot.inner.gets depot.inner.faults) }
{
    let Some(mut rig) = Rig::<S, P>::new(alloc, s, policy, depot)? else {
        return Ok(None);
    };
    let mut rng = Pcg32::new(seed, 23);
    let mut said = Vec::new(alloc);
    for _step in 0..steps {
        let w = below(&mut rng, s.workers);
        let kind = below(&mut rng, 32);
        if let Some(one) = act(s, &mut rig, w, kind) {
            said.push(one)?;
        }
    }
    match rig.finish() {
        Some((story, _policy, depot)) => Ok(Some(Walked { story, said, depot })),
        None => Ok(None),
    }
}

/// Makes calls at random on a new desk, drawn from the seed in so many steps. `None` where there can be no desk for the
/// setting, or where a load is left underway; the error is out of memory.
pub fn walk<P: Policy>(
    alloc: Global,
    s: &Setting,
    policy: P,
    depot: SpoiltDepot,
    seed: u64,
    steps: u32,
) -> Result<Option<Walked>, Memory> {
    walk_in::<Brand, P>(alloc, s, policy, depot, seed, steps)
}
