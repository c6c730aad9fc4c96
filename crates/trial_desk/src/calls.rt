//! Calls of a desk, one after another.
ghost use Rattle.std.specs.Prelude.{◌≡◌, None};
ghost use Rattle.abm_policy.specs.Depots.{depot_view};
ghost use Rattle.abm_policy.specs.Sound.{start_of};
ghost use Rattle.trial_desk.specs.Rigged.{under};

use crate::rig::Rig;
use crate::said::Said;
use coop_outside::SpoiltDepot;
use interest_book::Memory;
use relevance::Policy;
use scan_story::{Origin, Setting};
use std::alloc::Global;
use std::marker::Brand;

/// A call of a desk. Workers count from 0, queries from 1.
#[derive(Clone, Copy, Debug, PartialEq, Eq)]
pub enum Call {
    /// Registers the query on the worker.
    Register { worker: u32, query: u32 },
    /// A turn for the query that runs on the worker.
    Turn { worker: u32 },
    /// Releases what the worker holds.
    Release { worker: u32 },
    /// Reads for the load that is out, and ends it.
    Close,
}

fn answer<S: Origin, P: Policy>(s: &Setting, rig: &mut Rig<S, P>, call: Call) -> Option<Said>
    requires { s.now.needs ≡ S.origin.setting.needs }
{
    match call {
        Call::Register { worker, query } => return rig.register(s, worker, query),
        Call::Turn { worker } => return rig.turn(worker),
        Call::Release { worker } => return rig.release(worker),
        Call::Close => return rig.close(),
    }
}

fn answers_in<S: Origin, P: Policy>(
    alloc: Global,
    s: &Setting,
    policy: P,
    depot: SpoiltDepot,
    calls: &[Call],
) -> Result<Option<Vec<Said>>, Memory>
    requires { S.origin ≡ start_of (under s.now (P.name policy) (P.cursor policy))
        (depot_view None depot.inner.gets depot.inner.faults) }
{
    let Some(mut rig) = Rig::<S, P>::new(alloc, s, policy, depot)? else {
        return Ok(None);
    };
    let mut said = Vec::new(alloc);
    for call in calls {
        let Some(one) = answer(s, &mut rig, *call) else {
            return Ok(None);
        };
        said.push(one)?;
    }
    Ok(Some(said))
}

/// What a new desk answers to these calls. `None` where there can be no desk for the setting, or where a call may not
/// come; the error is out of memory.
pub fn answers<P: Policy>(
    alloc: Global,
    s: &Setting,
    policy: P,
    depot: SpoiltDepot,
    calls: &[Call],
) -> Result<Option<Vec<Said>>, Memory> {
    answers_in::<Brand, P>(alloc, s, policy, depot, calls)
}
