//! A desk that two passes hand on.
ghost use Rattle.std.specs.Prelude.{◌≡◌, None};
ghost use Rattle.abm_policy.specs.Depots.{depot_view};
ghost use Rattle.abm_policy.specs.Sound.{start_of};
ghost use Rattle.scan_story.specs.MayFollow.{MayRegister};
ghost use Rattle.scan_story.specs.Views.{past};
ghost use Rattle.cscan.specs.Stations.{Waits};
ghost use Rattle.trial_scans.specs.Trials.{under};

use crate::desks::desk_of;
use crate::fitting::is_on;
use crate::notes::Notes;
use crate::outcome::{Outcome, ended};
use abm_policy::Desk;
use baton::{Baton, Pass};
use coop_outside::{Depot, SpoiltDepot};
use relevance::Policy;
use scan_story::{Memory, Origin, Setting};
use std::alloc::Global;
use std::marker::Brand;
use std::sync::Wait;

// A pass takes the desk, registers a query on its worker, and gives the desk back.
fn register<S: Origin, P: Policy, D: Depot, R: Wait>(
    rt: &R,
    baton: &Baton<Desk<S, P, D>>,
    pass: &mut Pass<Desk<S, P, D>>,
    worker: u32,
    query: u32,
)
    requires waits { Waits baton.now S.origin worker pass.old }
    requires may { MayRegister S.origin.setting (past pass.old.seen) worker query }
    ensures waits { Waits baton.now S.origin worker pass.new }
{
    let mut desk = baton.take(rt, pass);
    desk.is_legal();
    desk.register(worker, query);
    baton.give(rt, pass, desk);
}

fn hand_on_in<S: Origin, P: Policy, R: Wait>(
    rt: &R,
    alloc: Global,
    s: &Setting,
    policy: P,
    depot: SpoiltDepot,
) -> Result<Option<Outcome>, Memory>
    requires { S.origin ≡ start_of (under s.now (P.name policy) (P.cursor policy))
        (depot_view None depot.inner.gets depot.inner.faults) }
{
    let Some(desk) = desk_of::<S, P>(alloc, s, policy, depot)? else {
        return Ok(None);
    };
    if !is_on(s, 0, 1) || !is_on(s, 1, 2) {
        return Ok(None);
    }
    let (baton, mut passes) = match Baton::new(alloc, desk, 2) {
        Ok(made) => made,
        Err(_parts) => return Err(Memory),
    };
    register(rt, &baton, &mut passes[1], 1, 2);
    register(rt, &baton, &mut passes[0], 0, 1);
    Ok(ended(rt, baton, passes, Notes::new(alloc)))
}

/// The second of two passes registers query 2 on worker 1, and then the first registers query 1 on worker 0.
///
/// `None` where there can be no desk for the setting, or its needs name other workers. The error is out of memory.
pub fn hand_on<P: Policy, R: Wait>(
    rt: &R,
    alloc: Global,
    s: &Setting,
    policy: P,
    depot: SpoiltDepot,
) -> Result<Option<Outcome>, Memory> {
    hand_on_in::<Brand, P, R>(rt, alloc, s, policy, depot)
}
