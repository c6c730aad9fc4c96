// The scans of one worker, one after another.
ghost use Rattle.std.specs.Prelude.{◌≡◌, ◌<◌, [], All, None, length};
ghost use Rattle.std.specs.List.{AllZip};
ghost use Rattle.std.specs.Thread.{IsSend, IsSync};
ghost use Rattle.scan_story.specs.Legal.{Legal};
ghost use Rattle.scan_story.specs.MayFollow.{MayRegister};
ghost use Rattle.scan_story.specs.Setting.{IsStart};
ghost use Rattle.scan_story.specs.Views.{past};
ghost use Rattle.cscan.specs.Scans.{Fits, IsOver};
ghost use Rattle.cscan.specs.Stations.{IsSeated};
ghost use Rattle.batch_ends.specs.Came.{CameFor};
ghost use Rattle.batch_run.specs.Jobs.{IsJob};
ghost use Rattle.batch_run.specs.Workers.{HasDone, IsReady, Ran};

use crate::part::{Unfinished, scan_part};
use crate::shop::Shop;
use crate::worker::Worker;
use abm_policy::Desk;
use batch_ends::Job;
use baton::Baton;
use coop_outside::Depot;
use cscan::{CScan, Gate, Station};
use frame_pool::{Content, Pool};
use interest_book::Policy;
use piece_format::Shape;
use query_gather::Partial;
use scan_story::{Cause, Origin};
use sql_bind::Plan;
use std::alloc::Global;
use std::sync::Wait;
use std::thread;
use std::thread::Threads;

/// Runs one scan on the worker's station: what it gathered, or why it was stopped. Running out of memory stops it.
pub(crate) fn run_scan<S: Origin, C: Content, P: Policy, D: Depot, T: Gate, R: Wait>(
    rt: &R,
    alloc: Global,
    shop: &Shop<'_, S, C, P, D, T>,
    shape: &Shape,
    station: &mut Station<S, C, P, D>,
    job: &Job<'_>,
) -> Result<Partial, Cause>
    requires start { IsStart S.origin }
    requires seated { IsSeated shop.now.baton.now shop.now.pool.now S.origin [] station.old }
    requires fits { Fits S.origin C.pieces shape.now shop.now.pool.now }
    requires job { IsJob S.origin.setting shape.now job.now }
    requires worker { station.old.number ≡ job.now.worker }
    requires legal { Legal S.origin.setting (past station.old.pass.seen) }
    requires may { MayRegister S.origin.setting (past station.old.pass.seen) station.old.number job.now.number }
    ensures number { station.new.number ≡ station.old.number }
    ensures over { IsOver S.origin shop.now.baton.now shop.now.pool.now job.now.number station.new }
    ensures ran { Ran job.now.number station.old.pass station.new.pass }
    ensures came { CameFor S.origin C.pieces shape.now station.new.pass.seen job.now.number job.now.plan.now result }
{
    let mut scan = CScan::begin(rt, shop.baton, shop.pool, shape, station, job.number);
    let Ok(into) = Partial::of(alloc, job.plan) else {
        return Err(scan.stop(rt));
    };
    match scan_part(rt, &mut scan, shape, job.plan, into, shop.gate) {
        Ok(partial) => Ok(partial),
        Err(Unfinished::Stopped(cause)) => Err(cause),
        Err(Unfinished::Memory) => Err(scan.stop(rt)),
    }
}

/// Runs the worker's scans, in their order.
pub(crate) fn run_all<S: Origin, C: Content, P: Policy, D: Depot, T: Gate, R: Wait>(
    rt: &R,
    shop: &Shop<'_, S, C, P, D, T>,
    worker: &mut Worker<'_, S, C, P, D>,
)
    requires { IsReady S.origin C.pieces shop.now worker.old }
    ensures { HasDone S.origin C.pieces shop.now worker.old worker.new }
{
    for job in shop.jobs {
        if job.worker == worker.number {
            let shape = worker.shape;
            let result = run_scan(rt, worker.alloc, shop, shape, &mut worker.station, job);
            worker.results.push_back_reserved(result);
        }
    }
}

// Says of a type whose values threads may share that they may.
fn may_be_shared<K: Sync>()
    ensures { IsSync K.row }
{}

/// Lets all workers run their scans at once, each in a thread of its own as far as there are threads. At most so many
/// are started beside the caller's. Where there are fewer than workers, or one is refused, a thread runs several of
/// them, one after another.
pub(crate) fn run_at_once<
    S: Origin + Send + Sync,
    C: Content + Send + Sync,
    P: Policy,
    D: Depot + Send,
    T: Gate + Sync,
    R: Threads + Wait + Sync,
>(rt: &R, shop: &Shop<'_, S, C, P, D, T>, workers: &mut [Worker<'_, S, C, P, D>], most_threads: u32)
    requires some { 0 < length workers.old }
    requires ready { All (IsReady S.origin C.pieces shop.now) workers.old }
    ensures { AllZip (HasDone S.origin C.pieces shop.now) workers.old workers.new }
{
    may_be_shared::<Baton<Desk<S, P, D>>>();
    may_be_shared::<Pool<C>>();
    may_be_shared::<Plan>();
    let threads = most_threads as usize + 1;
    thread::for_each_mut(
        rt,
        workers,
        threads,
        &|_, worker|
            requires { IsSend P.row × IsReady S.origin C.pieces shop.now worker.now }
            ensures { HasDone S.origin C.pieces shop.entry.now worker.entry.now worker.exit.now }
        { run_all(rt, shop, worker) },
    );
}
