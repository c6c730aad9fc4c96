// All workers of a batch.
ghost use Rattle.std.specs.Prelude.{◌≡◌, ◌≤◌, ◌<◌, ◌+◌, ◌*◌, ◌++◌, [], All, OnOk, map, reverse, vec_len, vec_capacity};
ghost use Rattle.baton.specs.Passes.{new_passes};
ghost use Rattle.batch_run.specs.Crews.{AreFresh, IsCrew, passes_of};

use crate::worker::Worker;
use abm_policy::Desk;
use baton::{Baton, Pass};
use coop_outside::Depot;
use frame_pool::{Berth, Content, Pool};
use interest_book::Policy;
use piece_format::Shape;
use query_gather::Partial;
use scan_story::{Cause, Memory, Origin};
use std::alloc::Global;
use std::collections::VecDeque;

/// All workers, and the berths and passes of those that have no station yet.
pub(crate) struct Crew<'a, S: Origin, C: Content, P: Policy, D: Depot> {
    pub(crate) workers: Vec<Worker<'a, S, C, P, D>>,
    pub(crate) berths: Vec<Berth<C>>,
    pub(crate) passes: Vec<Pass<Desk<S, P, D>>>,
}

/// Makes a worker of each pass and a berth, the one with the last number first. Where memory runs out, those that are
/// made stay, and the others have their berths and passes still.
pub(crate) fn seat_all<'a, S: Origin, C: Content, P: Policy, D: Depot>(
    alloc: Global,
    baton: &Baton<Desk<S, P, D>>,
    pool: &Pool<C>,
    crew: &mut Crew<'a, S, C, P, D>,
    shape: &'a Shape,
    piece_bytes: u32,
    jobs: usize,
) -> Result<(), Memory>
    requires crew { IsCrew S.origin baton.now pool.now crew.old }
    requires fresh { AreFresh baton.now S.origin shape.now jobs crew.old }
    requires bytes { piece_bytes ≡ 8 * pool.now.shape.words }
    ensures crew { IsCrew S.origin baton.now pool.now crew.new }
    ensures fresh { AreFresh baton.now S.origin shape.now jobs crew.new }
    ensures passes { passes_of crew.new ≡ passes_of crew.old }
    ensures all { OnOk result (crew.new.passes.items ≡ []) }
{
    while let Some(pass) = crew.passes.pop() {
        let Some(berth) = crew.berths.pop() else {
            unreachable!()
        };
        let number = crew.passes.len() as u32;
        match Worker::new(alloc, number, shape, berth, pass, piece_bytes, jobs) {
            Ok(worker) => crew.workers.push_reserved(worker),
            Err((berth, pass)) => {
                crew.berths.push_reserved(berth);
                crew.passes.push_reserved(pass);
                return Err(Memory);
            }
        }
    }
    Ok(())
}

/// Takes each worker apart into its berth, its pass, and what came of its scans, the last one first.
pub(crate) fn unseat_all<S: Origin, C: Content, P: Policy, D: Depot>(
    baton: &Baton<Desk<S, P, D>>,
    pool: &Pool<C>,
    crew: &mut Crew<'_, S, C, P, D>,
    lists: &mut Vec<VecDeque<Result<Partial, Cause>>>,
)
    requires crew { IsCrew S.origin baton.now pool.now crew.old }
    requires room { vec_len lists.old + vec_len crew.old.workers ≤ vec_capacity lists.old }
    ensures crew { IsCrew S.origin baton.now pool.now crew.new }
    ensures empty { crew.new.workers.items ≡ [] }
    ensures passes { passes_of crew.new ≡ passes_of crew.old }
    ensures lists { lists.new.items ≡ lists.old.items ++ reverse (map (λ w. w.results) crew.old.workers.items) }
{
    while let Some(worker) = crew.workers.pop() {
        let Worker {
            alloc: _,
            number: _,
            shape: _,
            station,
            results,
        } = worker;
        let (berth, pass) = station.into_parts();
        crew.berths.push_reserved(berth);
        crew.passes.push_reserved(pass);
        lists.push_reserved(results);
    }
}
