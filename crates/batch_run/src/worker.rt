// A worker of a batch.
ghost use Rattle.std.specs.Prelude.{◌≡◌, ◌≤◌, false, [], IfErr, IfOk, vec_len};
ghost use Rattle.std.specs.VecDeque.{deque_capacity};
ghost use Rattle.frame_pool.specs.Berths.{IsBlank};

use abm_policy::Desk;
use baton::Pass;
use coop_outside::Depot;
use cscan::Station;
use frame_pool::{Berth, Content};
use interest_book::Policy;
use piece_format::Shape;
use query_gather::Partial;
use scan_story::{Cause, Memory, Origin};
use std::alloc::Global;
use std::collections::VecDeque;

/// A worker: where it takes memory, its number, the table's shape, its station, and what came of its scans, in the
/// order in which it ran them.
pub(crate) struct Worker<'a, S: Origin, C: Content, P: Policy, D: Depot> {
    pub(crate) alloc: Global,
    pub(crate) number: u32,
    pub(crate) shape: &'a Shape,
    pub(crate) station: Station<S, C, P, D>,
    pub(crate) results: VecDeque<Result<Partial, Cause>>,
}

impl<'a, S: Origin, C: Content, P: Policy, D: Depot> Worker<'a, S, C, P, D> {
    /// A worker that has run no scan, with room for so many results.
    pub(crate) fn new(
        alloc: Global,
        number: u32,
        shape: &'a Shape,
        berth: Berth<C>,
        pass: Pass<Desk<S, P, D>>,
        piece_bytes: u32,
        jobs: usize,
    ) -> Result<Worker<'a, S, C, P, D>, (Berth<C>, Pass<Desk<S, P, D>>)>
        requires number { pass.number ≡ number }
        requires free { pass.holding ≡ false }
        requires blank { IsBlank berth }
        ensures number { IfOk result (λ w. (w.number ≡ number) × (w.station.number ≡ number)) }
        ensures shape { IfOk result (λ w. w.shape.now ≡ shape.now) }
        ensures parts { IfOk result (λ w. (w.station.berth ≡ berth) × (w.station.pass ≡ pass)) }
        ensures buf { IfOk result (λ w. vec_len w.station.buf ≡ piece_bytes) }
        ensures none { IfOk result (λ w. w.results.items ≡ []) }
        ensures room { IfOk result (λ w. jobs ≤ deque_capacity w.results) }
        ensures back { IfErr result (λ r. (r.0 ≡ berth) × (r.1 ≡ pass)) }
    {
        let Ok(results) = VecDeque::with_capacity(alloc, jobs) else {
            return Err((berth, pass));
        };
        match Station::new(alloc, number, berth, pass, piece_bytes) {
            Ok(station) => Ok(Worker {
                alloc,
                number,
                shape,
                station,
                results,
            }),
            Err((berth, pass, Memory)) => Err((berth, pass)),
        }
    }
}
