// What all workers of a batch share.

use abm_policy::Desk;
use batch_ends::Job;
use baton::Baton;
use coop_outside::Depot;
use frame_pool::{Content, Pool};
use interest_book::Policy;
use scan_story::Origin;

/// What all workers of a batch share: the baton of the desk, the pool of frames, the scans to be run, and the gate.
#[derive(Drop)]
pub(crate) struct Shop<'a, S: Origin, C: Content, P: Policy, D: Depot, T> {
    pub(crate) baton: &'a Baton<Desk<S, P, D>>,
    pub(crate) pool: &'a Pool<C>,
    pub(crate) jobs: &'a [Job<'a>],
    pub(crate) gate: &'a T,
}
