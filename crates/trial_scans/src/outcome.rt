//! What becomes of a trial.
ghost use Rattle.std.specs.Prelude.{◌≡◌, ◌<◌, All, vec_len};
ghost use Rattle.baton.specs.Passes.{IsFree};

use crate::notes::Notes;
use abm_policy::Desk;
use baton::{Baton, Pass};
use coop_outside::{Depot, SpoiltDepot};
use relevance::Policy;
use scan_story::{Entry, Origin};
use std::sync::Wait;

/// What becomes of a trial.
#[derive(Debug, Drop)]
pub struct Outcome {
    /// The desk's story.
    pub story: Vec<Entry>,
    pub notes: Notes,
    /// The depot's counts at the end.
    pub gets: u64,
    pub faults: u64,
}

/// Ends the baton and takes its desk apart; `None` where a load is left underway.
pub(crate) fn ended<S: Origin, P: Policy, R: Wait>(
    rt: &R,
    baton: Baton<Desk<S, P, SpoiltDepot>>,
    passes: Vec<Pass<Desk<S, P, SpoiltDepot>>>,
    notes: Notes,
) -> Option<Outcome>
    requires some { 0 < vec_len passes }
    requires free { All (IsFree baton) passes.items }
{
    let desk = baton.finish(rt, passes);
    if desk.book().underway().is_some() {
        return None;
    }
    let (story, _policy, depot) = desk.into_parts();
    Some(Outcome {
        story,
        notes,
        gets: depot.inner.gets,
        faults: depot.faults(),
    })
}
