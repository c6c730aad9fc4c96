// What a run with boxed policies leaves.
ghost use Rattle.std.specs.Prelude.{◌≡◌, [], Err};
ghost use Rattle.run_ends.specs.OverDevices.{sink_over};
ghost use Rattle.run_ends.specs.Ending.{Prints};

use crate::policy_run::PolicyRun;
use crate::settled::{Settled, refuse};
use coop_outside::Sink;
use run_stops::Stop;
use std::alloc::Global;

/// What a run with boxed policies leaves.
#[derive(Drop)]
pub struct BoxedEnd<D> {
    /// How it ended, from 0 to 9; docs/COMMAND_LINE.md lists them.
    pub status: u8,
    /// What the workers did under the policy that was taken, or under each of those that are compared; where the work
    /// ends early, there is a run for each policy whose workers had run.
    pub runs: Vec<PolicyRun>,
    /// The depot, with the table's pieces where they were put.
    pub depot: D,
}

/// What is left where no worker runs.
pub fn stop_before<D, O: Sink>(alloc: Global, stop: Stop, depot: D, out: &mut O) -> BoxedEnd<D>
    ensures prints { Prints (Err stop) result.status (sink_over O.Sink out.old out.new) }
    ensures depot { result.depot ≡ depot }
    ensures runs { result.runs.items ≡ [] }
{
    let Settled { status, depot, .. } = refuse(stop, depot, out);
    BoxedEnd {
        status,
        runs: Vec::new(alloc),
        depot,
    }
}
