// The run with one policy.
ghost use Rattle.std.specs.Prelude.{◌≤◌, ◌^◌};
ghost use Rattle.run_ends.specs.Devices.{depot_at};
ghost use Rattle.run_ends.specs.Running.{CanRun};
ghost use Rattle.run_ends.specs.Policies.{policy_at};
ghost use Rattle.run_ends.specs.PolicyRuns.{RunComesTo};

use crate::answering::answer;
use crate::taken_policy::TakenPolicy;
use coop_outside::Depot;
use cscan::Gate;
use interest_book::Policy;
use run_ends::{Answered, Ending, name_of, run_of};
use run_inputs::Inputs;
use run_output::status_of;
use std::alloc::Global;
use std::sync::Wait;
use std::thread::Threads;

/// Runs the batch with this policy: what it comes to, and the depot.
pub(crate) fn run_single<D: Depot + Send, T: Gate + Sync, R: Threads + Wait + Sync>(
    rt: &R,
    alloc: Global,
    inputs: Inputs,
    depot: D,
    policy: Box<dyn Policy + Send>,
    gate: &T,
) -> (Ending, D)
    requires can { CanRun inputs }
    requires gets { D.gets depot ≤ 2 ^ 63 }
    ensures comes { RunComesTo inputs (policy_at (name policy) (cursor policy))
        (depot_at (D.held depot) (D.gets depot) (D.faults depot))
        (depot_at (D.held result.1) (D.gets result.1) (D.faults result.1)) result.0 }
{
    let name = name_of(&policy);
    match answer(rt, alloc, inputs, depot, TakenPolicy { policy }, gate) {
        Ok(answered) => {
            let Answered {
                outcomes,
                answers,
                ran,
                depot,
                ..
            } = answered;
            let status = status_of(&outcomes, &answers);
            (Ending::Made(run_of(name, ran), status), depot)
        }
        Err((depot, stop)) => (Ending::Hindered(stop), depot),
    }
}
