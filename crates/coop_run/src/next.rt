// One run more of a comparison.
ghost use Rattle.std.specs.Prelude.{◌≤◌, ◌^◌, IfErr, IfOk};
ghost use Rattle.run_ends.specs.Deciding.{shown};
ghost use Rattle.run_ends.specs.Devices.{depot_at};
ghost use Rattle.run_ends.specs.Running.{CanRun};
ghost use Rattle.run_ends.specs.Next.{EndsIn, IsNext};
ghost use Rattle.run_ends.specs.Policies.{policy_at};

use crate::single::run_single;
use coop_outside::Depot;
use cscan::Gate;
use interest_book::Policy;
use run_ends::{Compared, Ending, Made, write_line};
use run_inputs::Inputs;
use run_stops::Stop;
use std::alloc::Global;
use std::sync::Wait;
use std::thread::Threads;

/// Makes one run more, with this policy; or the work ends in it.
pub(crate) fn run_next<D: Depot + Send, T: Gate + Sync, R: Threads + Wait + Sync>(
    rt: &R,
    alloc: Global,
    made: Made<D>,
    inputs: Inputs,
    policy: Box<dyn Policy + Send>,
    gate: &T,
) -> Result<Made<D>, Compared<D>>
    requires can { CanRun inputs }
    requires gets { D.gets made.depot ≤ 2 ^ 63 }
    ensures next { IfOk result (λ m. IsNext inputs (policy_at (name policy) (cursor policy))
        (depot_at (D.held made.depot) (D.gets made.depot) (D.faults made.depot))
        (depot_at (D.held m.depot) (D.gets m.depot) (D.faults m.depot)) made.runs.items
        (made.status, made.text) m.runs.items (m.status, m.text)) }
    ensures ends { IfErr result (λ c. EndsIn inputs (policy_at (name policy) (cursor policy))
        (depot_at (D.held made.depot) (D.gets made.depot) (D.faults made.depot))
        (depot_at (D.held c.depot) (D.gets c.depot) (D.faults c.depot)) made.runs.items c.runs.items (shown c.ending)) }
{
    let Made {
        status,
        mut text,
        mut runs,
        depot,
    } = made;
    // What the workers leave has its place before they run.
    match runs.reserve(1) {
        Ok(()) => {}
        Err(_) => return Err(Compared::stopped(Stop::Memory, runs, depot)),
    }
    let (ending, depot) = run_single(rt, alloc, inputs, depot, policy, gate);
    match ending {
        Ending::Made(run, ended) => {
            let written = write_line(&mut text, run.name, &run.story);
            runs.push_reserved(run);
            match written {
                Ok(()) => Ok(Made {
                    status: status.max(ended),
                    text,
                    runs,
                    depot,
                }),
                Err(_) => Err(Compared::stopped(Stop::Memory, runs, depot)),
            }
        }
        Ending::Hindered(stop) => Err(Compared::stopped(stop, runs, depot)),
    }
}
