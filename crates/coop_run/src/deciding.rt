// What a run ends with, before anything is written.
ghost use Rattle.std.specs.Prelude.{◌≡◌, ◌≢◌, ◌≤◌, ◌^◌, IfErr, IfOk, None, true, is_some};
ghost use Rattle.command_words.specs.Limits.{IsWithinLimits};
ghost use Rattle.command_words.specs.Views.{request_view};
ghost use Rattle.run_stops.specs.declared.stop.Stop.TheVariants as stop;
ghost use Rattle.run_ends.specs.Answering.{story_in, taken_in};
ghost use Rattle.run_ends.specs.Deciding.{ComesOf, IsDecided, shown};
ghost use Rattle.run_ends.specs.Devices.{depot_at, over_shelf};
ghost use Rattle.run_ends.specs.Running.{CanRun};
ghost use Rattle.run_ends.specs.Work.{work};

use crate::answering::answer;
use command_words::Request;
use coop_outside::{Depot, Shelf};
use cscan::Gate;
use interest_book::Policy;
use run_ends::{Decision, decision_of};
use run_inputs::{Inputs, inputs_of};
use std::alloc::Global;
use std::hash::RandomState;
use std::sync::Wait;
use std::thread::Threads;

// Runs a batch over what a run is given, and makes the text of its answers; or says why there is none.
fn decide_over<P: Policy, D: Depot + Send, T: Gate + Sync, R: Threads + Wait + Sync>(
    rt: &R,
    alloc: Global,
    inputs: Inputs,
    depot: D,
    policy: P,
    gate: &T,
) -> Decision<D>
    requires can { CanRun inputs }
    requires gets { D.gets depot ≤ 2 ^ 63 }
    ensures comes { ComesOf inputs (work (P.name policy) (P.cursor policy)
        (depot_at (D.held depot) (D.gets depot) (D.faults depot))
        (depot_at (D.held result.depot) (D.gets result.depot) (D.faults result.depot)) (story_in result.ran)
        (taken_in result.ran)) (shown result.ending) }
    ensures ran { IfOk result.ending (λ _. is_some result.ran ≡ true) }
    ensures idle { IfErr result.ending (λ s. s ≢ stop.Memory → result.ran ≡ None) }
{
    let summary = inputs.summary;
    let trace = inputs.trace;
    let rows = inputs.loaded.table.len() as u32;
    match answer(rt, alloc, inputs, depot, policy, gate) {
        Ok(answered) => decision_of(alloc, answered, summary, trace, rows),
        Err((depot, stop)) => Decision {
            ending: Err(stop),
            ran: None,
            depot,
        },
    }
}

/// Reads what a request names, runs the batch, and says what is to be written or why the run stops. The first refusal
/// in the order table, chunks, frames, batch, statements, building decides. The request's numbers lie within the
/// limits.
pub fn decide<F: Shelf, P: Policy, D: Depot + Send, T: Gate + Sync, R: Threads + Wait + Sync>(
    rt: &R,
    alloc: Global,
    keys: RandomState,
    request: &Request<'_>,
    shelf: &mut F,
    depot: D,
    policy: P,
    gate: &T,
) -> Decision<D>
    requires limits { IsWithinLimits (request_view request.now) }
    requires gets { D.gets depot ≤ 2 ^ 63 }
    ensures decided { IsDecided (request_view request.now)
        (over_shelf (F.held shelf.old) (F.faults shelf.old) (F.faults shelf.new))
        (work (P.name policy) (P.cursor policy) (depot_at (D.held depot) (D.gets depot) (D.faults depot))
        (depot_at (D.held result.depot) (D.gets result.depot) (D.faults result.depot))
        (story_in result.ran) (taken_in result.ran)) (shown result.ending) }
    ensures ran { IfOk result.ending (λ _. is_some result.ran ≡ true) }
    ensures idle { IfErr result.ending (λ s. s ≢ stop.Memory → result.ran ≡ None) }
{
    match inputs_of(rt, alloc, keys, request, shelf) {
        Ok(inputs) => decide_over(rt, alloc, inputs, depot, policy, gate),
        Err(stop) => Decision {
            ending: Err(stop),
            ran: None,
            depot,
        },
    }
}
