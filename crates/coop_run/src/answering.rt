// From what a run is given to the answers of its queries.
ghost use Rattle.std.specs.Prelude.{◌≡◌, ◌≤◌, ◌^◌, [], IfErr, IfOk};
ghost use Rattle.run_ends.specs.Answering.{IsAnswered, IsUnanswered};
ghost use Rattle.run_ends.specs.Deciding.{stop_for};
ghost use Rattle.run_ends.specs.Devices.{depot_at};
ghost use Rattle.run_ends.specs.Running.{CanRun};
ghost use Rattle.run_ends.specs.Work.{work};

use batch_run::{BatchEnd, BatchRefusal, plans_fit, run_batch};
use coop_outside::Depot;
use cscan::Gate;
use interest_book::Policy;
use run_ends::{Answered, tasks_of};
use run_inputs::Inputs;
use run_stops::Stop;
use std::alloc::Global;
use std::sync::Wait;
use std::thread::Threads;

// Why no query ran.
fn stop_of(refusal: BatchRefusal) -> Stop
    ensures { result ≡ stop_for refusal }
{
    match refusal {
        BatchRefusal::Put { piece } => Stop::NotStored { piece },
        BatchRefusal::Memory => Stop::Memory,
    }
}

/// Runs a batch over what a run is given, and answers its queries; or says why no worker ran, and gives the depot back:
/// a piece was not stored, or memory ran out. Once the workers have run there are answers.
pub fn answer<P: Policy, D: Depot + Send, T: Gate + Sync, R: Threads + Wait + Sync>(
    rt: &R,
    alloc: Global,
    inputs: Inputs,
    depot: D,
    policy: P,
    gate: &T,
) -> Result<Answered<D>, (D, Stop)>
    requires can { CanRun inputs }
    requires gets { D.gets depot ≤ 2 ^ 63 }
    ensures answered { IfOk result (λ a. IsAnswered inputs
        (work (P.name policy) (P.cursor policy) (depot_at (D.held depot) (D.gets depot) (D.faults depot))
        (depot_at (D.held a.depot) (D.gets a.depot) (D.faults a.depot)) a.ran.story.items a.ran.taken.items)
        a.outcomes.items a.answers.items a.schema a.dicts.items) }
    ensures unanswered { IfErr result (λ r. IsUnanswered inputs
        (work (P.name policy) (P.cursor policy) (depot_at (D.held depot) (D.gets depot) (D.faults depot))
        (depot_at (D.held r.0) (D.gets r.0) (D.faults r.0)) [] []) r.1) }
{
    // It says of plans what a batch asks of them.
    plans_fit();
    let Inputs {
        options,
        loaded,
        outcomes,
        ..
    } = inputs;
    let Ok(tasks) = tasks_of(alloc, &outcomes) else {
        return Err((depot, Stop::Memory));
    };
    let most_threads = options.workers;
    let end = match run_batch(
        rt,
        alloc,
        loaded,
        &tasks,
        &options,
        depot,
        policy,
        gate,
        most_threads,
    ) {
        Ok(end) => end,
        Err((depot, refusal)) => return Err((depot, stop_of(refusal))),
    };
    let BatchEnd {
        answers,
        ran,
        depot,
        schema,
        dicts,
    } = end;
    // They borrow from the outcomes, which move now.
    drop(tasks);
    Ok(Answered {
        outcomes,
        answers,
        schema,
        dicts,
        ran,
        depot,
    })
}
