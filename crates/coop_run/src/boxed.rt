// The top call for policies in boxes.
ghost use Rattle.std.specs.Prelude.{◌≤◌, ◌<◌, ◌^◌, Err, Some, length, map};
ghost use Rattle.command_words.specs.Limits.{IsWithinLimits};
ghost use Rattle.command_words.specs.Views.{request_view};
ghost use Rattle.command_words.specs.declared.call.Call.TheVariants.{RunBoxed};
ghost use Rattle.run_inputs.specs.Asked.{asked_of};
ghost use Rattle.run_ends.specs.Policies.{policy_at};
ghost use Rattle.run_ends.specs.Boxed.{ComparesAndPrints, DecidesAndPrintsOn, KeepsPromisesOn, LeavesRuns};
ghost use Rattle.run_ends.specs.OverDevices.{devices};
ghost use Rattle.run_ends.specs.Did.{policy_of};
ghost use Rattle.run_ends.specs.Jobs.{job_of};
ghost use Rattle.run_ends.specs.Promises.{DecidesAndPrints};
ghost use Rattle.run_ends.specs.Runs.{AreOfOne, did_runs, did_under};

use crate::comparing::compare;
use crate::settle::settle;
use crate::taken_policy::TakenPolicy;
use command_words::{Call, Request};
use coop_outside::{Depot, Shelf, Sink};
use cscan::Gate;
use interest_book::Policy;
use policy_box::{Boxed, choose};
use run_ends::{BoxedEnd, Compared, Settled, kept, print, stop_before};
use run_inputs::request_in;
use run_stops::Stop;
use std::alloc::Global;
use std::hash::RandomState;
use std::sync::Wait;
use std::thread::Threads;

/// Does all that `run` does with the first of the policies that has the name that the words ask for, and drops the
/// others. Or, where the words have `--compare`, runs the batch with each of the policies in turn, and writes a line
/// for each run in place of answers. Besides those of `run` the words may have `--policy` and `--compare`. The depot's
/// gets are at most 2^62, and the policies at most 16.
///
/// It answers the status, what the workers did under the policy or the policies, and the depot. The clauses are those
/// of `run`, each of the job that the words and the policies give: to run with one policy, or to compare them.
pub fn run_boxed<F: Shelf, D: Depot + Send, O: Sink, T: Gate + Sync, R: Threads + Wait + Sync>(
    rt: &R,
    alloc: Global,
    keys: RandomState,
    words: &[String],
    shelf: &mut F,
    depot: D,
    policies: Vec<Box<dyn Policy + Send>>,
    gate: &T,
    out: &mut O,
) -> BoxedEnd<D>
    requires few { length policies.items ≤ 16 }
    requires gets { D.gets depot ≤ 2 ^ 62 }
    // the clauses by their names, 0 and 1 with THE HEADLINE first: specs/Boxed.antt of run_ends
    ensures promises { KeepsPromisesOn
        (job_of (map (λ p. policy_at (name p) (cursor p)) policies.items) (asked_of RunBoxed words.now))
        (devices F.Shelf shelf.old shelf.new D.Depot depot result.depot O.Sink out.old out.new)
        (did_runs result.status result.runs.items) }
{
    run_taken(rt, alloc, keys, words, shelf, depot, policies, gate, out)
}

// The same call with the clauses from which the others follow.
fn run_taken<F: Shelf, D: Depot + Send, O: Sink, T: Gate + Sync, R: Threads + Wait + Sync>(
    rt: &R,
    alloc: Global,
    keys: RandomState,
    words: &[String],
    shelf: &mut F,
    depot: D,
    policies: Vec<Box<dyn Policy + Send>>,
    gate: &T,
    out: &mut O,
) -> BoxedEnd<D>
    requires few { length policies.items ≤ 16 }
    requires gets { D.gets depot ≤ 2 ^ 62 }
    ensures decides { DecidesAndPrintsOn
        (job_of (map (λ p. policy_at (name p) (cursor p)) policies.items) (asked_of RunBoxed words.now))
        (devices F.Shelf shelf.old shelf.new D.Depot depot result.depot O.Sink out.old out.new)
        (did_runs result.status result.runs.items) }
    ensures runs { LeavesRuns (job_of (map (λ p. policy_at (name p) (cursor p)) policies.items)
        (asked_of RunBoxed words.now))
        result.status result.runs.items }
{
    let request = match request_in(alloc, Call::RunBoxed, words) {
        Ok(request) => request,
        Err(stop) => return stop_before(alloc, stop, depot, out),
    };
    if request.compare {
        return run_compared(rt, alloc, keys, &request, shelf, depot, policies, gate, out);
    }
    let Some(Boxed { policy }) = choose(policies, request.policy) else {
        return stop_before(alloc, Stop::Usage, depot, out);
    };
    let taken = TakenPolicy { policy };
    run_under(rt, alloc, keys, &request, shelf, depot, taken, gate, out)
}

// Compares the policies, and writes a line for each run.
fn run_compared<F: Shelf, D: Depot + Send, O: Sink, T: Gate + Sync, R: Threads + Wait + Sync>(
    rt: &R,
    alloc: Global,
    keys: RandomState,
    request: &Request<'_>,
    shelf: &mut F,
    depot: D,
    policies: Vec<Box<dyn Policy + Send>>,
    gate: &T,
    out: &mut O,
) -> BoxedEnd<D>
    requires few { length policies.items ≤ 16 }
    requires limits { IsWithinLimits (request_view request.now) }
    requires gets { D.gets depot ≤ 2 ^ 62 }
    ensures decides { ComparesAndPrints (request_view request.now)
        (map (λ p. policy_at (name p) (cursor p)) policies.items)
        (devices F.Shelf shelf.old shelf.new D.Depot depot result.depot O.Sink out.old out.new)
        (did_runs result.status result.runs.items) }
{
    let Compared {
        ending,
        runs,
        depot,
    } = compare(rt, alloc, keys, request, shelf, depot, policies, gate);
    let status = print(ending, out);
    BoxedEnd {
        status,
        runs,
        depot,
    }
}

// Does all that a run does for a request, with this policy. The place for what its workers leave is reserved before
// they run.
fn run_under<
    F: Shelf,
    P: Policy,
    D: Depot + Send,
    O: Sink,
    T: Gate + Sync,
    R: Threads + Wait + Sync,
>(
    rt: &R,
    alloc: Global,
    keys: RandomState,
    request: &Request<'_>,
    shelf: &mut F,
    depot: D,
    policy: P,
    gate: &T,
    out: &mut O,
) -> BoxedEnd<D>
    requires limits { IsWithinLimits (request_view request.now) }
    requires gets { D.gets depot ≤ 2 ^ 63 }
    ensures decides { DecidesAndPrints (Some (request_view request.now))
        (devices F.Shelf shelf.old shelf.new D.Depot depot result.depot O.Sink out.old out.new)
        (did_under (policy_of P.Policy policy) (did_runs result.status result.runs.items)) }
    ensures runs { AreOfOne (policy_of P.Policy policy) result.status result.runs.items }
{
    let Ok(runs) = Vec::with_capacity(alloc, 1) else {
        return stop_before(alloc, Stop::Memory, depot, out);
    };
    let name = policy.named();
    let Settled { status, ran, depot } = settle(
        rt, alloc, keys, request, shelf, depot, policy, gate, out,
    );
    let runs = kept(runs, name, ran);
    BoxedEnd {
        status,
        runs,
        depot,
    }
}
