// Policies compared.
ghost use Rattle.std.specs.Prelude.{◌≡◌, ◌<◌, ◌≤◌, ◌+◌, ◌^◌, IfOk, None, Some, is_some, length, map};
ghost use Rattle.command_words.specs.Limits.{IsWithinLimits};
ghost use Rattle.command_words.specs.Views.{request_view};
ghost use Rattle.run_stops.specs.declared.stop.Stop.TheVariants as stop;
ghost use Rattle.scan_story.specs.Causes.{Licensed};
ghost use Rattle.scan_story.specs.Spent.{reads};
ghost use Rattle.scan_story.specs.Views.{past};
ghost use Rattle.run_inputs.specs.Ending.{AreInputs, AreKept};
ghost use Rattle.run_inputs.specs.Order.{first_stop};
ghost use Rattle.run_ends.specs.Deciding.{shown};
ghost use Rattle.run_ends.specs.Devices.{depot_at, over_shelf};
ghost use Rattle.run_ends.specs.Compared.{AreRuns, IsCompared};
ghost use Rattle.run_ends.specs.Joined.{joined_story};
ghost use Rattle.run_ends.specs.Lines.{lines_of};
ghost use Rattle.run_ends.specs.Policies.{policy_at};
ghost use Rattle.run_ends.specs.Unanswered.{HasCause};

use crate::next::run_next;
use command_words::Request;
use coop_outside::{Depot, Shelf};
use cscan::Gate;
use interest_book::Policy;
use run_ends::{Compared, Made, Output, inputs_for};
use run_inputs::{Inputs, ReadTexts, read_inputs};
use std::alloc::Global;
use std::hash::RandomState;
use std::sync::Wait;
use std::thread::Threads;
use table_core::Bytes;

// Runs the batch with each policy in turn, over a table and a batch that were read.
fn run_all<D: Depot + Send, T: Gate + Sync, R: Threads + Wait + Sync>(
    rt: &R,
    alloc: Global,
    keys: RandomState,
    request: &Request<'_>,
    first: Inputs,
    texts: &ReadTexts,
    depot: D,
    policies: Vec<Box<dyn Policy + Send>>,
    gate: &T,
) -> Compared<D>
    requires few { length policies.items ≤ 16 }
    requires limits { IsWithinLimits (request_view request.now) }
    requires gets { D.gets depot ≤ 2 ^ 62 }
    requires kept { AreKept (Some texts.now.table) (Some texts.now.batch) texts.now }
    requires accepted { first_stop (request_view request.now) (Some texts.now.table) (Some texts.now.batch) ≡ None }
    requires first { AreInputs (request_view request.now) (Some texts.now.table) (Some texts.now.batch) first }
    ensures runs { AreRuns (request_view request.now) (Some texts.now.table) (Some texts.now.batch)
        (map (λ p. policy_at (name p) (cursor p)) policies.items)
        (depot_at (D.held depot) (D.gets depot) (D.faults depot))
        (depot_at (D.held result.depot) (D.gets result.depot) (D.faults result.depot)) result.runs.items
        (shown result.ending) }
{
    let mut first = Some(first);
    let mut made = Made {
        status: 0,
        text: Bytes::new(Vec::new(alloc)),
        runs: Vec::new(alloc),
        depot,
    };
    for policy in policies {
        let inputs = match inputs_for(rt, alloc, keys, request, texts, first.take()) {
            Ok(inputs) => inputs,
            Err(stop) => return Compared::stopped(stop, made.runs, made.depot),
        };
        made = match run_next(rt, alloc, made, inputs, policy, gate) {
            Ok(made) => made,
            Err(compared) => return compared,
        };
    }
    let Made {
        status,
        text,
        runs,
        depot,
    } = made;
    Compared {
        ending: Ok(Output { status, text }),
        runs,
        depot,
    }
}

/// Compares policies: for each one, in order, the table is loaded, its pieces are put into the depot, and the batch
/// runs with that policy. The first run reads the table and the batch from the shelf, and the later ones use what it
/// read. With no policy nothing is read. The request's numbers lie within their limits, there are at most 16 policies,
/// and the depot's gets are at most 2^62.
///
/// The first stop that comes in any run ends the work with it: those of a single run, as docs/COMMAND_LINE.md lists
/// them, in the order of the work, in the first run; and in each run a piece that isn't stored, and out of memory.
pub(crate) fn compare<F: Shelf, D: Depot + Send, T: Gate + Sync, R: Threads + Wait + Sync>(
    rt: &R,
    alloc: Global,
    keys: RandomState,
    request: &Request<'_>,
    shelf: &mut F,
    depot: D,
    policies: Vec<Box<dyn Policy + Send>>,
    gate: &T,
) -> Compared<D>
    requires few { length policies.items ≤ 16 }
    requires limits { IsWithinLimits (request_view request.now) }
    requires gets { D.gets depot ≤ 2 ^ 62 }
    // the runs, one after another over one table and one batch, what is written, and each stop with its cause
    ensures compared { IsCompared (request_view request.now)
        (over_shelf (F.held shelf.old) (F.faults shelf.old) (F.faults shelf.new))
        (map (λ p. policy_at (name p) (cursor p)) policies.items)
        (depot_at (D.held depot) (D.gets depot) (D.faults depot))
        (depot_at (D.held result.depot) (D.gets result.depot) (D.faults result.depot)) result.runs.items
        (shown result.ending) }
    // a line for each run, with the counts of its story
    ensures lines { IfOk result.ending (λ o. o.text ≡ lines_of result.runs.items) }
    // 1: some run leaves a statement unanswered, and why
    ensures one { IfOk result.ending (λ o. o.status ≡ 1 → HasCause (request_view request.now)
        (over_shelf (F.held shelf.old) (F.faults shelf.old) (F.faults shelf.new))
        (map (λ p. policy_at (name p) (cursor p)) policies.items)
        (depot_at (D.held depot) (D.gets depot) (D.faults depot)) result.runs.items) }
    // however it ends: each fault of the stories joined in order has its own rise of the depot's count, and the depot's
    // gets rose by the reads of all runs
    ensures licensed { Licensed (is_some (D.held depot)) (D.faults depot) (D.faults result.depot)
        (past (joined_story result.runs.items)) }
    ensures reads { D.gets result.depot ≡ D.gets depot + reads (past (joined_story result.runs.items)) }
{
    compare_all(rt, alloc, keys, request, shelf, depot, policies, gate)
}

// The same call with the clause from which the others follow.
fn compare_all<F: Shelf, D: Depot + Send, T: Gate + Sync, R: Threads + Wait + Sync>(
    rt: &R,
    alloc: Global,
    keys: RandomState,
    request: &Request<'_>,
    shelf: &mut F,
    depot: D,
    policies: Vec<Box<dyn Policy + Send>>,
    gate: &T,
) -> Compared<D>
    requires few { length policies.items ≤ 16 }
    requires limits { IsWithinLimits (request_view request.now) }
    requires gets { D.gets depot ≤ 2 ^ 62 }
    ensures compared { IsCompared (request_view request.now)
        (over_shelf (F.held shelf.old) (F.faults shelf.old) (F.faults shelf.new))
        (map (λ p. policy_at (name p) (cursor p)) policies.items)
        (depot_at (D.held depot) (D.gets depot) (D.faults depot))
        (depot_at (D.held result.depot) (D.gets result.depot) (D.faults result.depot)) result.runs.items
        (shown result.ending) }
{
    if policies.is_empty() {
        let ending = Ok(Output {
            status: 0,
            text: Bytes::new(Vec::new(alloc)),
        });
        return Compared {
            ending,
            runs: Vec::new(alloc),
            depot,
        };
    }
    let (first, texts) = match read_inputs(rt, alloc, keys, request, shelf) {
        Ok(read) => read,
        Err(stop) => return Compared::stopped(stop, Vec::new(alloc), depot),
    };
    run_all(
        rt, alloc, keys, request, first, &texts, depot, policies, gate,
    )
}
