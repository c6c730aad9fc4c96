// The top calls for one policy.
ghost use Rattle.std.specs.Prelude.{◌≢◌, ◌≤◌, ◌^◌, Some};
ghost use Rattle.command_words.specs.Limits.{IsWithinLimits};
ghost use Rattle.command_words.specs.Views.{request_view};
ghost use Rattle.command_words.specs.declared.call.Call.TheVariants.{Run};
ghost use Rattle.run_inputs.specs.Asked.{asked_of};
ghost use Rattle.run_ends.specs.OverDevices.{devices};
ghost use Rattle.run_ends.specs.Did.{did_with, policy_of};
ghost use Rattle.run_ends.specs.Promises.{DecidesAndPrints, KeepsPromises};
ghost use Rattle.run_ends.specs.Settings.{asked_in_settings};

use crate::settle::{settle, settle_words};
use command_words::Request;
use coop_outside::{Depot, Shelf, Sink};
use cscan::Gate;
use interest_book::Policy;
use run_ends::{Ended, Settings, leave};
use std::alloc::Global;
use std::hash::RandomState;
use std::sync::Wait;
use std::thread::Threads;

/// Answers the batch over the table, and writes the answers, or the line that says why there are none. The words are
/// those after the program's name; the keys are those of the hash with which texts are looked up while the table is
/// loaded; the policy makes the manager's choices; the gate is called once for each delivery, while the chunk is pinned
/// and the manager lies free. The depot's gets are at most 2^63.
///
/// It answers the status, as docs/COMMAND_LINE.md lists them, the story that the workers' turns recorded, the chunks
/// that each scan took, and the depot. What it says holds of every schedule of the workers; that it returns is not
/// said.
pub fn run<F: Shelf, P: Policy, D: Depot + Send, O: Sink, T: Gate + Sync, R: Threads + Wait + Sync>(
    rt: &R,
    alloc: Global,
    keys: RandomState,
    words: &[String],
    shelf: &mut F,
    depot: D,
    policy: P,
    gate: &T,
    out: &mut O,
) -> Ended<D>
    requires gets { D.gets depot ≤ 2 ^ 63 }
    // the clauses by their names, 0 and 1 with THE HEADLINE first: specs/Promises.antt of run_ends
    ensures promises { KeepsPromises (asked_of Run words.now)
        (devices F.Shelf shelf.old shelf.new D.Depot depot result.depot O.Sink out.old out.new)
        (did_with (policy_of P.Policy policy) result.status result.story.items result.taken.items) }
{
    run_words(rt, alloc, keys, words, shelf, depot, policy, gate, out)
}

/// Does all that `run` does after the words were read, for settings in their place, whose numbers lie within the
/// limits.
/// A table or a batch with the name of a generated one is that one.
pub fn run_settings<
    F: Shelf,
    P: Policy,
    D: Depot + Send,
    O: Sink,
    T: Gate + Sync,
    R: Threads + Wait + Sync,
>(
    rt: &R,
    alloc: Global,
    keys: RandomState,
    settings: &Settings,
    shelf: &mut F,
    depot: D,
    policy: P,
    gate: &T,
    out: &mut O,
) -> Ended<D>
    requires limits { IsWithinLimits (asked_in_settings settings.now) }
    requires gets { D.gets depot ≤ 2 ^ 63 }
    // the same as of `run`
    ensures promises { KeepsPromises (Some (asked_in_settings settings.now))
        (devices F.Shelf shelf.old shelf.new D.Depot depot result.depot O.Sink out.old out.new)
        (did_with (policy_of P.Policy policy) result.status result.story.items result.taken.items) }
    // 2 never comes
    ensures usage { result.status ≢ 2 }
{
    let request = settings.request();
    run_request(rt, alloc, keys, &request, shelf, depot, policy, gate, out)
}

// The same call with the clause from which the others follow.
fn run_words<
    F: Shelf,
    P: Policy,
    D: Depot + Send,
    O: Sink,
    T: Gate + Sync,
    R: Threads + Wait + Sync,
>(
    rt: &R,
    alloc: Global,
    keys: RandomState,
    words: &[String],
    shelf: &mut F,
    depot: D,
    policy: P,
    gate: &T,
    out: &mut O,
) -> Ended<D>
    requires gets { D.gets depot ≤ 2 ^ 63 }
    ensures decides { DecidesAndPrints (asked_of Run words.now)
        (devices F.Shelf shelf.old shelf.new D.Depot depot result.depot O.Sink out.old out.new)
        (did_with (policy_of P.Policy policy) result.status result.story.items result.taken.items) }
{
    let settled = settle_words(rt, alloc, keys, words, shelf, depot, policy, gate, out);
    leave(alloc, settled)
}

// The same call with the clause from which the others follow.
fn run_request<
    F: Shelf,
    P: Policy,
    D: Depot + Send,
    O: Sink,
    T: Gate + Sync,
    R: Threads + Wait + Sync,
>(
    rt: &R,
    alloc: Global,
    keys: RandomState,
    request: &Request<'_>,
    shelf: &mut F,
    depot: D,
    policy: P,
    gate: &T,
    out: &mut O,
) -> Ended<D>
    requires limits { IsWithinLimits (request_view request.now) }
    requires gets { D.gets depot ≤ 2 ^ 63 }
    ensures decides { DecidesAndPrints (Some (request_view request.now))
        (devices F.Shelf shelf.old shelf.new D.Depot depot result.depot O.Sink out.old out.new)
        (did_with (policy_of P.Policy policy) result.status result.story.items result.taken.items) }
{
    let settled = settle(rt, alloc, keys, request, shelf, depot, policy, gate, out);
    leave(alloc, settled)
}
