// What a run comes to and writes.
ghost use Rattle.std.specs.Prelude.{◌≡◌, ◌≢◌, ◌≤◌, ◌⊎◌, ◌^◌, Err, None, Some, is_some, true};
ghost use Rattle.command_words.specs.Limits.{IsWithinLimits};
ghost use Rattle.command_words.specs.Views.{request_view};
ghost use Rattle.command_words.specs.declared.call.Call.TheVariants.{Run};
ghost use Rattle.run_inputs.specs.Asked.{asked_of};
ghost use Rattle.run_ends.specs.Answering.{story_in, taken_in};
ghost use Rattle.run_ends.specs.OverDevices.{devices};
ghost use Rattle.run_ends.specs.Did.{did_with, policy_of};
ghost use Rattle.run_ends.specs.Promises.{DecidesAndPrints};

use crate::deciding::decide;
use command_words::{Call, Request};
use coop_outside::{Depot, Shelf, Sink};
use cscan::Gate;
use interest_book::Policy;
use run_ends::{Decision, Settled, print, refuse};
use run_inputs::request_in;
use std::alloc::Global;
use std::hash::RandomState;
use std::sync::Wait;
use std::thread::Threads;

/// Does all that a run does for a request whose numbers lie within the limits.
pub fn settle<
    F: Shelf,
    P: Policy,
    D: Depot + Send,
    O: Sink,
    T: Gate + Sync,
    R: Threads + Wait + Sync,
>(
    rt: &R,
    alloc: Global,
    keys: RandomState,
    request: &Request<'_>,
    shelf: &mut F,
    depot: D,
    policy: P,
    gate: &T,
    out: &mut O,
) -> Settled<D>
    requires limits { IsWithinLimits (request_view request.now) }
    requires gets { D.gets depot ≤ 2 ^ 63 }
    ensures decides { DecidesAndPrints (Some (request_view request.now))
        (devices F.Shelf shelf.old shelf.new D.Depot depot result.depot O.Sink out.old out.new)
        (did_with (policy_of P.Policy policy) result.status (story_in result.ran) (taken_in result.ran)) }
    ensures ran { (result.status ≤ 1) ⊎ (result.status ≡ 6) → is_some result.ran ≡ true }
    ensures idle { 2 ≤ result.status → result.status ≢ 6 → result.status ≢ 7 → result.ran ≡ None }
{
    let Decision { ending, ran, depot } = decide(
        rt, alloc, keys, request, shelf, depot, policy, gate,
    );
    let status = print(ending, out);
    Settled { status, ran, depot }
}

/// Does all that a run does for the words after the program's name.
pub fn settle_words<
    F: Shelf,
    P: Policy,
    D: Depot + Send,
    O: Sink,
    T: Gate + Sync,
    R: Threads + Wait + Sync,
>(
    rt: &R,
    alloc: Global,
    keys: RandomState,
    words: &[String],
    shelf: &mut F,
    depot: D,
    policy: P,
    gate: &T,
    out: &mut O,
) -> Settled<D>
    requires gets { D.gets depot ≤ 2 ^ 63 }
    ensures decides { DecidesAndPrints (asked_of Run words.now)
        (devices F.Shelf shelf.old shelf.new D.Depot depot result.depot O.Sink out.old out.new)
        (did_with (policy_of P.Policy policy) result.status (story_in result.ran) (taken_in result.ran)) }
{
    match request_in(alloc, Call::Run, words) {
        Ok(request) => settle(rt, alloc, keys, &request, shelf, depot, policy, gate, out),
        Err(stop) => refuse(stop, depot, out),
    }
}
