// What is said of the output of a run.
ghost use Rattle.std.specs.Prelude.{◌≤◌, ◌^◌, IfOk, is_some, length};
ghost use Rattle.command_words.specs.Limits.{IsWithinLimits};
ghost use Rattle.command_words.specs.Views.{request_view};
ghost use Rattle.run_ends.specs.Running.{CanRun};
ghost use Rattle.inspect_verdict.specs.Verdict.{IsVerdict};
ghost use Rattle.inspect_calls.specs.Judging.{IsJudgedFrom, IsJudgement, IsJudgementOf, IsVerdictTold};

use crate::output::read_output;
use crate::reply::Reply;
use crate::verdicts::{status_of, text_of};
use command_words::Request;
use coop_outside::Shelf;
use inspect_verdict::{Verdict, verdict_of};
use run_inputs::{Inputs, inputs_of};
use std::alloc::Global;
use std::hash::RandomState;
use std::thread::Threads;
use table_core::Memory;

/// What is said to `judge`: the verdict on the file of this name as the output of the run; or why there is none.
pub(crate) fn judgement<F: Shelf, R: Threads + Sync>(
    rt: &R,
    alloc: Global,
    keys: RandomState,
    run: &Request<'_>,
    name: &str,
    shelf: &mut F,
) -> Reply
    requires limits { IsWithinLimits (request_view run.now) }
    ensures { IsJudgement (request_view run.now) (F.held shelf.old) name.now (F.faults shelf.old)
        (F.faults shelf.new) result }
{
    match inputs_of(rt, alloc, keys, run, shelf) {
        Ok(inputs) => judged_from(alloc, &inputs, run, name, shelf),
        Err(stop) => Reply::stop(alloc, stop),
    }
}

// The verdict on the file of this name.
fn judged_from<F: Shelf>(
    alloc: Global,
    inputs: &Inputs,
    run: &Request<'_>,
    name: &str,
    shelf: &mut F,
) -> Reply
    requires can { CanRun inputs.now }
    ensures { IsJudgedFrom inputs.now run.now.policy (is_some (request_view run.now).scratch)
        (F.held shelf.old) name.now
        (F.faults shelf.old) (F.faults shelf.new) result }
{
    match read_output(alloc, name, shelf) {
        Ok(text) => judged(alloc, inputs, run, text.as_slice()),
        Err(reply) => reply,
    }
}

// The verdict on a text, as the output of a run that keeps its pieces as the words say.
fn verdict_for(
    alloc: Global,
    inputs: &Inputs,
    run: &Request<'_>,
    text: &[u8],
) -> Result<Verdict, Memory>
    requires can { CanRun inputs.now }
    requires short { length text.now ≤ 2 ^ 28 }
    ensures { IfOk result (IsVerdict inputs.now run.now.policy (is_some (request_view run.now).scratch) text.now) }
{
    match run.scratch {
        Some(_) => verdict_of(alloc, inputs, run.policy, true, text),
        None => verdict_of(alloc, inputs, run.policy, false, text),
    }
}

// The verdict on a text, told.
fn judged(alloc: Global, inputs: &Inputs, run: &Request<'_>, text: &[u8]) -> Reply
    requires can { CanRun inputs.now }
    requires short { length text.now ≤ 2 ^ 28 }
    ensures { IsJudgementOf inputs.now run.now.policy (is_some (request_view run.now).scratch) text.now result }
{
    match verdict_for(alloc, inputs, run, text) {
        Ok(verdict) => told(alloc, &verdict, text),
        Err(_) => Reply::memory(alloc),
    }
}

fn told(alloc: Global, verdict: &Verdict, output: &[u8]) -> Reply
    ensures { IsVerdictTold output.now verdict.now result }
{
    match text_of(alloc, verdict, output) {
        Ok(text) => Reply::answer(status_of(verdict), text),
        Err(_) => Reply::memory(alloc),
    }
}
