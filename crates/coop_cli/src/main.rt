//! `coop_cli TABLE BATCH`: answers a batch of statements over a table. docs/COMMAND_LINE.md is its manual. `run_on`
//! hands `run_with_four` the words, the files of the system and standard output, and that hands them to `run_boxed` of
//! coop_run with the four policies that there are; its clause is `run_boxed`'s, of these four.
#![tactic(auto)]

ghost use Rattle.std.specs.Prelude.{◌≡◌, ◌≤◌, ◌^◌, IfErr, IfOk, length, map};
ghost use Rattle.scan_story.specs.declared.setting.PolicyName.TheVariants as names;
ghost use Rattle.command_words.specs.declared.call.Call.TheVariants.{RunBoxed};
ghost use Rattle.run_inputs.specs.Asked.{asked_of};
ghost use Rattle.run_ends.specs.Boxed.{KeepsPromisesOn};
ghost use Rattle.run_ends.specs.Jobs.{job_of};
ghost use Rattle.run_ends.specs.OverDevices.{devices};
ghost use Rattle.run_ends.specs.Policies.{policy_at};
ghost use Rattle.run_ends.specs.Runs.{did_runs};
ghost use Rattle.coop_cli.specs.Policies.{all_four, at_first};

use command_words::{all_words, behind_name};
use coop_outside::{Depot, DiskShelf, Shelf, Sink, StdoutSink};
pub use coop_run::{BoxedEnd, Ended, PolicyRun, Settings, run, run_boxed, run_settings};
use cscan::NoGate;
use policy_box::Elevator;
use policy_plain::{Attach, Normal};
use relevance::{Policy, Relevance};
use run_ends::end;
use run_inputs::{depot_of, stop_of};
use run_stops::Stop;
use std::alloc::{AllocError, Global};
use std::hash::RandomState;
use std::process::ExitCode;
use std::sync::Wait;
use std::thread::Threads;

// The four policies that there are.
struct Four {
    relevance: Box<dyn Policy + Send>,
    elevator: Box<dyn Policy + Send>,
    normal: Box<dyn Policy + Send>,
    attach: Box<dyn Policy + Send>,
}

// The four in a list, in this order, each with its first cursor. The error is that memory ran out.
fn four_policies(alloc: Global, four: Four) -> Result<Vec<Box<dyn Policy + Send>>, AllocError>
    requires relevance { policy_at (name four.relevance) (cursor four.relevance) ≡ at_first names.Relevance }
    requires elevator { policy_at (name four.elevator) (cursor four.elevator) ≡ at_first names.Elevator }
    requires normal { policy_at (name four.normal) (cursor four.normal) ≡ at_first names.Normal }
    requires attach { policy_at (name four.attach) (cursor four.attach) ≡ at_first names.Attach }
    ensures few { IfOk result (λ ps. length ps.items ≤ 16) }
    ensures all { IfOk result (λ ps. map (λ p. policy_at (name p) (cursor p)) ps.items ≡ all_four) }
{
    let Four {
        relevance,
        elevator,
        normal,
        attach,
    } = four;
    Ok(vec![in alloc; relevance, elevator, normal, attach]?)
}

// Does what `run_boxed` does for these words, over these devices, with the four policies: relevance, elevator, normal
// and attach, in this order. The error is that memory ran out for a box of a policy; then nothing was read or written.
fn run_with_four<F: Shelf, D: Depot + Send, O: Sink, R: AllocGlobal + Threads + Wait + Sync>(
    rt: &R,
    keys: RandomState,
    words: &[String],
    shelf: &mut F,
    depot: D,
    out: &mut O,
) -> Result<BoxedEnd<D>, AllocError>
    requires gets { D.gets depot ≤ 2 ^ 62 }
    ensures promises { IfOk result (λ ended. KeepsPromisesOn
        (job_of all_four (asked_of RunBoxed words.now))
        (devices F.Shelf shelf.old shelf.new D.Depot depot ended.depot O.Sink out.old out.new)
        (did_runs ended.status ended.runs.items)) }
    ensures nothing { IfErr result (λ _. (shelf.new ≡ shelf.old) × (out.new ≡ out.old)) }
{
    let alloc = rt.alloc();
    let four = Four {
        relevance: Box::new(alloc, Relevance)?,
        elevator: Box::new(alloc, Elevator::new())?,
        normal: Box::new(alloc, Normal::new())?,
        attach: Box::new(alloc, Attach::new())?,
    };
    let policies = four_policies(alloc, four)?;
    Ok(run_boxed(rt, alloc, keys, words, shelf, depot, policies, &NoGate, out))
}

// Runs the program over the devices of the system, and answers its status.
fn run_on<R: AllocGlobal + Threads + Wait + Sync>(
    handle: &R,
    rt: HostRuntime,
    out: &mut StdoutSink<HostRuntime>,
) -> Result<u8, Stop> {
    let all = match all_words(&rt) {
        Ok(all) => all,
        Err(error) => return Err(stop_of(error)),
    };
    let words = behind_name(&all);
    let keys = match RandomState::new(&rt) {
        Ok(keys) => keys,
        Err(error) => return Err(stop_of(error)),
    };
    let mut shelf = DiskShelf::new(rt);
    let depot = depot_of(rt.alloc(), rt, words)?;
    let ended = run_with_four(handle, keys, words, &mut shelf, depot, out)?;
    Ok(ended.status)
}

fn main(rt: HostRuntime) -> ExitCode {
    let mut out = StdoutSink::new(rt);
    let ended = run_on(&rt, rt, &mut out);
    end(ended, &mut out)
}
