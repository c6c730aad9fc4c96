// The setting in which the story of a run is judged.
ghost use Rattle.command_words.specs.Limits.{IsWithinLimits};
ghost use Rattle.command_words.specs.Views.{request_view};
ghost use Rattle.run_ends.specs.Running.{CanRun};
ghost use Rattle.scan_story.specs.Setting.{HasRoom, IsSetting};
ghost use Rattle.inspect_referee.specs.Terms.{setting_of};
ghost use Rattle.inspect_verdict.specs.Told.{run_setting};
ghost use Rattle.inspect_calls.specs.Settings.{IsSettingSaid, IsSettingTold};

use crate::reply::Reply;
use command_words::Request;
use coop_outside::Shelf;
use inspect_referee::Terms;
use inspect_story::write_terms;
use inspect_verdict::run_terms;
use run_inputs::{Inputs, inputs_of};
use scan_story::PolicyName;
use std::alloc::Global;
use std::hash::RandomState;
use std::thread::Threads;

/// What is said to `setting`: the text of the setting in which `judge` judges the story of the run; or why there is
/// none.
pub(crate) fn setting_said<F: Shelf, R: Threads + Sync>(
    rt: &R,
    alloc: Global,
    keys: RandomState,
    run: &Request<'_>,
    shelf: &mut F,
) -> Reply
    requires limits { IsWithinLimits (request_view run.now) }
    ensures { IsSettingSaid (request_view run.now) (F.held shelf.old) (F.faults shelf.old) (F.faults shelf.new) result }
{
    match inputs_of(rt, alloc, keys, run, shelf) {
        Ok(inputs) => setting_told(alloc, &inputs, run.policy),
        Err(stop) => Reply::stop(alloc, stop),
    }
}

// The setting of a run that is given this, under the policy of this name.
fn setting_told(alloc: Global, inputs: &Inputs, policy: PolicyName) -> Reply
    requires can { CanRun inputs.now }
    ensures { IsSettingTold (run_setting inputs.now policy) result }
{
    match run_terms(alloc, inputs, policy) {
        Ok(terms) => terms_told(alloc, &terms),
        Err(_) => Reply::memory(alloc),
    }
}

// The setting of terms.
fn terms_told(alloc: Global, terms: &Terms) -> Reply
    requires may { IsSetting (setting_of terms.now) }
    requires room { HasRoom (setting_of terms.now) }
    ensures { IsSettingTold (setting_of terms.now) result }
{
    match write_terms(alloc, terms) {
        Ok(text) => Reply::answer(0, text.into_vec()),
        Err(_) => Reply::memory(alloc),
    }
}
