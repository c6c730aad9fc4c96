// The terms of what a run is given.
ghost use Rattle.std.specs.Prelude.{◌≡◌, IfOk};
ghost use Rattle.scan_story.specs.Setting.{HasRoom, IsSetting};
ghost use Rattle.run_ends.specs.Running.{CanRun};
ghost use Rattle.run_ends.specs.Tasks.{tasks_in};
ghost use Rattle.inspect_referee.specs.Terms.{setting_of};
ghost use Rattle.inspect_verdict.specs.Told.{run_setting};

use crate::terms::terms_of;
use batch_plan::Task;
use inspect_referee::Terms;
use run_ends::tasks_of;
use run_inputs::Inputs;
use scan_story::PolicyName;
use std::alloc::Global;
use table_core::Memory;

/// The terms of a run under the policy of this name, where its statements have these tasks. The error is out of memory.
pub(crate) fn terms_with(
    alloc: Global,
    inputs: &Inputs,
    tasks: &[Task<'_>],
    policy: PolicyName,
) -> Result<Terms, Memory>
    requires can { CanRun inputs.now }
    requires tasks { tasks.now ≡ tasks_in 1 inputs.now.outcomes.items }
    ensures setting { IfOk result (λ t. setting_of t ≡ run_setting inputs.now policy) }
    ensures may { IfOk result (λ t. IsSetting (setting_of t)) }
    ensures room { IfOk result (λ t. HasRoom (setting_of t)) }
{
    let loaded = &inputs.loaded;
    terms_of(
        alloc,
        &loaded.table,
        &loaded.dicts,
        tasks,
        &inputs.options,
        policy,
    )
}

/// The terms by which `verdict_of` judges the story of a run: what it is given, and the policy of this name. The error
/// is out of memory.
pub fn run_terms(alloc: Global, inputs: &Inputs, policy: PolicyName) -> Result<Terms, Memory>
    requires can { CanRun inputs.now }
    ensures setting { IfOk result (λ t. setting_of t ≡ run_setting inputs.now policy) }
    ensures may { IfOk result (λ t. IsSetting (setting_of t)) }
    ensures room { IfOk result (λ t. HasRoom (setting_of t)) }
{
    let tasks = tasks_of(alloc, &inputs.outcomes)?;
    terms_with(alloc, inputs, &tasks, policy)
}
