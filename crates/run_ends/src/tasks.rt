// The statements of a batch as tasks.
ghost use Rattle.std.specs.Prelude.{◌≡◌, ◌≤◌, ◌++◌, [], ◌∷◌, IfOk, OnOk, length};
ghost use Rattle.run_ends.specs.Tasks.{tasks_in};

use batch_plan::Task;
use run_stops::Outcome;
use std::alloc::{AllocError, Global};

// Adds the task of a statement, where it has a plan.
fn push_task<'a>(
    tasks: &mut Vec<Task<'a>>,
    query: u32,
    outcome: &'a Outcome,
) -> Result<(), AllocError>
    ensures { OnOk result (tasks.new.items ≡ tasks.old.items ++ tasks_in query (outcome.now ∷ [])) }
{
    match outcome {
        Outcome::Planned(plan) => {
            tasks.push(Task { query, plan })?;
            Ok(())
        }
        Outcome::Refused(_) => Ok(()),
    }
}

/// A task for each statement that has a plan, under the statement's number; the numbers begin at 1. The plans stay
/// where they are.
pub fn tasks_of<'a>(alloc: Global, outcomes: &'a [Outcome]) -> Result<Vec<Task<'a>>, AllocError>
    requires few { length outcomes.now ≤ 256 }
    ensures tasks { IfOk result (λ tasks. tasks.items ≡ tasks_in 1 outcomes.now) }
{
    let mut tasks = Vec::new(alloc);
    let mut query = 1;
    for outcome in outcomes {
        push_task(&mut tasks, query, outcome)?;
        query += 1;
    }
    Ok(tasks)
}
