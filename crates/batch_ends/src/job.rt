// The scans of a batch as the workers have them.
ghost use Rattle.std.specs.Prelude.{◌≡◌, ◌≤◌, IfOk, length};
ghost use Rattle.std.specs.List.{AllZip};
ghost use Rattle.batch_plan.specs.Scans.{scans};
ghost use Rattle.batch_ends.specs.Came.{IsNeedOf};
ghost use Rattle.batch_ends.specs.Jobs.{IsJobOf};

use batch_plan::Task;
use chunk_interest::Need;
use scan_story::Memory;
use sql_bind::Plan;
use std::alloc::Global;

/// One scan to be run.
#[derive(Clone, Copy, Drop)]
pub struct Job<'a> {
    /// The scan's number.
    pub number: u32,
    /// The worker on which it runs.
    pub worker: u32,
    /// What its query asks for.
    pub plan: &'a Plan,
}

/// The jobs of all scans, in their order, which is that of their needs. Each task has so many scans.
pub fn jobs_of<'a>(
    alloc: Global,
    needs: &[Need],
    tasks: &[Task<'a>],
    workers: u32,
    parts: u32,
) -> Result<Vec<Job<'a>>, Memory>
    requires parts { 1 ≤ parts }
    requires needs { AllZip IsNeedOf (scans workers parts tasks.now) needs.now }
    ensures jobs { IfOk result (λ jobs. AllZip IsJobOf (scans workers parts tasks.now) jobs.items) }
{
    let Ok(mut jobs) = Vec::with_capacity(alloc, needs.len()) else {
        return Err(Memory);
    };
    for (place, need) in needs.iter().enumerate() {
        let task = &tasks[place / parts as usize];
        jobs.push_reserved(Job {
            number: need.query,
            worker: need.worker,
            plan: task.plan,
        });
    }
    Ok(jobs)
}
