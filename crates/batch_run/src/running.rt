// All scans of a batch.
ghost use Rattle.std.specs.Prelude.{◌≡◌, ◌<◌, ◌≤◌, ◌*◌, ℕ, [], All, IfErr, IfOk, length, map};
ghost use Rattle.std.specs.List.{AllZip};
ghost use Rattle.scan_story.specs.Setting.{IsStart};
ghost use Rattle.scan_story.specs.Views.{past};
ghost use Rattle.abm_policy.specs.Depots.{Agrees, depot_view};
ghost use Rattle.abm_policy.specs.Sound.{setting_of, start_of};
ghost use Rattle.piece_format.specs.Shape.{IsShape, chunks, frame_words, groups};
ghost use Rattle.frame_rows.specs.Tables.{TellAlike};
ghost use Rattle.batch_plan.specs.Scans.{scans};
ghost use Rattle.batch_plan.specs.Setting.{AreOptions};
ghost use Rattle.batch_ends.specs.Rows.{IsPlanOfShape};
ghost use Rattle.batch_ends.specs.Came.{CameOf, IsNeedOf};
ghost use Rattle.cscan.specs.Scans.{Fits};
ghost use Rattle.batch_run.specs.Crews.{AreFresh, IsCrew};
ghost use Rattle.batch_run.specs.Jobs.{AreJobs};
ghost use Rattle.batch_ends.specs.Registering.{RegistersInOrder};
ghost use Rattle.batch_ends.specs.Whole.{IsWholeStory};
ghost use Rattle.batch_run.specs.Works.{HasWorked, IsSeating};

use crate::crew::{Crew, seat_all};
use crate::scanning::run_at_once;
use crate::seating::{Works, close, open};
use crate::shop::Shop;
use batch_ends::{Job, in_order, jobs_of};
use batch_plan::{Options, Task};
use chunk_interest::Need;
use coop_outside::Depot;
use cscan::Gate;
use frame_pool::Content;
use interest_book::Policy;
use piece_format::{Shape, frame_words};
use query_gather::Partial;
use scan_story::{Cause, Entry, Memory, Origin};
use std::alloc::Global;
use std::sync::Wait;
use std::thread::Threads;

/// What the scans of a batch leave.
pub struct ScansEnd<D> {
    /// What all turns of the workers recorded, the oldest entry first.
    pub story: Vec<Entry>,
    /// What came of each scan, in task order and then part order: what it gathered, or why it was stopped.
    pub results: Vec<Result<Partial, Cause>>,
    /// The depot, read as the story says.
    pub depot: D,
}

// Gives each worker of the crew its station. Where memory runs out, the works come back as they are then.
fn seat<'a, S: Origin, C: Content, P: Policy, D: Depot>(
    alloc: Global,
    works: Works<'a, S, C, P, D>,
    shape: &'a Shape,
    piece_bytes: u32,
    jobs: usize,
) -> Result<Works<'a, S, C, P, D>, Works<'a, S, C, P, D>>
    requires crew { IsCrew S.origin works.baton works.pool works.crew }
    requires fresh { AreFresh works.baton S.origin shape.now jobs works.crew }
    requires bytes { piece_bytes ≡ 8 * works.pool.shape.words }
    ensures seating { IfOk result (λ w. IsSeating S.origin shape.now jobs works.entry w) }
    ensures all { IfOk result (λ w. w.crew.passes.items ≡ []) }
    ensures some { IfErr result (λ w. IsSeating S.origin shape.now jobs works.entry w) }
{
    let Works {
        baton,
        pool,
        mut crew,
    } = works;
    match seat_all(alloc, &baton, &pool, &mut crew, shape, piece_bytes, jobs) {
        Ok(()) => Ok(Works { baton, pool, crew }),
        Err(Memory) => Err(Works { baton, pool, crew }),
    }
}

// Lets all workers run their scans, each in a thread of its own as far as there are threads, of which so many may be
// started.
fn work<
    'a,
    S: Origin + Send + Sync,
    C: Content + Send + Sync,
    P: Policy,
    D: Depot + Send,
    T: Gate + Sync,
    R: Threads + Wait + Sync,
>(
    rt: &R,
    shape: &'a Shape,
    jobs: &'a [Job<'a>],
    gate: &'a T,
    works: Works<'a, S, C, P, D>,
    most_threads: u32,
) -> Works<'a, S, C, P, D>
    requires start { IsStart S.origin }
    requires fits { Fits S.origin C.pieces shape.now works.pool }
    requires jobs { AreJobs S.origin.setting shape.now jobs.now }
    requires crew { IsCrew S.origin works.baton works.pool works.crew }
    requires fresh { AreFresh works.baton S.origin shape.now (length jobs.now) works.crew }
    requires all { works.crew.passes.items ≡ [] }
    ensures { HasWorked S.origin C.pieces shape.now jobs.now works.entry result }
{
    let Works { baton, pool, crew } = works;
    let Crew {
        mut workers,
        berths,
        passes,
    } = crew;
    let shop = Shop {
        baton: &baton,
        pool: &pool,
        jobs,
        gate,
    };
    run_at_once(rt, &shop, workers.as_mut_slice(), most_threads);
    Works {
        baton,
        pool,
        crew: Crew {
            workers,
            berths,
            passes,
        },
    }
}

/// Runs the scans of a batch: each task's parts, in task order and then part order, on worker `place % workers`, each
/// worker's scans in order, all workers at once, as far as there are threads, of which so many may be started beside
/// the caller's. It returns when each worker has run all its scans.
///
/// The origin `S` is what the needs, the shape, the options, the policy and the depot make, and the content `C` is that
/// of the pieces which the depot tells that it holds, or isn't told. The needs are those of the scans, one for each of
/// them in their order.
/// `Memory` comes when out of memory before the first scan begins; the depot comes back unread. Running out later stops
/// one scan.
pub fn run_scans<
    S: Origin + Send + Sync,
    C: Content + Send + Sync,
    P: Policy,
    D: Depot + Send,
    T: Gate + Sync,
    R: Threads + Wait + Sync,
>(
    rt: &R,
    alloc: Global,
    shape: &Shape,
    tasks: &[Task<'_>],
    needs: Vec<Need>,
    options: &Options,
    depot: D,
    policy: P,
    gate: &T,
    most_threads: u32,
) -> Result<ScansEnd<D>, (D, Memory)>
    requires start { IsStart S.origin }
    requires setting { S.origin.setting ≡ setting_of needs.items (chunks shape.now) options.now.workers
        options.now.frames (groups shape.now) (P.name policy) (P.cursor policy) }
    requires depot { S.origin ≡ start_of S.origin.setting (depot_view (D.held depot) (D.gets depot) (D.faults depot)) }
    requires shape { IsShape shape.now }
    requires alike { TellAlike S.origin.held C.pieces shape.now }
    requires words { options.now.frames * frame_words shape.now ≤ 33554432 }
    requires options { AreOptions (groups shape.now) options.now }
    requires needs { AllZip IsNeedOf (scans options.now.workers options.now.parts tasks.now) needs.items }
    requires plans { All (λ t. IsPlanOfShape shape.now t.plan) tasks.now }
    requires scans { All (λ t. t.query * options.now.parts ≤ 256) tasks.now }
    ensures story { IfOk result (λ e. IsWholeStory S.origin.setting e.story.items) }
    ensures results { IfOk result (λ e. AllZip (CameOf S.origin C.pieces shape.now e.story.items)
        (scans options.now.workers options.now.parts tasks.now) e.results.items) }
    ensures registers { IfOk result (λ e. (w : ℕ) → w < options.now.workers
        → RegistersInOrder e.story.items (scans options.now.workers options.now.parts tasks.now) w) }
    ensures depot { IfOk result (λ e. Agrees S.origin (past e.story.items)
        (depot_view (D.held e.depot) (D.gets e.depot) (D.faults e.depot))) }
    ensures held_back { IfErr result (λ r. D.held r.0 ≡ D.held depot) }
    ensures unread { IfErr result (λ r. D.gets r.0 ≡ D.gets depot) }
    ensures later { IfErr result (λ r. D.faults depot ≤ D.faults r.0) }
{
    let Ok(jobs) = jobs_of(alloc, &needs, tasks, options.workers, options.parts) else {
        return Err((depot, Memory));
    };
    let Ok(results) = Vec::with_capacity(alloc, jobs.len()) else {
        return Err((depot, Memory));
    };
    let Ok(mut lists) = Vec::with_capacity(alloc, options.workers as usize) else {
        return Err((depot, Memory));
    };
    let works = open::<S, C, P, D>(alloc, shape, needs, options, depot, policy)?;
    match seat(alloc, works, shape, 8 * frame_words(shape), jobs.len()) {
        Ok(works) => {
            let works = work(rt, shape, &jobs, gate, works, most_threads);
            let (story, depot) = close(rt, works, &mut lists);
            let results = in_order(&jobs, lists, results);
            Ok(ScansEnd {
                story,
                results,
                depot,
            })
        }
        Err(works) => {
            let (_, depot) = close(rt, works, &mut lists);
            Err((depot, Memory))
        }
    }
}
