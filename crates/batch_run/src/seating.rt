// The desk, the baton, the pool and the crew of a batch: made, and taken apart again.
ghost use Rattle.std.specs.Prelude.{◌≡◌, ◌≤◌, ◌+◌, ◌*◌, ◌++◌, ℕ, [], All, IfErr};
ghost use Rattle.std.specs.Prelude.{IfOk, map, reverse, vec_len, vec_capacity};
ghost use Rattle.scan_story.specs.Legal.{Legal};
ghost use Rattle.scan_story.specs.Setting.{IsStart};
ghost use Rattle.scan_story.specs.Views.{past};
ghost use Rattle.scan_story.specs.Whole.{Undisturbed};
ghost use Rattle.story_laws.specs.Bounds.{IsShort, LoadsArePaid, WholeLoadLittle};
ghost use Rattle.story_laws.specs.Victims.{VictimsWereFar};
ghost use Rattle.abm_policy.specs.Depots.{Agrees, depot_view};
ghost use Rattle.abm_policy.specs.Sound.{setting_of, start_of};
ghost use Rattle.baton.specs.Passes.{AgreesWith, new_passes};
ghost use Rattle.piece_format.specs.Shape.{IsShape, chunks, frame_words, groups};
ghost use Rattle.batch_plan.specs.Setting.{AreOptions};
ghost use Rattle.batch_run.specs.Crews.{AreFresh, IsCrew, passes_of, up_to, workers_of};
ghost use Rattle.batch_run.specs.Workers.{Rests};

use crate::crew::{Crew, unseat_all};
use crate::worker::Worker;
use abm_policy::Desk;
use batch_plan::Options;
use baton::{Baton, Pass};
use chunk_interest::Need;
use coop_outside::Depot;
use frame_pool::{Content, Pool};
use interest_book::Policy;
use piece_format::{Shape, frame_words, groups};
use query_gather::Partial;
use scan_story::{Cause, Entry, Memory, Origin};
use std::alloc::Global;
use std::collections::VecDeque;
use std::sync::Wait;
use table_core::chunk_count;

/// What workers work at, and the workers: the desk, which lies at the baton or is with a worker, the pool of frames,
/// and the crew.
pub(crate) struct Works<'a, S: Origin, C: Content, P: Policy, D: Depot> {
    pub(crate) baton: Baton<Desk<S, P, D>>,
    pub(crate) pool: Pool<C>,
    pub(crate) crew: Crew<'a, S, C, P, D>,
}

// A baton with a new desk, and a pass for each worker. Where memory runs out, the depot comes back.
fn desk_at_baton<S: Origin, P: Policy, D: Depot>(
    alloc: Global,
    shape: &Shape,
    needs: Vec<Need>,
    options: &Options,
    depot: D,
    policy: P,
) -> Result<(Baton<Desk<S, P, D>>, Vec<Pass<Desk<S, P, D>>>), (D, Memory)>
    requires start { IsStart S.origin }
    requires setting { S.origin.setting ≡ setting_of needs.items (chunks shape.now) options.now.workers
        options.now.frames (groups shape.now) (P.name policy) (P.cursor policy) }
    requires depot { S.origin ≡ start_of S.origin.setting (depot_view (D.held depot) (D.gets depot) (D.faults depot)) }
    requires shape { IsShape shape.now }
    requires workers { (1 ≤ options.now.workers) × (options.now.workers ≤ 32) }
    ensures passes { IfOk result (λ r. r.1.items ≡ new_passes r.0 S.origin [] options.now.workers) }
    ensures count { IfOk result (λ r. vec_len r.1 ≡ options.now.workers) }
    ensures held_back { IfErr result (λ r. D.held r.0 ≡ D.held depot) }
    ensures unread { IfErr result (λ r. D.gets r.0 ≡ D.gets depot) }
    ensures later { IfErr result (λ r. D.faults depot ≤ D.faults r.0) }
{
    let chunks = chunk_count(shape.rows, shape.per);
    let groups = groups(shape);
    let desk = match Desk::<S, P, D>::new(
        alloc,
        needs,
        chunks,
        options.workers,
        options.frames,
        groups,
        policy,
        depot,
    ) {
        Ok(desk) => desk,
        Err((_, depot, Memory)) => return Err((depot, Memory)),
    };
    match Baton::new(alloc, desk, options.workers) {
        Ok(made) => Ok(made),
        Err((desk, Memory)) => {
            let (_, _, depot) = desk.into_parts();
            Err((depot, Memory))
        }
    }
}

/// All that the workers work at, and a crew in which nobody has a station yet. Where memory runs out, the depot comes
/// back unread.
pub(crate) fn open<'a, S: Origin, C: Content, P: Policy, D: Depot>(
    alloc: Global,
    shape: &Shape,
    needs: Vec<Need>,
    options: &Options,
    depot: D,
    policy: P,
) -> Result<Works<'a, S, C, P, D>, (D, Memory)>
    requires start { IsStart S.origin }
    requires setting { S.origin.setting ≡ setting_of needs.items (chunks shape.now) options.now.workers
        options.now.frames (groups shape.now) (P.name policy) (P.cursor policy) }
    requires depot { S.origin ≡ start_of S.origin.setting (depot_view (D.held depot) (D.gets depot) (D.faults depot)) }
    requires shape { IsShape shape.now }
    requires options { AreOptions (groups shape.now) options.now }
    requires words { options.now.frames * frame_words shape.now ≤ 33554432 }
    ensures crew { IfOk result (λ w. IsCrew S.origin w.baton w.pool w.crew) }
    ensures fresh { (jobs : ℕ) → IfOk result (λ w. AreFresh w.baton S.origin shape.now jobs w.crew) }
    ensures passes { IfOk result (λ w. passes_of w.crew ≡ new_passes w.baton S.origin [] options.now.workers) }
    ensures pool { IfOk result (λ w. (w.pool.shape.frames ≡ options.now.frames)
        × (w.pool.shape.words ≡ frame_words shape.now) × (w.pool.berths ≡ options.now.workers)) }
    ensures held_back { IfErr result (λ r. D.held r.0 ≡ D.held depot) }
    ensures unread { IfErr result (λ r. D.gets r.0 ≡ D.gets depot) }
    ensures later { IfErr result (λ r. D.faults depot ≤ D.faults r.0) }
{
    let mut workers: Vec<Worker<'a, S, C, P, D>> = Vec::new(alloc);
    if workers.reserve(options.workers as usize).is_err() {
        workers.destroy_empty();
        return Err((depot, Memory));
    }
    let words = frame_words(shape);
    let Ok((pool, berths)) = Pool::<C>::new(alloc, options.frames, words, options.workers) else {
        workers.destroy_empty();
        return Err((depot, Memory));
    };
    match desk_at_baton::<S, P, D>(alloc, shape, needs, options, depot, policy) {
        Ok((baton, passes)) => Ok(Works {
            baton,
            pool,
            crew: Crew {
                workers,
                berths,
                passes,
            },
        }),
        Err((depot, Memory)) => {
            workers.destroy_empty();
            pool.close(berths);
            Err((depot, Memory))
        }
    }
}

/// Takes all of it apart, while each worker rests: the story, the depot, and what came of each worker's scans.
pub(crate) fn close<S: Origin, C: Content, P: Policy, D: Depot, R: Wait>(
    rt: &R,
    works: Works<'_, S, C, P, D>,
    lists: &mut Vec<VecDeque<Result<Partial, Cause>>>,
) -> (Vec<Entry>, D)
    requires start { IsStart S.origin }
    requires crew { IsCrew S.origin works.baton works.pool works.crew }
    requires rest { All (Rests S.origin) (passes_of works.crew) }
    requires numbers { workers_of (passes_of works.crew) ≡ up_to S.origin.setting.workers }
    requires room { vec_len lists.old + vec_len works.crew.workers ≤ vec_capacity lists.old }
    ensures lists { lists.new.items ≡ lists.old.items ++ reverse (map (λ w. w.results) works.entry.crew.workers.items) }
    ensures agree { All (AgreesWith S.origin result.0.items) (passes_of works.entry.crew) }
    ensures legal { Legal S.origin.setting (past result.0.items) }
    ensures paid { LoadsArePaid S.origin.setting (past result.0.items) }
    ensures little { WholeLoadLittle S.origin.setting (past result.0.items) }
    ensures short { IsShort S.origin.setting (past result.0.items) }
    ensures far { VictimsWereFar S.origin.setting (past result.0.items) }
    ensures undisturbed { Undisturbed S.origin.setting (past result.0.items) }
    ensures depot { Agrees S.origin (past result.0.items)
        (depot_view (D.held result.1) (D.gets result.1) (D.faults result.1)) }
{
    let Works {
        baton,
        pool,
        mut crew,
    } = works;
    unseat_all(&baton, &pool, &mut crew, lists);
    let Crew {
        workers,
        berths,
        passes,
    } = crew;
    workers.destroy_empty();
    pool.close(berths);
    let desk = baton.finish(rt, passes);
    desk.is_legal();
    let (story, _, depot) = desk.into_parts();
    (story, depot)
}
