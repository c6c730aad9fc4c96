// The scans of a batch, run for the depot as it is.
ghost use Rattle.std.specs.Prelude.{◌≡◌, ◌<◌, ◌≤◌, ◌*◌, ◌^◌, ℕ, All, IfErr, IfOk, map};
ghost use Rattle.std.specs.List.{AllZip};
ghost use Rattle.scan_story.specs.Setting.{HasRoom, IsSetting};
ghost use Rattle.scan_story.specs.Views.{past};
ghost use Rattle.abm_policy.specs.Depots.{Agrees, depot_view};
ghost use Rattle.abm_policy.specs.Sound.{setting_of, start_of};
ghost use Rattle.piece_format.specs.Shape.{IsShape, chunks, frame_words, groups};
ghost use Rattle.batch_plan.specs.Scans.{scans};
ghost use Rattle.batch_plan.specs.Setting.{AreOptions};
ghost use Rattle.batch_ends.specs.Rows.{IsPlanOfShape};
ghost use Rattle.batch_ends.specs.Came.{CameOf, IsNeedOf};
ghost use Rattle.batch_ends.specs.Whole.{IsWholeStory};
ghost use Rattle.batch_run.specs.Picked.{HoldsSomeTable, content_of};
ghost use Rattle.batch_ends.specs.Registering.{RegistersInOrder};

use crate::running::{ScansEnd, run_scans};
use batch_plan::{Options, Task};
use chunk_interest::Need;
use coop_outside::Depot;
use cscan::Gate;
use interest_book::Policy;
use piece_format::Shape;
use scan_story::Memory;
use std::alloc::Global;
use std::marker::Brand;
use std::sync::Wait;
use std::thread::Threads;

/// Runs the scans of a batch over a depot in which the pieces of its table are put, where it tells what it holds.
///
/// Here the meaning of the origin is picked, which is the setting that these arguments make and the depot as it is now,
/// and the meaning of the content, which is the words of the pieces that the depot tells.
pub(crate) fn run_put<P: Policy, D: Depot + Send, T: Gate + Sync, R: Threads + Wait + Sync>(
    rt: &R,
    alloc: Global,
    shape: &Shape,
    tasks: &[Task<'_>],
    needs: Vec<Need>,
    options: &Options,
    depot: D,
    policy: P,
    gate: &T,
    most_threads: u32,
) -> Result<ScansEnd<D>, (D, Memory)>
    requires setting { IsSetting (setting_of needs.items (chunks shape.now) options.now.workers options.now.frames
        (groups shape.now) (P.name policy) (P.cursor policy)) }
    requires room { HasRoom (setting_of needs.items (chunks shape.now) options.now.workers options.now.frames
        (groups shape.now) (P.name policy) (P.cursor policy)) }
    requires gets { D.gets depot ≤ 2 ^ 63 }
    requires shape { IsShape shape.now }
    requires table { HoldsSomeTable shape.now (D.held depot) }
    requires words { options.now.frames * frame_words shape.now ≤ 33554432 }
    requires options { AreOptions (groups shape.now) options.now }
    requires needs { AllZip IsNeedOf (scans options.now.workers options.now.parts tasks.now) needs.items }
    requires plans { All (λ t. IsPlanOfShape shape.now t.plan) tasks.now }
    requires scans { All (λ t. t.query * options.now.parts ≤ 256) tasks.now }
    ensures story { let s = setting_of needs.items (chunks shape.now) options.now.workers options.now.frames
        (groups shape.now) (P.name policy) (P.cursor policy) in
        IfOk result (λ e. IsWholeStory s e.story.items) }
    ensures results { let s = setting_of needs.items (chunks shape.now) options.now.workers options.now.frames
        (groups shape.now) (P.name policy) (P.cursor policy) in
        IfOk result (λ e. AllZip
        (CameOf (start_of s (depot_view (D.held depot) (D.gets depot) (D.faults depot)))
        (content_of shape.now (D.held depot)) shape.now e.story.items)
        (scans options.now.workers options.now.parts tasks.now) e.results.items) }
    ensures registers { IfOk result (λ e. (w : ℕ) → w < options.now.workers
        → RegistersInOrder e.story.items (scans options.now.workers options.now.parts tasks.now) w) }
    ensures depot { let s = setting_of needs.items (chunks shape.now) options.now.workers options.now.frames
        (groups shape.now) (P.name policy) (P.cursor policy) in
        IfOk result (λ e. Agrees (start_of s (depot_view (D.held depot) (D.gets depot) (D.faults depot)))
        (past e.story.items) (depot_view (D.held e.depot) (D.gets e.depot) (D.faults e.depot))) }
    ensures held_back { IfErr result (λ r. D.held r.0 ≡ D.held depot) }
    ensures unread { IfErr result (λ r. D.gets r.0 ≡ D.gets depot) }
    ensures later { IfErr result (λ r. D.faults depot ≤ D.faults r.0) }
{
    run_scans::<Brand, Brand, P, D, T, R>(
        rt,
        alloc,
        shape,
        tasks,
        needs,
        options,
        depot,
        policy,
        gate,
        most_threads,
    )
}
