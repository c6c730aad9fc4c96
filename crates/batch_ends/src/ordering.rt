// What came of the scans, in their order.
ghost use Rattle.std.specs.Prelude.{◌≡◌, ◌≤◌, ◌<◌, [], All, List, length, map, vec_len, vec_capacity};
ghost use Rattle.scan_story.specs.declared.entry.Entry.{Entry};
ghost use Rattle.scan_story.specs.declared.origin.Start.{Start};
ghost use Rattle.frame_pool.specs.Frames.{Told};
ghost use Rattle.piece_format.specs.Shape.{TableShape};
ghost use Rattle.batch_ends.specs.Lists.{AreCounted, AreSorted, CameOfAll};

use crate::job::Job;
use query_gather::Partial;
use scan_story::Cause;
use std::collections::VecDeque;

/// The results of all jobs in their order, taken from the lists of the workers, each in the order of its worker's jobs.
pub fn in_order(
    jobs: &[Job<'_>],
    mut lists: Vec<VecDeque<Result<Partial, Cause>>>,
    mut all: Vec<Result<Partial, Cause>>,
) -> Vec<Result<Partial, Cause>>
    requires workers { All (λ j. j.worker < vec_len lists) jobs.now }
    requires counted { AreCounted jobs.now (map (λ l. l.items) lists.items) }
    requires room { (all.items ≡ []) × (length jobs.now ≤ vec_capacity all) }
    ensures { (o : Start) (told : Told) (z : TableShape) (story : List Entry)
        → AreSorted o told z story jobs.now (map (λ l. l.items) lists.items)
        → CameOfAll o told z story jobs.now result.items }
{
    for job in jobs {
        let Some(result) = lists[job.worker as usize].pop_front() else {
            unreachable!()
        };
        all.push_reserved(result);
    }
    all
}
