// The top call: a batch on several workers.
ghost use Rattle.std.specs.Prelude.{◌≡◌, ◌<◌, ◌≤◌, ◌*◌, ◌^◌, ℕ, All, IfErr, IfOk, is_some, length, map};
ghost use Rattle.std.specs.List.{AllZip};
ghost use Rattle.table_core.specs.Chunk.{chunk_count};
ghost use Rattle.table_sets.specs.Sets.{Rising};
ghost use Rattle.piece_format.specs.Shape.{frame_words, groups, pieces};
ghost use Rattle.scan_story.specs.Views.{past};
ghost use Rattle.query_gather.specs.Answer.{CanBeWritten, IsAnswer};
ghost use Rattle.table_pieces.specs.Putting.{ArePut};
ghost use Rattle.table_pieces.specs.Shaping as spec;
ghost use Rattle.table_pieces.specs.Zoning.{chunk_zones};
ghost use Rattle.batch_plan.specs.Scans.{scans};
ghost use Rattle.batch_plan.specs.Setting.{AreOptions, batch_setting};
ghost use Rattle.batch_ends.specs.Lost.{IsLostBy, Tells, stop_of};
ghost use Rattle.batch_ends.specs.Refusals.{IsRefusal};
ghost use Rattle.batch_ends.specs.Registering.{RegistersInOrder};
ghost use Rattle.batch_ends.specs.Story.{IsStoryOver, counts};
ghost use Rattle.batch_ends.specs.Taken.{IsTakenBy, TookNeed};
ghost use Rattle.batch_ends.specs.Tasks.{CanBeLoaded, IsPlanOfTable};

use crate::picking::run_put;
use crate::running::ScansEnd;
use batch_ends::{BatchEnd, Ran, Setup, answer_all, note_all, set_up};
use batch_plan::{Options, Task};
use coop_outside::Depot;
use cscan::Gate;
use csv_load::Loaded;
use interest_book::Policy;
use std::alloc::Global;
use std::sync::Wait;
use std::thread::Threads;
use table_pieces::{BatchRefusal, put_pieces};

/// Answers a batch of queries over one table, on as many workers as the options say, each in a thread of its own as far
/// as there are threads.
///
/// All pieces of the table are put into the depot before a scan begins. Each query is split into as many scans as there
/// are parts; the scans of all tasks, in task order and then part order, are dealt to the workers in turn, and each
/// worker runs its scans in order over the frames that all share. What the parts of a query gathered is joined, and the
/// query is answered. A read that fails and a damaged piece stop the query for which the piece was loaded, and so does
/// `Memory` once the workers have started.
///
/// At most `most_threads` threads are started beside the caller's, and one may be refused. Where there are fewer
/// threads than workers, a thread runs several workers, one after another; with 0 the caller runs all of them. All that
/// is said below holds then too.
///
/// The table and its dictionaries are those that `csv_load::load` answers, and each plan is one that `sql_bind` answers
/// over them. The numbers of the tasks rise from at least 1 to at most 256, and no scan's number passes 256. There are
/// 1 to 16384 rows in a chunk, and at most 1024 chunks; there are frames enough, with at most 33554432 words in all;
/// the depot's gets are at most 2^63.
/// After a refusal, of which `BatchRefusal` tells the meaning, the depot comes back, and no piece was read.
pub fn run_batch<P: Policy, D: Depot + Send, T: Gate + Sync, R: Threads + Wait + Sync>(
    rt: &R,
    alloc: Global,
    loaded: Loaded,
    tasks: &[Task<'_>],
    options: &Options,
    depot: D,
    policy: P,
    gate: &T,
    most_threads: u32,
) -> Result<BatchEnd<D>, (D, BatchRefusal)>
    requires loaded { CanBeLoaded loaded.table loaded.dicts.items }
    requires plans { All (λ t. IsPlanOfTable loaded.table.columns loaded.dicts.items t.plan) tasks.now }
    requires numbers { Rising 1 (map (λ t. t.query) tasks.now) 257 }
    requires scans { All (λ t. t.query * options.now.parts ≤ 256) tasks.now }
    requires some { 1 ≤ options.now.per }
    requires short { options.now.per ≤ 16384 }
    requires few { chunk_count (length loaded.table.rows) options.now.per ≤ 1024 }
    requires options { AreOptions (groups (spec.shape_of loaded.table loaded.dicts.items options.now.layout
        options.now.per)) options.now }
    requires words { options.now.frames * frame_words
        (spec.shape_of loaded.table loaded.dicts.items options.now.layout options.now.per) ≤ 33554432 }
    requires gets { D.gets depot ≤ 2 ^ 63 }
    // where the depot tells what it holds, each answer is the one to its plan over the whole table, unless the query
    // was stopped
    ensures answers { IfOk result (λ e. Tells (D.held depot)
        → AllZip (λ t a. IsAnswer t.plan loaded.table.rows a) tasks.now e.answers.items) }
    // whatever the depot gave, the rows of each answer can be written
    ensures written { IfOk result (λ e. AllZip (λ t a. CanBeWritten loaded.dicts.items t.plan a) tasks.now
        e.answers.items) }
    // a query is stopped as the story says of its scans, or when out of memory
    ensures lost { IfOk result (λ e. AllZip (λ t a. IsLostBy (past e.ran.story.items) options.now.parts t.query
        (stop_of a)) tasks.now e.answers.items) }
    // the story is whole, legal, undisturbed and bounded in the setting of this batch; each of its faults has its
    // cause, and the depot was read as it says
    ensures story { let s = spec.shape_of loaded.table loaded.dicts.items options.now.layout options.now.per in
        IfOk result (λ e. IsStoryOver
        (batch_setting s (chunk_zones s loaded.table.rows) tasks.now options.now (P.name policy) (P.cursor policy))
        (is_some (D.held depot))
        (counts (D.gets depot) (D.faults depot)) (counts (D.gets e.depot) (D.faults e.depot)) e.ran.story.items) }
    // one element for each scan, in their order, with exactly the chunks that the story delivered to it
    ensures taken { IfOk result (λ e. AllZip (IsTakenBy e.ran.story.items)
        (scans options.now.workers options.now.parts tasks.now) e.ran.taken.items) }
    // each scan took chunks of its need, each once, and where it ended all of them
    ensures took { let s = spec.shape_of loaded.table loaded.dicts.items options.now.layout options.now.per in
        IfOk result (λ e. All (TookNeed (chunk_zones s loaded.table.rows) options.now.parts e.ran.story.items)
        (scans options.now.workers options.now.parts tasks.now)) }
    // each worker registered its scans in the order of its tasks
    ensures registers { IfOk result (λ e. (w : ℕ) → w < options.now.workers
        → RegistersInOrder e.ran.story.items (scans options.now.workers options.now.parts tasks.now) w) }
    // all pieces are put, and stay
    ensures stored { let s = spec.shape_of loaded.table loaded.dicts.items options.now.layout options.now.per in
        IfOk result (λ e. ArePut s loaded.table.rows (pieces s) (pieces s) (D.held depot) (D.held e.depot)) }
    ensures schema { IfOk result (λ e. e.schema ≡ loaded.table.columns) }
    ensures dicts { IfOk result (λ e. e.dicts.items ≡ loaded.dicts.items) }
    // why not all pieces were put, and which of them are
    ensures refused { let s = spec.shape_of loaded.table loaded.dicts.items options.now.layout options.now.per in
        IfErr result (λ r. IsRefusal s loaded.table.rows (D.held depot) (D.held r.0) (D.faults depot)
        (D.faults r.0) r.1) }
    ensures refused_gets { IfErr result (λ r. D.gets r.0 ≡ D.gets depot) }
    ensures refused_faults { IfErr result (λ r. D.faults depot ≤ D.faults r.0) }
{
    let mut depot = depot;
    let Loaded { table, dicts } = loaded;
    let setup = match set_up(alloc, &table, &dicts, tasks, options) {
        Ok(setup) => setup,
        Err(_) => return Err((depot, BatchRefusal::Memory)),
    };
    let Setup {
        shape,
        needs,
        mut answers,
        mut taken,
    } = setup;
    // No more threads make pieces than there are workers.
    let threads = most_threads.min(options.workers.saturating_sub(1));
    match put_pieces(rt, alloc, &shape, &table, &mut depot, threads) {
        Ok(()) => {}
        Err(refusal) => {
            answers.destroy_empty();
            return Err((depot, refusal));
        }
    }
    // What is answered comes from the depot.
    let schema = table.into_schema();
    let end = run_put(
        rt,
        alloc,
        &shape,
        tasks,
        needs,
        options,
        depot,
        policy,
        gate,
        most_threads,
    );
    let ScansEnd {
        story,
        results,
        depot,
    } = match end {
        Ok(end) => end,
        Err((depot, _)) => {
            answers.destroy_empty();
            return Err((depot, BatchRefusal::Memory));
        }
    };
    answer_all(alloc, tasks.len(), options.parts, results, &mut answers);
    note_all(&mut taken, options.parts, &story);
    Ok(BatchEnd {
        answers,
        ran: Ran { story, taken },
        depot,
        schema,
        dicts,
    })
}
