// A batch of texts.
ghost use Rattle.std.specs.Prelude.{◌≡◌, ◌≤◌, ◌*◌, ◌^◌, All, IfOk, length, map};
ghost use Rattle.std.specs.Bool.{OnTrue};
ghost use Rattle.table_sets.specs.Sets.{Rising};
ghost use Rattle.table_core.specs.Value.{places_of};
ghost use Rattle.table_core.specs.Chunk.{chunk_count as chunks_of};
ghost use Rattle.piece_format.specs.Shape.{IsShape, frame_words as words_of, groups as groups_of};
ghost use Rattle.table_pieces.specs.Shaping as spec;
ghost use Rattle.batch_plan.specs.Setting.{AreOptions};
ghost use Rattle.batch_ends.specs.Tasks.{CanBeLoaded, IsPlanOfTable};

use batch_run::{BatchEnd, BatchRefusal, Options, Task, run_batch};
use coop_outside::{Depot, MemDepot};
use cscan::{Gate, NoGate};
use csv_load::{Loaded, load};
use piece_format::{Layout, Shape, frame_words, groups};
use relevance::{Policy, Relevance};
use sql_bind::{Plan, plan_of};
use std::alloc::Global;
use std::hash::RandomState;
use std::process::Abort;
use std::sync::Wait;
use std::test::Fail;
use std::thread::Threads;
use table_core::{Dict, Schema, chunk_count, places_of_kind};
use table_pieces::shape_of;

pub(crate) const COUNT: &[u8] = b"SELECT COUNT(*) FROM t";

pub(crate) const SUM: &[u8] = b"SELECT SUM(pay) FROM t";

// The next number of a row of numbers.
pub(crate) fn next(seed: u64) -> u64 {
    seed.wrapping_mul(6364136223846793005)
        .wrapping_add(1442695040888963407)
}

// One worker with the least frames, and two rows in a chunk.
pub(crate) const ALONE: Options = Options {
    workers: 1,
    frames: 4,
    per: 2,
    layout: Layout::Row,
    parts: 1,
};

// The same over pieces of the columns of table A.
pub(crate) const ALONE_BY_COLUMNS: Options = Options {
    workers: 1,
    frames: 12,
    per: 2,
    layout: Layout::Column,
    parts: 1,
};

fn load_text<R: Abort + Threads + Sync>(
    rt: &R,
    alloc: Global,
    keys: RandomState,
    text: &[u8],
) -> Result<Loaded, Fail>
    ensures { IfOk result (λ l. CanBeLoaded l.table l.dicts.items) }
{
    assert!(rt; text.len() <= 1000);
    match load(rt, alloc, keys, text, 0) {
        Ok(loaded) => Ok(loaded),
        Err(_) => panic!(rt; "no table"),
    }
}

fn can_bind(schema: &Schema, dicts: &[Dict]) -> bool
    ensures few { OnTrue result (length schema.now ≤ 16) }
    ensures places { OnTrue result (All (λ c. places_of c.kind ≤ 9) schema.now) }
    ensures dicts { OnTrue result (length dicts.now ≡ length schema.now) }
{
    schema.len() <= 16
        && dicts.len() == schema.len()
        && schema
            .columns()
            .iter()
            .all(|column| places_of_kind(column.kind) <= 9)
}

// The plan of a statement over a table.
fn plan_for(rt: &impl Abort, alloc: Global, loaded: &Loaded, statement: &[u8]) -> Result<Plan, Fail>
    ensures { IfOk result (λ p. IsPlanOfTable loaded.now.table.columns loaded.now.dicts.items p) }
{
    let schema = loaded.table.schema();
    let dicts = loaded.dicts.as_slice();
    assert!(rt; can_bind(schema, dicts));
    assert!(rt; statement.len() <= 1000);
    match plan_of(alloc, statement, schema, dicts) {
        Ok(plan) => Ok(plan),
        Err(_) => panic!(rt; "no plan"),
    }
}

// The plans of some statements.
fn plans_of(
    rt: &impl Abort,
    alloc: Global,
    loaded: &Loaded,
    statements: &[&[u8]],
) -> Result<Vec<Plan>, Fail>
    ensures { IfOk result (λ ps. All (λ p. IsPlanOfTable loaded.now.table.columns loaded.now.dicts.items p) ps.items) }
{
    let mut plans = Vec::new(alloc);
    for statement in statements {
        let plan = plan_for(rt, alloc, loaded, statement)?;
        plans.push(plan)?;
    }
    Ok(plans)
}

// A task for each plan, numbered from 1, each in so many parts.
fn tasks_of<'a>(
    rt: &impl Abort,
    alloc: Global,
    plans: &'a [Plan],
    parts: u32,
) -> Result<Vec<Task<'a>>, Fail>
    ensures plans { IfOk result (λ ts. map (λ t. t.plan) ts.items ≡ plans.now) }
    ensures numbers { IfOk result (λ ts. Rising 1 (map (λ t. t.query) ts.items) 257) }
    ensures scans { IfOk result (λ ts. All (λ t. t.query * parts ≤ 256) ts.items) }
{
    assert!(rt; plans.len() <= 256);
    assert!(rt; parts <= 32);
    let mut tasks = Vec::new(alloc);
    let mut query: u32 = 0;
    for plan in plans {
        query += 1;
        assert!(rt; query * parts <= 256);
        tasks.push(Task { query, plan })?;
    }
    Ok(tasks)
}

// Whether a batch over a table of this shape may run so.
fn may_run(shape: &Shape, options: &Options) -> bool
    requires { IsShape shape.now }
    ensures options { OnTrue result (AreOptions (groups_of shape.now) options.now) }
    ensures words { OnTrue result (options.now.frames * words_of shape.now ≤ 33554432) }
{
    let workers = options.workers;
    if workers < 1 || workers > 32 || options.parts < 1 || options.parts > 32 {
        return false;
    }
    (3 * workers + 1) * groups(shape) <= options.frames
        && options.frames <= 33554432
        && u64::from(options.frames) * u64::from(frame_words(shape)) <= 33554432
}

// The options are those of a batch over this table.
fn expect_options(
    rt: &impl Abort,
    alloc: Global,
    loaded: &Loaded,
    options: &Options,
) -> Result<(), Fail>
    requires loaded { CanBeLoaded loaded.now.table loaded.now.dicts.items }
    requires some { 1 ≤ options.now.per }
    requires short { options.now.per ≤ 16384 }
    requires limits { IsShape (spec.shape_of loaded.now.table loaded.now.dicts.items options.now.layout
        options.now.per) }
    ensures options { IfOk result (λ done. AreOptions
        (groups_of (spec.shape_of loaded.now.table loaded.now.dicts.items options.now.layout options.now.per))
        options.now) }
    ensures words { IfOk result (λ done. options.now.frames * words_of
        (spec.shape_of loaded.now.table loaded.now.dicts.items options.now.layout options.now.per) ≤ 33554432) }
{
    let dicts = loaded.dicts.as_slice();
    let shape = shape_of(alloc, &loaded.table, dicts, options.layout, options.per)?;
    assert!(rt; may_run(&shape, options));
    Ok(())
}

// Whether a table of at most 1,000 rows has few enough chunks of so many rows.
fn is_cut(loaded: &Loaded, per: u32) -> bool
    ensures some { OnTrue result (1 ≤ per) }
    ensures short { OnTrue result (per ≤ 16384) }
    ensures few { OnTrue result (chunks_of (length loaded.now.table.rows) per ≤ 1024) }
{
    if per < 1 || per > 16384 || loaded.table.len() > 1000 {
        return false;
    }
    chunk_count(loaded.table.len() as u32, per) <= 1024
}

// The table of a batch that may run under these options.
fn table_for<R: Abort + Threads + Sync>(
    rt: &R,
    alloc: Global,
    keys: RandomState,
    text: &[u8],
    options: &Options,
) -> Result<Loaded, Fail>
    ensures loaded { IfOk result (λ l. CanBeLoaded l.table l.dicts.items) }
    ensures some { IfOk result (λ l. 1 ≤ options.now.per) }
    ensures short { IfOk result (λ l. options.now.per ≤ 16384) }
    ensures few { IfOk result (λ l. chunks_of (length l.table.rows) options.now.per ≤ 1024) }
    ensures options { IfOk result (λ l. AreOptions
        (groups_of (spec.shape_of l.table l.dicts.items options.now.layout options.now.per)) options.now) }
    ensures words { IfOk result (λ l. options.now.frames * words_of
        (spec.shape_of l.table l.dicts.items options.now.layout options.now.per) ≤ 33554432) }
{
    let loaded = load_text(rt, alloc, keys, text)?;
    assert!(rt; is_cut(&loaded, options.per));
    expect_options(rt, alloc, &loaded, options)?;
    Ok(loaded)
}

// A batch under a policy on at most so many threads beside the caller's, or why it doesn't start.
pub(crate) fn run_on_threads<
    R: Abort + Threads + Wait + Sync,
    P: Policy,
    D: Depot + Send,
    T: Gate + Sync,
>(
    rt: &R,
    alloc: Global,
    keys: RandomState,
    text: &[u8],
    statements: &[&[u8]],
    options: Options,
    depot: D,
    policy: P,
    gate: &T,
    most_threads: u32,
) -> Result<Result<BatchEnd<D>, BatchRefusal>, Fail>
    requires { D.gets depot ≤ 2 ^ 63 }
{
    let loaded = table_for(rt, alloc, keys, text, &options)?;
    let plans = plans_of(rt, alloc, &loaded, statements)?;
    let tasks = tasks_of(rt, alloc, &plans, options.parts)?;
    match run_batch(
        rt,
        alloc,
        loaded,
        &tasks,
        &options,
        depot,
        policy,
        gate,
        most_threads,
    ) {
        Ok(end) => Ok(Ok(end)),
        Err((_, refusal)) => Ok(Err(refusal)),
    }
}

// A batch under a policy on a thread for each worker, or why it doesn't start.
pub(crate) fn run_under<
    R: Abort + Threads + Wait + Sync,
    P: Policy,
    D: Depot + Send,
    T: Gate + Sync,
>(
    rt: &R,
    alloc: Global,
    keys: RandomState,
    text: &[u8],
    statements: &[&[u8]],
    options: Options,
    depot: D,
    policy: P,
    gate: &T,
) -> Result<Result<BatchEnd<D>, BatchRefusal>, Fail>
    requires { D.gets depot ≤ 2 ^ 63 }
{
    let most_threads = options.workers;
    run_on_threads(
        rt,
        alloc,
        keys,
        text,
        statements,
        options,
        depot,
        policy,
        gate,
        most_threads,
    )
}

// A batch under relevance, or why it doesn't start.
pub(crate) fn run<R: Abort + Threads + Wait + Sync, D: Depot + Send, T: Gate + Sync>(
    rt: &R,
    alloc: Global,
    keys: RandomState,
    text: &[u8],
    statements: &[&[u8]],
    options: Options,
    depot: D,
    gate: &T,
) -> Result<Result<BatchEnd<D>, BatchRefusal>, Fail>
    requires { D.gets depot ≤ 2 ^ 63 }
{
    run_under(
        rt, alloc, keys, text, statements, options, depot, Relevance, gate,
    )
}

// A table, statements, and how their batch runs.
#[derive(Clone, Copy)]
pub(crate) struct Trial<'a> {
    pub(crate) text: &'a str,
    pub(crate) statements: &'a [&'a [u8]],
    pub(crate) options: Options,
}

// The end of a batch under relevance, beside no gate.
pub(crate) fn ended<R: Abort + Threads + Wait + Sync, D: Depot + Send>(
    rt: &R,
    alloc: Global,
    keys: RandomState,
    trial: &Trial<'_>,
    depot: D,
) -> Result<BatchEnd<D>, Fail>
    requires { D.gets depot ≤ 2 ^ 63 }
{
    let text = trial.text.as_bytes();
    let (statements, options) = (trial.statements, trial.options);
    match run(rt, alloc, keys, text, statements, options, depot, &NoGate)? {
        Ok(end) => Ok(end),
        Err(_) => panic!(rt; "refused"),
    }
}

// The same over a depot in memory whose gets of these numbers fail.
pub(crate) fn ended_in_memory<R: Abort + Threads + Wait + Sync>(
    rt: &R,
    alloc: Global,
    keys: RandomState,
    trial: &Trial<'_>,
    fail_gets: &[u64],
) -> Result<BatchEnd<MemDepot>, Fail> {
    let mut depot = MemDepot::new(alloc);
    depot.fail_gets = Vec::from_slice(alloc, fail_gets)?;
    ended(rt, alloc, keys, trial, depot)
}
