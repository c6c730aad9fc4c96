//! Two scans by turns, on one thread.
ghost use Rattle.std.specs.Prelude.{◌≡◌, [], None, length};
ghost use Rattle.abm_policy.specs.Depots.{depot_view};
ghost use Rattle.abm_policy.specs.Sound.{start_of};
ghost use Rattle.scan_story.specs.MayFollow.{MayRegister};
ghost use Rattle.scan_story.specs.Views.{past};
ghost use Rattle.cscan.specs.Scans.{ReadsColumns};
ghost use Rattle.cscan.specs.Scans.{Fits, HasColumns, IsOver, IsSameScan};
ghost use Rattle.cscan.specs.Stations.{IsSeated};
ghost use Rattle.trial_scans.specs.Trials.{MayGoOn, StandsAt, under};

use crate::at::At;
use crate::desks::desk_of;
use crate::fitting::{columns_of, fit_each_other, has_columns, is_on};
use crate::notes::Notes;
use crate::outcome::{Outcome, ended};
use crate::seats::{seated, unseated};
use crate::steps::{end, let_go, step};
use abm_policy::Desk;
use baton::Baton;
use coop_outside::{Depot, SpoiltDepot};
use cscan::{CScan, NoGate, Station};
use frame_pool::{Content, Pool};
use piece_format::{Shape, frame_words};
use relevance::Policy;
use scan_story::{Memory, Origin, Setting};
use std::alloc::Global;
use std::marker::Brand;
use std::sync::Wait;
use table_core::{Cell, ColumnSet};

// The turns of two scans, and where each stands after them.
fn play<S: Origin, C: Content, P: Policy, D: Depot, R: Wait>(
    rt: &R,
    first: &mut CScan<'_, S, C, P, D, NoGate>,
    second: &mut CScan<'_, S, C, P, D, NoGate>,
    turns: &[u32],
    columns: (&ColumnSet, &ColumnSet),
    cells: &mut [Cell],
    notes: &mut Notes,
) -> (At, At)
    requires first { StandsAt S.origin C.pieces first.old At.Ready }
    requires second { StandsAt S.origin C.pieces second.old At.Ready }
    requires columns { ReadsColumns S.origin.setting first.old.query columns.0.now
        × ReadsColumns S.origin.setting second.old.query columns.1.now }
    requires widths { (length cells.old ≡ length first.old.shape.now.kinds)
        × (length cells.old ≡ length second.old.shape.now.kinds) }
    ensures same { IsSameScan first.old first.new × IsSameScan second.old second.new }
    ensures first { StandsAt S.origin C.pieces first.new result.0 }
    ensures second { StandsAt S.origin C.pieces second.new result.1 }
{
    let mut one = At::Ready;
    let mut other = At::Ready;
    for worker in turns {
        if *worker == 0 {
            one = step(rt, first, one, 0, columns.0, cells, notes);
        } else {
            other = step(rt, second, other, 1, columns.1, cells, notes);
        }
    }
    (one, other)
}

// The turns of two scans, after which nothing is out; whether each is still under way.
fn play_out<S: Origin, C: Content, P: Policy, D: Depot, R: Wait>(
    rt: &R,
    first: &mut CScan<'_, S, C, P, D, NoGate>,
    second: &mut CScan<'_, S, C, P, D, NoGate>,
    turns: &[u32],
    columns: (&ColumnSet, &ColumnSet),
    cells: &mut [Cell],
    notes: &mut Notes,
) -> (bool, bool)
    requires first { StandsAt S.origin C.pieces first.old At.Ready }
    requires second { StandsAt S.origin C.pieces second.old At.Ready }
    requires columns { ReadsColumns S.origin.setting first.old.query columns.0.now
        × ReadsColumns S.origin.setting second.old.query columns.1.now }
    requires widths { (length cells.old ≡ length first.old.shape.now.kinds)
        × (length cells.old ≡ length second.old.shape.now.kinds) }
    ensures same { IsSameScan first.old first.new × IsSameScan second.old second.new }
    ensures first { MayGoOn S.origin C.pieces result.0 first.new }
    ensures second { MayGoOn S.origin C.pieces result.1 second.new }
{
    let (one, other) = play(rt, first, second, turns, columns, cells, notes);
    let one = let_go(rt, first, one, 0, notes);
    let other = let_go(rt, second, other, 1, notes);
    (one, other)
}

// Begins the scans of query 1 on the first station and of query 2 on the second, takes the turns, and stops what isn't
// over.
fn drive<S: Origin, C: Content, P: Policy, D: Depot, R: Wait>(
    rt: &R,
    baton: &Baton<Desk<S, P, D>>,
    pool: &Pool<C>,
    shape: &Shape,
    first: &mut Station<S, C, P, D>,
    second: &mut Station<S, C, P, D>,
    columns: (&ColumnSet, &ColumnSet),
    turns: &[u32],
    notes: &mut Notes,
)
    requires first { IsSeated baton.now pool.now S.origin [] first.old
        × MayRegister S.origin.setting (past first.old.pass.seen) first.old.number 1 }
    requires second { IsSeated baton.now pool.now S.origin [] second.old
        × MayRegister S.origin.setting (past second.old.pass.seen) second.old.number 2 }
    requires fits { Fits S.origin C.pieces shape.now pool.now }
    requires has { HasColumns S.origin.setting shape.now 1 × HasColumns S.origin.setting shape.now 2 }
    requires columns { ReadsColumns S.origin.setting 1 columns.0.now × ReadsColumns S.origin.setting 2 columns.1.now }
    ensures first { IsOver S.origin baton.now pool.now 1 first.new }
    ensures second { IsOver S.origin baton.now pool.now 2 second.new }
{
    let mut cells = [Cell::Null; 16];
    let cells = &mut cells[..shape.kinds.len()];
    let mut one = CScan::begin(rt, baton, pool, shape, first, 1);
    let mut other = CScan::begin(rt, baton, pool, shape, second, 2);
    let going = play_out(rt, &mut one, &mut other, turns, columns, cells, notes);
    end(rt, one, going.0, 0, notes);
    end(rt, other, going.1, 1, notes);
}

fn by_turns_in<S: Origin, C: Content, P: Policy, R: Wait>(
    rt: &R,
    alloc: Global,
    s: &Setting,
    shape: &Shape,
    policy: P,
    depot: SpoiltDepot,
    turns: &[u32],
) -> Result<Option<Outcome>, Memory>
    requires origin { S.origin ≡ start_of (under s.now (P.name policy) (P.cursor policy))
        (depot_view None depot.inner.gets depot.inner.faults) }
    requires told { C.pieces ≡ None }
{
    let Some(desk) = desk_of::<S, P>(alloc, s, policy, depot)? else {
        return Ok(None);
    };
    if !fit_each_other(s, shape) || !is_on(s, 0, 1) || !has_columns(s, shape, 1) {
        return Ok(None);
    }
    if !is_on(s, 1, 2) || !has_columns(s, shape, 2) {
        return Ok(None);
    }
    let words = frame_words(shape);
    if s.frames as u64 * words as u64 > 33554432 {
        return Ok(None);
    }
    let columns = (columns_of(s, 1), columns_of(s, 2));
    let mut notes = Notes::new(alloc);
    let (baton, mut passes) = match Baton::new(alloc, desk, 2) {
        Ok(made) => made,
        Err(_parts) => return Err(Memory),
    };
    let Ok((pool, mut berths)) = Pool::<C>::new(alloc, s.frames, words, 2) else {
        return Err(Memory);
    };
    let Some(mut second) = seated(alloc, &baton, &pool, words, &mut passes, &mut berths) else {
        pool.close(berths);
        return Err(Memory);
    };
    let Some(mut first) = seated(alloc, &baton, &pool, words, &mut passes, &mut berths) else {
        unseated(&baton, &pool, second, &mut passes, &mut berths);
        pool.close(berths);
        return Err(Memory);
    };
    drive(
        rt,
        &baton,
        &pool,
        shape,
        &mut first,
        &mut second,
        (&columns.0, &columns.1),
        turns,
        &mut notes,
    );
    unseated(&baton, &pool, first, &mut passes, &mut berths);
    unseated(&baton, &pool, second, &mut passes, &mut berths);
    pool.close(berths);
    Ok(ended(rt, baton, passes, notes))
}

/// The scans of query 1 on worker 0 and of query 2 on worker 1, by turns on one thread: each turn names a worker, 0 or
/// another, and its scan takes a chunk, or reads and releases it. What is still under way is then stopped, query 1
/// first.
///
/// `None` where there can be no desk for the setting, or shape and setting don't fit each other. The error is out of
/// memory.
pub fn by_turns<P: Policy, R: Wait>(
    rt: &R,
    alloc: Global,
    s: &Setting,
    shape: &Shape,
    policy: P,
    depot: SpoiltDepot,
    turns: &[u32],
) -> Result<Option<Outcome>, Memory> {
    by_turns_in::<Brand, Brand, P, R>(rt, alloc, s, shape, policy, depot, turns)
}
