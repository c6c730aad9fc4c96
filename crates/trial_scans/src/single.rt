//! One scan, with one berth and one pass.
ghost use Rattle.std.specs.Prelude.{◌≡◌, [], None, length};
ghost use Rattle.abm_policy.specs.Depots.{depot_view};
ghost use Rattle.abm_policy.specs.Sound.{start_of};
ghost use Rattle.scan_story.specs.MayFollow.{MayRegister};
ghost use Rattle.scan_story.specs.Views.{past};
ghost use Rattle.cscan.specs.Scans.{ReadsColumns};
ghost use Rattle.cscan.specs.Scans.{Fits, HasColumns, IsOver, IsSameScan};
ghost use Rattle.cscan.specs.Stations.{IsSeated};
ghost use Rattle.trial_scans.specs.Trials.{MayGoOn, StandsAt, under};

use crate::at::At;
use crate::desks::desk_of;
use crate::fitting::{columns_of, fit_each_other, has_columns, is_on};
use crate::notes::Notes;
use crate::outcome::{Outcome, ended};
use crate::seats::{seated, unseated};
use crate::steps::{end, let_go, step};
use abm_policy::Desk;
use baton::Baton;
use coop_outside::{Depot, SpoiltDepot};
use cscan::{CScan, NoGate, Station};
use frame_pool::{Content, Pool};
use piece_format::{Shape, frame_words};
use relevance::Policy;
use scan_story::{Memory, Origin, Setting};
use std::alloc::Global;
use std::marker::Brand;
use std::sync::Wait;
use table_core::{Cell, ColumnSet};

// So many steps of a scan.
fn play<S: Origin, C: Content, P: Policy, D: Depot, R: Wait>(
    rt: &R,
    scan: &mut CScan<'_, S, C, P, D, NoGate>,
    steps: u32,
    columns: &ColumnSet,
    cells: &mut [Cell],
    notes: &mut Notes,
) -> At
    requires at { StandsAt S.origin C.pieces scan.old At.Ready }
    requires columns { ReadsColumns S.origin.setting scan.old.query columns.now }
    requires width { length cells.old ≡ length scan.old.shape.now.kinds }
    ensures same { IsSameScan scan.old scan.new }
    ensures at { StandsAt S.origin C.pieces scan.new result }
{
    let mut at = At::Ready;
    for _step in 0..steps {
        at = step(rt, scan, at, 0, columns, cells, notes);
    }
    at
}

// So many steps of a scan, after which nothing is out; whether it is still under way.
fn play_out<S: Origin, C: Content, P: Policy, D: Depot, R: Wait>(
    rt: &R,
    scan: &mut CScan<'_, S, C, P, D, NoGate>,
    steps: u32,
    columns: &ColumnSet,
    cells: &mut [Cell],
    notes: &mut Notes,
) -> bool
    requires at { StandsAt S.origin C.pieces scan.old At.Ready }
    requires columns { ReadsColumns S.origin.setting scan.old.query columns.now }
    requires width { length cells.old ≡ length scan.old.shape.now.kinds }
    ensures same { IsSameScan scan.old scan.new }
    ensures left { MayGoOn S.origin C.pieces result scan.new }
{
    let at = play(rt, scan, steps, columns, cells, notes);
    let_go(rt, scan, at, 0, notes)
}

// Begins the scan of a query on worker 0, takes so many steps, and stops it where it isn't over.
fn drive<S: Origin, C: Content, P: Policy, D: Depot, R: Wait>(
    rt: &R,
    baton: &Baton<Desk<S, P, D>>,
    pool: &Pool<C>,
    shape: &Shape,
    station: &mut Station<S, C, P, D>,
    query: u32,
    columns: &ColumnSet,
    steps: u32,
    notes: &mut Notes,
)
    requires seated { IsSeated baton.now pool.now S.origin [] station.old }
    requires may { MayRegister S.origin.setting (past station.old.pass.seen) station.old.number query }
    requires fits { Fits S.origin C.pieces shape.now pool.now }
    requires has { HasColumns S.origin.setting shape.now query }
    requires columns { ReadsColumns S.origin.setting query columns.now }
    ensures { IsOver S.origin baton.now pool.now query station.new }
{
    let mut cells = [Cell::Null; 16];
    let cells = &mut cells[..shape.kinds.len()];
    let mut scan = CScan::begin(rt, baton, pool, shape, station, query);
    let going = play_out(rt, &mut scan, steps, columns, cells, notes);
    end(rt, scan, going, 0, notes);
}

fn alone_in<S: Origin, C: Content, P: Policy, R: Wait>(
    rt: &R,
    alloc: Global,
    s: &Setting,
    shape: &Shape,
    policy: P,
    depot: SpoiltDepot,
    steps: u32,
) -> Result<Option<Outcome>, Memory>
    requires origin { S.origin ≡ start_of (under s.now (P.name policy) (P.cursor policy))
        (depot_view None depot.inner.gets depot.inner.faults) }
    requires told { C.pieces ≡ None }
{
    let Some(desk) = desk_of::<S, P>(alloc, s, policy, depot)? else {
        return Ok(None);
    };
    if !fit_each_other(s, shape) || !is_on(s, 0, 1) || !has_columns(s, shape, 1) {
        return Ok(None);
    }
    let words = frame_words(shape);
    if s.frames as u64 * words as u64 > 33554432 {
        return Ok(None);
    }
    let columns = columns_of(s, 1);
    let mut notes = Notes::new(alloc);
    let (baton, mut passes) = match Baton::new(alloc, desk, 1) {
        Ok(made) => made,
        Err(_parts) => return Err(Memory),
    };
    let Ok((pool, mut berths)) = Pool::<C>::new(alloc, s.frames, words, 1) else {
        return Err(Memory);
    };
    let Some(mut station) = seated(alloc, &baton, &pool, words, &mut passes, &mut berths) else {
        pool.close(berths);
        return Err(Memory);
    };
    drive(
        rt,
        &baton,
        &pool,
        shape,
        &mut station,
        1,
        &columns,
        steps,
        &mut notes,
    );
    unseated(&baton, &pool, station, &mut passes, &mut berths);
    pool.close(berths);
    Ok(ended(rt, baton, passes, notes))
}

/// The scan of query 1 alone, on worker 0, with a pool of one berth and a baton of one pass: so many steps, of which
/// each takes a chunk, or reads and releases it. What is still under way is then stopped.
///
/// `None` where there can be no desk for the setting, or shape and setting don't fit each other. The error is out of
/// memory.
pub fn alone<P: Policy, R: Wait>(
    rt: &R,
    alloc: Global,
    s: &Setting,
    shape: &Shape,
    policy: P,
    depot: SpoiltDepot,
    steps: u32,
) -> Result<Option<Outcome>, Memory> {
    alone_in::<Brand, Brand, P, R>(rt, alloc, s, shape, policy, depot, steps)
}
