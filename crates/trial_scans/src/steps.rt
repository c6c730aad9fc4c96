//! Steps of a scan.
ghost use Rattle.std.specs.Prelude.{◌≡◌, length};
ghost use Rattle.cscan.specs.Scans.{ReadsColumns};
ghost use Rattle.cscan.specs.Scans.{IsOver, IsSameScan};
ghost use Rattle.trial_scans.specs.Trials.{MayGoOn, StandsAt};

use crate::at::At;
use crate::notes::{Notes, Saw};
use crate::reading::read_rows;
use coop_outside::Depot;
use cscan::{CScan, Gate, Next, NoGate};
use frame_pool::Content;
use relevance::Policy;
use scan_story::Origin;
use std::sync::Wait;
use table_core::{Cell, ColumnSet};

// Takes the next chunk, or comes to the end.
fn take<S: Origin, C: Content, P: Policy, D: Depot, R: Wait>(
    rt: &R,
    scan: &mut CScan<'_, S, C, P, D, NoGate>,
    worker: u32,
    notes: &mut Notes,
) -> At
    requires { StandsAt S.origin C.pieces scan.old At.Ready }
    ensures same { IsSameScan scan.old scan.new }
    ensures at { StandsAt S.origin C.pieces scan.new result }
{
    match scan.next(rt) {
        Next::Chunk(held, delivery) => {
            notes.note(Saw::Took {
                worker,
                chunk: held.chunk(),
                rows: held.rows(),
            });
            At::Holds(held, delivery)
        }
        Next::Done => {
            notes.note(Saw::Done { worker });
            At::Over
        }
        Next::Stopped(cause) => {
            notes.note(Saw::Stopped { worker, cause });
            At::Over
        }
    }
}

/// The next step of a scan: with a chunk out it reads and releases that, and else it takes the next one.
pub(crate) fn step<S: Origin, C: Content, P: Policy, D: Depot, R: Wait>(
    rt: &R,
    scan: &mut CScan<'_, S, C, P, D, NoGate>,
    at: At,
    worker: u32,
    columns: &ColumnSet,
    cells: &mut [Cell],
    notes: &mut Notes,
) -> At
    requires at { StandsAt S.origin C.pieces scan.old at }
    requires columns { ReadsColumns S.origin.setting scan.old.query columns.now }
    requires width { length cells.old ≡ length scan.old.shape.now.kinds }
    ensures same { IsSameScan scan.old scan.new }
    ensures at { StandsAt S.origin C.pieces scan.new result }
    ensures width { length cells.new ≡ length cells.old }
{
    match at {
        At::Ready => take(rt, scan, worker, notes),
        At::Holds(held, delivery) => {
            read_rows(scan, &held, columns, cells, notes);
            let called = NoGate.holding(rt, delivery);
            held.release(rt, scan, called);
            notes.note(Saw::Released { worker });
            At::Ready
        }
        At::Over => At::Over,
    }
}

/// Lets the chunk go that is out, if any, and says whether the scan is still under way.
pub(crate) fn let_go<S: Origin, C: Content, P: Policy, D: Depot, R: Wait>(
    rt: &R,
    scan: &mut CScan<'_, S, C, P, D, NoGate>,
    at: At,
    worker: u32,
    notes: &mut Notes,
) -> bool
    requires at { StandsAt S.origin C.pieces scan.old at }
    ensures same { IsSameScan scan.old scan.new }
    ensures left { MayGoOn S.origin C.pieces result scan.new }
{
    match at {
        At::Ready => true,
        At::Holds(held, delivery) => {
            let called = NoGate.holding(rt, delivery);
            held.release(rt, scan, called);
            notes.note(Saw::Released { worker });
            true
        }
        At::Over => false,
    }
}

/// Stops the scan where it is still under way.
pub(crate) fn end<S: Origin, C: Content, P: Policy, D: Depot, R: Wait>(
    rt: &R,
    scan: CScan<'_, S, C, P, D, NoGate>,
    going: bool,
    worker: u32,
    notes: &mut Notes,
)
    requires { MayGoOn S.origin C.pieces going scan }
    ensures { IsOver S.origin scan.entry.baton.now scan.entry.pool.now scan.entry.query scan.exit.0.now }
{
    if going {
        let cause = scan.stop(rt);
        notes.note(Saw::GaveUp { worker, cause });
    }
}
