// Rounds of a scan: turns, each with its load, until one comes to something.
ghost use Rattle.std.specs.Prelude.{◌≡◌, ◌<◌, []};
ghost use Rattle.scan_story.specs.Legal.{Legal};
ghost use Rattle.scan_story.specs.Views.{past};
ghost use Rattle.abm_policy.specs.Turns.{MayTurn};
ghost use Rattle.piece_format.specs.Shape.{IsShape, chunks, rows_in};
ghost use Rattle.cscan.specs.Rounds.{IsEnd, IsRound, slots_of};
ghost use Rattle.cscan.specs.Scans.{Fits};
ghost use Rattle.cscan.specs.Stations.{IsSeated};

use crate::desk::take_desk;
use crate::loading::load;
use crate::pausing::{Patience, Pause};
use crate::station::Station;
use crate::waking::{next_to_load, wake};
use abm_policy::{Desk, Turn};
use baton::Baton;
use coop_outside::Depot;
use frame_pool::{Content, Pool};
use frame_rows::{Given, pin_all};
use interest_book::Policy;
use piece_format::Shape;
use scan_story::{Cause, Origin};
use std::sync::Wait;
use table_core::chunk_span;

/// What one turn with its load comes to.
pub(crate) enum Round {
    Took(Given),
    Again(Pause),
    Done,
    Stopped(Cause),
}

// How many rows a chunk has.
fn rows_of(shape: &Shape, chunk: u32) -> u32
    requires shape { IsShape shape.now }
    requires chunk { chunk < chunks shape.now }
    ensures { result ≡ rows_in shape.now chunk }
{
    let (from, to) = chunk_span(shape.rows, shape.per, chunk);
    to - from
}

/// One turn of the worker for the query. Where it is to load, it loads; where it takes a chunk, it pins the chunk's
/// frames.
pub(crate) fn turn_once<S: Origin, C: Content, P: Policy, D: Depot, R: Wait>(
    rt: &R,
    baton: &Baton<Desk<S, P, D>>,
    pool: &Pool<C>,
    shape: &Shape,
    station: &mut Station<S, C, P, D>,
    query: u32,
    patience: &mut Patience,
) -> Round
    requires seated { IsSeated baton.now pool.now S.origin [] station.old }
    requires fits { Fits S.origin C.pieces shape.now pool.now }
    requires may { MayTurn S.origin.setting (past station.old.pass.seen) station.old.number query }
    ensures seated { IsSeated baton.now pool.now S.origin (slots_of result) station.new }
    ensures number { station.new.number ≡ station.old.number }
    ensures round { IsRound S.origin.setting shape.now station.old.number query station.old.pass station.new.pass
        result }
{
    let number = station.number;
    let mut desk = take_desk(rt, baton, &mut station.pass);
    let bell = baton.bell();
    if patience.lies_down(bell, desk.book(), number, query) {
        baton.give(rt, &mut station.pass, desk);
        return Round::Again(patience.pause);
    }
    let turn = desk.turn(number, query);
    let next = next_to_load(bell, desk.book(), query);
    baton.give(rt, &mut station.pass, desk);
    wake(bell, next);
    match turn {
        Turn::Take { chunk, slots } => {
            pin_all(rt, pool, &mut station.berth, &slots);
            let rows = rows_of(shape, chunk);
            Round::Took(Given { chunk, rows, slots })
        }
        Turn::Load(ticket, depot) => {
            load(rt, baton, pool, shape, station, (ticket, depot));
            Round::Again(Pause::None)
        }
        Turn::NotYet => Round::Again(Pause::None),
        Turn::Finished => Round::Done,
        Turn::Stopped(cause) => Round::Stopped(cause),
    }
}

/// Turns until a turn comes to something.
pub(crate) fn turn_on<S: Origin, C: Content, P: Policy, D: Depot, R: Wait>(
    rt: &R,
    baton: &Baton<Desk<S, P, D>>,
    pool: &Pool<C>,
    shape: &Shape,
    station: &mut Station<S, C, P, D>,
    query: u32,
) -> Round
    requires seated { IsSeated baton.now pool.now S.origin [] station.old }
    requires fits { Fits S.origin C.pieces shape.now pool.now }
    requires legal { Legal S.origin.setting (past station.old.pass.seen) }
    requires may { MayTurn S.origin.setting (past station.old.pass.seen) station.old.number query }
    ensures seated { IsSeated baton.now pool.now S.origin (slots_of result) station.new }
    ensures number { station.new.number ≡ station.old.number }
    ensures round { IsRound S.origin.setting shape.now station.old.number query station.old.pass station.new.pass
        result }
    ensures end { IsEnd result }
{
    let bell = baton.bell();
    let mut patience = Patience::new();
    for _ in rt.forever() {
        match turn_once(rt, baton, pool, shape, station, query, &mut patience) {
            Round::Again(pause) => patience.pause(rt, bell, station.number, pause),
            Round::Took(given) => return Round::Took(given),
            Round::Done => return Round::Done,
            Round::Stopped(cause) => return Round::Stopped(cause),
        }
    }
    unreachable!()
}
