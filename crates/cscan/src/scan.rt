// A scan of one query.
ghost use Rattle.std.specs.Prelude.{◌≡◌, ◌∷◌, [], None};
ghost use Rattle.scan_story.specs.declared.entry.Entry.TheVariants.{Register};
ghost use Rattle.scan_story.specs.Views.{past};
ghost use Rattle.scan_story.specs.MayFollow.{MayRegister};
ghost use Rattle.baton.specs.Passes.{Went};
ghost use Rattle.cscan.specs.Answers.{Answered, IsStoppedBy};
ghost use Rattle.cscan.specs.Scans.{Fits, HasColumns, IsOver, IsSameScan, IsScan};
ghost use Rattle.cscan.specs.Stations.{IsSeated};

use crate::delivery::Delivery;
use crate::desk::take_desk;
use crate::gate::Gate;
use crate::held::Held;
use crate::next::Next;
use crate::rounds::{Round, turn_on};
use crate::station::Station;
use crate::waking::Woken;
use abm_policy::Desk;
use baton::Baton;
use coop_outside::Depot;
use frame_pool::{Content, Pool};
use frame_rows::Given;
use interest_book::Policy;
use piece_format::Shape;
use scan_story::{Cause, Origin};
use std::marker::PhantomData;
use std::sync::Wait;

/// A scan under way: it takes the chunks of a query's need one after another, from frames that all scans share.
///
/// Contracts see its station, baton, pool, shape and query, and the chunk that it has out, if any. What a station's
/// pass has seen and made tells what the scan did. After `Next::Done` and `Next::Stopped` it is over: no call may
/// follow, and it may be let go.
#[derive(Drop)]
pub struct CScan<'a, S: Origin, C: Content, P: Policy, D: Depot, T: Gate> {
    pub(crate) station: &'a mut Station<S, C, P, D>,
    pub(crate) baton: &'a Baton<Desk<S, P, D>>,
    pub(crate) pool: &'a Pool<C>,
    pub(crate) shape: &'a Shape,
    pub(crate) query: u32,
    pub(crate) out: Option<Given>,
    pub(crate) gate: PhantomData<T>,
}

impl<'a, S: Origin, C: Content, P: Policy, D: Depot, T: Gate> CScan<'a, S, C, P, D, T> {
    /// Registers the query on the station's worker, and begins its scan.
    ///
    /// By what the pass has seen the query may be registered: it never was, its need names the worker, and the worker
    /// has no active query, holds nothing and loads nothing. The station's pass is of this baton and isn't holding; its
    /// berth is of this pool, without pin and fill; its buffer has 8 bytes for each word of a frame. The origin has the
    /// shape's chunks and groups and the pool's frames, a frame has the frame words of the shape, and the columns of
    /// the query's need are columns of the shape. Where the origin's depot tells what it holds, it holds each piece of
    /// a table of this shape, and the pool's content is the words of these pieces; where it tells nothing, the content
    /// isn't told.
    pub fn begin<R: Wait>(
        rt: &R,
        baton: &'a Baton<Desk<S, P, D>>,
        pool: &'a Pool<C>,
        shape: &'a Shape,
        station: &'a mut Station<S, C, P, D>,
        query: u32,
    ) -> CScan<'a, S, C, P, D, T>
        requires seated { IsSeated baton.now pool.now S.origin [] station.old }
        requires may { MayRegister S.origin.setting (past station.old.pass.seen) station.old.number query }
        requires fits { Fits S.origin C.pieces shape.now pool.now }
        requires columns { HasColumns S.origin.setting shape.now query }
        ensures station { result.station.ghost_name ≡ station.entry.ghost_name }
        ensures number { result.station.now.number ≡ station.old.number }
        ensures baton { result.baton.now ≡ baton.now }
        ensures pool { result.pool.now ≡ pool.now }
        ensures shape { result.shape.now ≡ shape.now }
        ensures query { result.query ≡ query }
        ensures out { result.out ≡ None }
        ensures scan { IsScan S.origin C.pieces result }
        ensures went { Went station.old.pass result.station.now.pass (Register station.old.number query ∷ []) }
    {
        let number = station.number;
        let mut desk = take_desk(rt, baton, &mut station.pass);
        desk.register(number, query);
        baton.give(rt, &mut station.pass, desk);
        CScan {
            station,
            baton,
            pool,
            shape,
            query,
            out: None,
            gate: PhantomData,
        }
    }

    /// Takes the next chunk, or comes to the end.
    ///
    /// It turns until the desk has an answer: where the desk says so it loads pieces, while the baton lies free. The
    /// frames of a chunk that it answers are pinned before it returns, and stay so until `Held::release`. No chunk is
    /// out.
    pub fn next<R: Wait>(&mut self, rt: &R) -> Next
        requires scan { IsScan S.origin C.pieces self.old }
        requires none { self.old.out ≡ None }
        ensures same { IsSameScan self.old self.new }
        ensures answer { Answered S.origin C.pieces self.old self.new result }
    {
        let baton = self.baton;
        let pool = self.pool;
        let shape = self.shape;
        let query = self.query;
        match turn_on(rt, baton, pool, shape, self.station, query) {
            Round::Took(given) => {
                self.out = Some(given.copy());
                let delivery = Delivery {
                    worker: self.station.number,
                    query,
                    chunk: given.chunk,
                };
                Next::Chunk(Held { given }, delivery)
            }
            Round::Done => Next::Done,
            Round::Stopped(cause) => Next::Stopped(cause),
            Round::Again(_) => unreachable!(),
        }
    }

    /// Ends the scan before its end, when out of memory: it appends a Stop and answers `Memory`, or answers the earlier
    /// cause where the story had already stopped the query. No chunk is out.
    pub fn stop<R: Wait>(self, rt: &R) -> Cause
        requires scan { IsScan S.origin C.pieces self }
        requires none { self.out ≡ None }
        ensures number { self.exit.0.now.number ≡ self.entry.station.now.number }
        ensures over { IsOver S.origin self.entry.baton.now self.entry.pool.now self.entry.query self.exit.0.now }
        ensures cause { IsStoppedBy self.entry.station.now.number self.entry.query self.entry.station.now.pass
            self.exit.0.now.pass result }
    {
        let CScan {
            station,
            baton,
            pool: _,
            shape: _,
            query,
            out: _,
            gate: _,
        } = self;
        let number = station.number;
        let mut desk = take_desk(rt, baton, &mut station.pass);
        let earlier = desk.cause(query);
        if let Some(cause) = earlier {
            baton.give(rt, &mut station.pass, desk);
            return cause;
        }
        desk.stop(number, query);
        let bell = baton.bell();
        let woken = Woken::after_load(bell, desk.book());
        baton.give(rt, &mut station.pass, desk);
        woken.ring(bell);
        Cause::Memory
    }
}
