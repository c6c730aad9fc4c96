//! The pool: how it is made, dealt out to berths, and closed.
ghost use Rattle.std.specs.Prelude.{◌≡◌, ◌^◌, ◌*◌, ◌<◌, ◌≤◌, IfOk, All, vec_len};
ghost use Rattle.frame_pool.specs.Frames.{place};
ghost use Rattle.frame_pool.specs.Berths.{PoolView, IsAllowed, IsLaid, IsOf, IsAt, IsBlank};

use crate::berth::Berth;
use crate::content::Content;
use crate::geometry::Geometry;
use crate::plays::{Cut, Glue, Look};
use crate::rule::Board;
use std::alloc::Global;
use std::marker::{Model, PhantomData};

/// Out of memory. Nothing is left behind.
#[derive(Clone, Copy, PartialEq, Eq, Debug, Drop)]
pub struct Memory;

/// Frames that threads share, numbered from 0, each with the same number of words.
///
/// Contracts see its shape and the number of its berths. It is ended by `close`.
pub struct Pool<C: Content> {
    pub(crate) board: Board<C>,
    pub(crate) shape: Geometry,
    pub(crate) berths: u32,
}

impl<C: Content> Model for Pool<C> {
    ghost Value = { PoolView };

    ghost view = { λ p. record { pool = p.board.shared.table_id; shape = p.shape; berths = p.berths } };

    ghost invariant = { λ p. IsLaid p.board.shared.table_id p.board.shared.key p.shape };
}

impl<C: Content> Pool<C> {
    /// A pool with this many frames of this many words, and its berths. Each frame begins free.
    ///
    /// There are 1 to 33554432 frames with at most 33554432 words in all, and 1 to 64 berths. All memory of the pool is
    /// taken here, one table for all words; `Memory` leaves nothing behind.
    pub fn new(
        alloc: Global,
        frames: u32,
        words: u32,
        berths: u32,
    ) -> Result<(Pool<C>, Vec<Berth<C>>), Memory>
        requires frames { (1 ≤ frames) × (frames ≤ 33554432) }
        requires words { frames * words ≤ 33554432 }
        requires berths { (1 ≤ berths) × (berths ≤ 64) }
        ensures shape { IfOk result (λ r. r.0.shape ≡ record { frames = frames; words = words }) }
        ensures berths { IfOk result (λ r. (r.0.berths ≡ berths) × (vec_len r.1 ≡ berths)) }
        ensures blank { IfOk result (λ r. All (λ b. IsOf r.0 b × IsBlank b) r.1.items) }
    {
        let (pool, first) = Pool::of(alloc, Geometry { frames, words }, berths)?;
        match pool.deal(alloc, first) {
            Ok(all) => Ok((pool, all)),
            Err(Memory) => {
                pool.end();
                Err(Memory)
            }
        }
    }

    /// Ends the pool and takes all its berths back, which pin and fill no frame.
    pub fn close(self, mut berths: Vec<Berth<C>>)
        requires all { vec_len berths ≡ self.berths }
        requires blank { All (λ b. IsOf self b × IsBlank b) berths.items }
    {
        if let Some(mut first) = berths.pop() {
            while let Some(other) = berths.pop() {
                self.absorb(&mut first, other);
            }
            first.leave();
        }
        berths.destroy_empty();
        self.end();
    }

    // The table, with the first berth.
    fn of(alloc: Global, shape: Geometry, berths: u32) -> Result<(Pool<C>, Berth<C>), Memory>
        requires { IsAllowed shape }
        ensures pool { IfOk result (λ r. (r.0.shape ≡ shape) × (r.0.berths ≡ berths)) }
        ensures first { IfOk result (λ r. IsOf r.0 r.1 × IsBlank r.1) }
    {
        let frames = shape.frames as usize;
        let count = frames + frames * shape.words as usize;
        let mut words: Vec<u64> = Vec::new(alloc);
        if words.resize(count, 0).is_err() {
            return Err(Memory);
        }
        match Board::of_words(alloc, words.as_slice(), &shape) {
            Ok((board, seat)) => Ok((
                Pool {
                    board,
                    shape,
                    berths,
                },
                Berth {
                    seat,
                    filling: None,
                    content: PhantomData,
                },
            )),
            Err(_) => Err(Memory),
        }
    }

    // All berths, made from the first.
    fn deal(&self, alloc: Global, mut first: Berth<C>) -> Result<Vec<Berth<C>>, Memory>
        requires at { IsOf self.now first × IsBlank first × (0 < self.now.shape.frames) }
        requires some { 0 < self.now.berths }
        ensures count { IfOk result (λ all. vec_len all ≡ self.now.berths) }
        ensures blank { IfOk result (λ all. All (λ b. IsOf self.now b × IsBlank b) all.items) }
    {
        let mut all: Vec<Berth<C>> = Vec::new(alloc);
        for i in 1..self.berths {
            let berth = self.another(&mut first);
            if let Err(failed) = all.push(berth) {
                failed.value.leave();
                first.leave();
                retire(all);
                return Err(Memory);
            }
        }
        if let Err(failed) = all.push(first) {
            failed.value.leave();
            retire(all);
            return Err(Memory);
        }
        Ok(all)
    }

    // A berth more.
    fn another(&self, berth: &mut Berth<C>) -> Berth<C>
        requires { IsOf self.now berth.old × (0 < self.now.shape.frames) }
        ensures same { berth.new ≡ berth.old }
        ensures other { IsOf self.now result × IsBlank result }
    {
        let seat = self.board.shared.split_seat::<Cut>(&mut berth.seat);
        Berth {
            seat,
            filling: None,
            content: PhantomData,
        }
    }

    // A berth less.
    fn absorb(&self, berth: &mut Berth<C>, other: Berth<C>)
        requires at { IsOf self.now berth.old × IsOf self.now other × (0 < self.now.shape.frames) }
        requires blank { IsBlank other }
        ensures { berth.new ≡ berth.old }
    {
        let Berth {
            seat,
            filling: _,
            content: _,
        } = other;
        self.board.shared.join_seat::<Glue>(&mut berth.seat, seat);
    }

    // Gives the memory of the table back.
    pub(crate) fn end(self) {
        let Pool {
            board,
            shape: _,
            berths: _,
        } = self;
        drop(board);
    }

    // Where the word i of a frame stands: the control words of all frames come first.
    pub(crate) fn place(&self, frame: u32, i: u32) -> usize
        requires { (frame < self.now.shape.frames) × (i < self.now.shape.words) }
        ensures place { result ≡ place self.now.shape frame i }
        ensures inside { result < self.now.pool.words }
    {
        self.shape.frames as usize + (frame as usize * self.shape.words as usize + i as usize)
    }

    // A frame's control word at this moment.
    pub(crate) fn look(&self, berth: &mut Berth<C>, frame: u32) -> u64
        requires { IsAt self.now berth.old frame }
        ensures same { berth.new ≡ berth.old }
        ensures word { result < 2 ^ 50 }
    {
        self.board
            .shared
            .load::<Look>(&mut berth.seat, frame as usize)
    }
}

// Ends berths that nobody was given.
pub(crate) fn retire<C: Content>(mut berths: Vec<Berth<C>>) {
    while let Some(berth) = berths.pop() {
        berth.leave();
    }
    berths.destroy_empty();
}
