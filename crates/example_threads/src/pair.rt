//! Two threads share a frame of two words.
ghost use Rattle.std.specs.Prelude.{◌≡◌, ◌≤◌, [], ◌∷◌, Some};
ghost use Rattle.frame_pool.specs.Views.{filling};
ghost use Rattle.frame_pool.specs.Berths.{IsAt, IsBlank, IsWhole};
ghost use Rattle.example_threads.specs.Pairs.{IsReady, IsPair};

use frame_pool::{Berth, Content, Pool};
use std::sync::Wait;
use std::thread::{Threads, join_mut};

/// Fills a frame with a piece of two words, once nobody reads what it held.
pub fn fill<C: Content, R: Wait>(
    rt: &R,
    pool: &Pool<C>,
    berth: &mut Berth<C>,
    frame: u32,
    piece: u32,
    words: (u64, u64),
)
    requires at { IsAt pool.now berth.old frame × IsBlank berth.old × (2 ≤ pool.now.shape.words) }
    requires told { IsWhole C.pieces piece (Some (filling frame (words.0 ∷ words.1 ∷ []))) }
    ensures { berth.new ≡ berth.old }
{
    pool.mark(rt, berth, frame);
    pool.claim(rt, berth, frame);
    pool.put(berth, words.0);
    pool.put(berth, words.1);
    pool.publish(berth, piece);
}

/// Waits for a piece of two words in a frame, and reads it.
pub fn read<C: Content, R: Wait>(
    rt: &R,
    pool: &Pool<C>,
    berth: &mut Berth<C>,
    frame: u32,
    piece: u32,
) -> (u64, u64)
    requires at { IsAt pool.now berth.old frame × IsBlank berth.old × (2 ≤ pool.now.shape.words) }
    ensures same { berth.new ≡ berth.old }
    ensures words { IsPair C.pieces piece result }
{
    pool.pin(rt, berth, frame, piece);
    let first = pool.word(berth, frame, 0);
    let second = pool.word(berth, frame, 1);
    pool.unpin(berth, frame);
    (first, second)
}

/// What one thread does beside others, with something that all of them share.
pub trait Work<S> {
    ghost ready: { S → Self → Type 0 };

    ghost done: { Self → Self → Type 0 };

    fn work<R: Wait>(&mut self, rt: &R, shared: &S)
        requires { ready shared.now self.old }
        ensures { done self.old self.new };
}

/// Two works at once, each in a thread of its own.
pub fn at_once<S: Sync, A: Work<S> + Send, B: Work<S> + Send, R: Threads + Wait + Sync>(
    rt: &R,
    shared: &S,
    first: &mut A,
    second: &mut B,
)
    requires first { A.ready shared.now first.old }
    requires second { B.ready shared.now second.old }
    ensures first { A.done first.old first.new }
    ensures second { B.done second.old second.new }
{
    join_mut(
        rt,
        &mut || first.work(rt, shared),
        &mut || second.work(rt, shared),
    );
}

/// Fills frame 0 with piece 0.
pub struct Filler<C: Content> {
    pub berth: Berth<C>,
    pub words: (u64, u64),
}

impl<C: Content> Work<Pool<C>> for Filler<C> {
    ghost ready = { λ pool w. IsReady pool w.berth
        × IsWhole C.pieces 0 (Some (filling 0 (w.words.0 ∷ w.words.1 ∷ []))) };

    ghost done = { λ v w. w.berth ≡ v.berth };

    fn work<R: Wait>(&mut self, rt: &R, shared: &Pool<C>) {
        fill(rt, shared, &mut self.berth, 0, 0, self.words);
    }
}

/// Reads piece 0 in frame 0.
pub struct Reader<C: Content> {
    pub berth: Berth<C>,
    pub words: (u64, u64),
}

impl<C: Content> Work<Pool<C>> for Reader<C> {
    ghost ready = { λ pool w. IsReady pool w.berth };

    ghost done = { λ v w. (w.berth ≡ v.berth) × IsPair C.pieces 0 w.words };

    fn work<R: Wait>(&mut self, rt: &R, shared: &Pool<C>) {
        self.words = read(rt, shared, &mut self.berth, 0, 0);
    }
}
