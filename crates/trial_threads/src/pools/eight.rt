//! Eight threads fill, pin, read, mark and claim three frames. Each of them pins every piece, so a frame is read by up
//! to eight threads while one of them waits to refill it.
ghost use Rattle.std.specs.Prelude.{◌≡◌, ◌<◌, All, None, IsSome, length};
ghost use Rattle.frame_pool.specs.Views.{pinned};
ghost use Rattle.frame_pool.specs.Berths.{IsAt};
ghost use Rattle.trial_threads.specs.Games.{IsPlayer};

use crate::pools::halves::all_at_once;
use crossbeam_utils::Backoff;
use example_threads::pair::Work;
use frame_pool::{Berth, Content, Memory, Pool};
use std::alloc::Global;
use std::marker::Brand;
use std::sync::Wait;
use std::sync::atomic::{AtomicU64, Ordering};
use std::test::Fail;
use std::thread::Threads;

const ROUNDS: u32 = 60;

// What the threads count together: those that have a number, the pins on each frame, the pieces that weren't whole.
#[derive(Drop)]
struct Counts {
    numbers: AtomicU64,
    first: AtomicU64,
    second: AtomicU64,
    third: AtomicU64,
    broken: AtomicU64,
}

impl Counts {
    fn new() -> Counts {
        Counts {
            numbers: AtomicU64::new(0),
            first: AtomicU64::new(0),
            second: AtomicU64::new(0),
            third: AtomicU64::new(0),
            broken: AtomicU64::new(0),
        }
    }

    fn pins(&self, frame: u32) -> &AtomicU64 {
        match frame {
            0 => &self.first,
            1 => &self.second,
            _ => &self.third,
        }
    }
}

// What the threads share.
#[derive(Drop)]
struct Game<'a, C: Content> {
    pool: &'a Pool<C>,
    counts: &'a Counts,
}

/// The word of a piece at a place; no two pieces have a word in common.
pub(crate) fn word_of_piece(piece: u32, i: u32) -> u64 {
    u64::from(piece) * 4294967296 + u64::from(i)
}

/// Fills a frame with the piece, once nobody pins it.
pub(crate) fn refill<C: Content, R: Wait>(
    rt: &R,
    pool: &Pool<C>,
    berth: &mut Berth<C>,
    frame: u32,
    piece: u32,
)
    requires { IsPlayer C.pieces pool.now berth.old × (frame < 3) }
    ensures { berth.new ≡ berth.old }
{
    pool.mark(rt, berth, frame);
    pool.claim(rt, berth, frame);
    for i in 0..64 {
        pool.put(berth, word_of_piece(piece, i));
    }
    pool.publish(berth, piece);
}

// Whether the pinned frame has all words of the piece.
fn is_whole<C: Content>(pool: &Pool<C>, berth: &mut Berth<C>, frame: u32, piece: u32) -> bool
    requires at { IsAt pool.now berth.old frame × (pool.now.shape.words ≡ 64) }
    requires pinned { IsSome (pinned frame berth.old.pins) }
    ensures { berth.new ≡ berth.old }
{
    for i in 0..64 {
        if pool.word(berth, frame, i) != word_of_piece(piece, i) {
            return false;
        }
    }
    true
}

// Pins the piece, is counted, and reads it.
fn see<C: Content, R: Wait>(
    rt: &R,
    game: &Game<'_, C>,
    berth: &mut Berth<C>,
    frame: u32,
    piece: u32,
)
    requires { IsPlayer C.pieces game.now.pool.now berth.old × (frame < 3) }
    ensures { berth.new ≡ berth.old }
{
    game.pool.pin(rt, berth, frame, piece);
    game.counts.pins(frame).fetch_add(1, Ordering::SeqCst);
    if !is_whole(game.pool, berth, frame, piece) {
        game.counts.broken.fetch_add(1, Ordering::SeqCst);
    }
    game.pool.unpin(berth, frame);
}

// Waits until the frame was pinned so often.
fn await_pins<R: Wait>(rt: &R, counts: &Counts, frame: u32, pins: u64) {
    let backoff = Backoff::new();
    for _ in rt.forever() {
        if counts.pins(frame).load(Ordering::SeqCst) >= pins {
            return;
        }
        backoff.snooze();
    }
}

// Sees the piece in each frame. Where it is this thread's turn, it refills the frame once all have pinned the piece.
fn play_round<C: Content, R: Wait>(
    rt: &R,
    game: &Game<'_, C>,
    berth: &mut Berth<C>,
    number: u64,
    piece: u32,
)
    requires player { IsPlayer C.pieces game.now.pool.now berth.old }
    requires piece { piece < 60 }
    ensures { berth.new ≡ berth.old }
{
    for frame in 0..3 {
        see(rt, game, berth, frame, piece);
        if u64::from(piece + frame) % 8 == number % 8 {
            await_pins(rt, game.counts, frame, u64::from(piece + 1) * 8);
            refill(rt, game.pool, berth, frame, piece + 1);
        }
    }
}

impl<'a, C: Content> Work<Game<'a, C>> for Berth<C> {
    ghost ready = { λ game b. IsPlayer C.pieces game.pool.now b };

    ghost done = { λ v w. w ≡ v };

    fn work<R: Wait>(&mut self, rt: &R, shared: &Game<'a, C>) {
        let number = shared.counts.numbers.fetch_add(1, Ordering::SeqCst);
        for piece in 0..ROUNDS {
            play_round(rt, shared, self, number, piece);
        }
    }
}

// The first berth fills each frame with piece 0, and then all play.
fn play<C: Content + Send + Sync, R: Threads + Wait + Sync>(
    rt: &R,
    pool: &Pool<C>,
    counts: &Counts,
    berths: &mut [Berth<C>],
)
    requires some { 0 < length berths.old }
    requires players { All (λ b. IsPlayer C.pieces pool.now b) berths.old }
    ensures { berths.new ≡ berths.old }
{
    for frame in 0..3 {
        refill(rt, pool, &mut berths[0], frame, 0);
    }
    let game = Game { pool, counts };
    all_at_once(rt, &game, berths);
}

// The counts after a game.
fn play_game<C: Content + Send + Sync, R: Threads + Wait + Sync>(
    rt: &R,
    alloc: Global,
) -> Result<Counts, Memory>
    requires { C.pieces ≡ None }
{
    let (pool, mut berths) = Pool::<C>::new(alloc, 3, 64, 8)?;
    let counts = Counts::new();
    play(rt, &pool, &counts, berths.as_mut_slice());
    pool.close(berths);
    Ok(counts)
}

#[test]
fn eight_berths_share_three_frames(rt: HostRuntime) -> Result<(), Fail> {
    let Ok(counts) = play_game::<Brand, _>(&rt, rt.alloc()) else {
        panic!(rt; "no memory")
    };
    assert!(rt; counts.broken.load(Ordering::SeqCst) == 0);
    for frame in 0..3 {
        assert!(rt; counts.pins(frame).load(Ordering::SeqCst) == u64::from(ROUNDS) * 8);
    }
    Ok(())
}
