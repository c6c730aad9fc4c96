//! Many words of a pinned frame, read in one call.
ghost use Rattle.std.specs.Prelude.{◌≡◌, ◌<◌, ◌≤◌, ◌+◌, ◌-◌, ◌*◌, All, None, length};
ghost use Rattle.std.specs.Bool.{OnTrue};
ghost use Rattle.trial_threads.specs.Games.{IsPlayer};

use crate::pools::eight::{refill, word_of_piece};
use frame_pool::{Berth, Content, Memory, Pool};
use std::alloc::Global;
use std::marker::Brand;
use std::process::Abort;
use std::sync::Wait;
use std::test::Fail;

// The first word that is read, the step to the next one, and the places of all of them.
type Places = (u32, u32, &'static [u32]);

const READS: [Places; 7] = [
    (0, 1, &[0, 1, 2, 3, 4, 5, 6, 7]),
    (0, 9, &[0, 9, 18, 27, 36, 45, 54, 63]),
    (1, 2, &[1, 3, 5]),
    (7, 28, &[7, 35, 63]),
    (63, 50, &[63]),
    (5, 0, &[5, 5, 5]),
    (70, 70, &[]),
];

// Whether so many words are words of a frame.
fn are_inside(first: u32, step: u32, count: usize) -> bool
    requires { count ≤ 8 }
    ensures { OnTrue result (0 < count → first + (count - 1) * step < 64) }
{
    if count == 0 {
        return true;
    }
    first as usize + (count - 1) * step as usize <= 63
}

// The words at these places of the piece, and no other, are read.
fn check_read<C: Content, R: Abort + Wait>(
    rt: &R,
    pool: &Pool<C>,
    berth: &mut Berth<C>,
    frame: u32,
    piece: u32,
    places: &Places,
)
    requires { IsPlayer C.pieces pool.now berth.old × (frame < 3) }
    ensures { berth.new ≡ berth.old }
{
    let (first, step, places) = *places;
    let count = places.len();
    assert!(rt; count <= 8);
    let mut words = [77; 8];
    let read = &mut words[..count];
    assert!(rt; are_inside(first, step, read.len()));
    pool.pin(rt, berth, frame, piece);
    pool.words(berth, frame, first, step, read);
    pool.unpin(berth, frame);
    for (k, place) in places.iter().enumerate() {
        assert!(rt; words[k] == word_of_piece(piece, *place));
    }
    assert!(rt; words[count..].iter().all(|word| *word == 77));
}

// Two frames hold two pieces, and words of both are read.
fn play<C: Content, R: Abort + Wait>(rt: &R, pool: &Pool<C>, berths: &mut [Berth<C>])
    requires some { 0 < length berths.old }
    requires players { All (λ b. IsPlayer C.pieces pool.now b) berths.old }
    ensures { berths.new ≡ berths.old }
{
    refill(rt, pool, &mut berths[0], 0, 4);
    refill(rt, pool, &mut berths[0], 2, 9);
    for places in &READS {
        check_read(rt, pool, &mut berths[0], 0, 4, places);
        check_read(rt, pool, &mut berths[0], 2, 9, places);
    }
}

fn play_alone<C: Content, R: Abort + Wait>(rt: &R, alloc: Global) -> Result<(), Memory>
    requires { C.pieces ≡ None }
{
    let (pool, mut berths) = Pool::<C>::new(alloc, 3, 64, 1)?;
    play(rt, &pool, berths.as_mut_slice());
    pool.close(berths);
    Ok(())
}

#[test]
fn many_words_are_read_at_once(rt: HostRuntime) -> Result<(), Fail> {
    assert!(rt; play_alone::<Brand, _>(&rt, rt.alloc()).is_ok());
    Ok(())
}
