ghost use Rattle.std.specs.Prelude.{◌≡◌, ◌+◌, ◌≤◌, [], ◌∷◌, Some, IfOk, vec_len, vec_capacity};
ghost use Rattle.example_threads.specs.Pairs.{IsReady};

use example_threads::pair::{Filler, Reader, at_once, fill, read};
use frame_pool::{Berth, Content, Memory, Pool};
use std::alloc::Global;
use std::marker::Brand;
use std::sync::Wait;
use std::test::Fail;
use std::thread::Threads;

// The berths of a pool, to be given back.
fn both<C: Content>(mut berths: Vec<Berth<C>>, first: Berth<C>, second: Berth<C>) -> Vec<Berth<C>>
    requires none { vec_len berths ≡ 0 }
    requires room { 2 ≤ vec_capacity berths }
    ensures { result.items ≡ first ∷ second ∷ [] }
{
    berths.push_reserved(first);
    berths.push_reserved(second);
    berths
}

// One berth fills frame 0 twice, and the other reads each piece.
fn refill<C: Content, R: Wait>(rt: &R, alloc: Global) -> Result<((u64, u64), (u64, u64)), Memory>
    requires { C.pieces ≡ Some ((11 ∷ 12 ∷ []) ∷ (21 ∷ 22 ∷ []) ∷ []) }
    ensures { IfOk result (λ r. (r.0 ≡ (11, 12)) × (r.1 ≡ (21, 22))) }
{
    let (pool, mut berths) = Pool::<C>::new(alloc, 2, 2, 2)?;
    let Some(mut b) = berths.pop() else {
        unreachable!()
    };
    let Some(mut a) = berths.pop() else {
        unreachable!()
    };
    fill(rt, &pool, &mut a, 0, 0, (11, 12));
    let first = read(rt, &pool, &mut b, 0, 0);
    fill(rt, &pool, &mut a, 0, 1, (21, 22));
    let second = read(rt, &pool, &mut b, 0, 1);
    pool.mark(rt, &mut a, 1);
    pool.close(both(berths, a, b));
    Ok((first, second))
}

#[test]
fn two_berths_fill_read_and_refill_a_frame(rt: HostRuntime) -> Result<(), Fail> {
    let Ok((first, second)) = refill::<Brand, _>(&rt, rt.alloc()) else {
        panic!(rt; "no memory")
    };
    assert!(rt; first == (11, 12) && second == (21, 22));
    Ok(())
}

// One thread fills frame 0, and the other waits for the piece and reads it.
fn share<C: Content + Send + Sync, R: Threads + Wait + Sync>(
    rt: &R,
    alloc: Global,
) -> Result<(u64, u64), Memory>
    requires { C.pieces ≡ Some ((11 ∷ 12 ∷ []) ∷ []) }
    ensures { IfOk result (λ words. words ≡ (11, 12)) }
{
    let (pool, mut berths) = Pool::<C>::new(alloc, 1, 2, 2)?;
    let Some(b) = berths.pop() else {
        unreachable!()
    };
    let Some(a) = berths.pop() else {
        unreachable!()
    };
    let mut filler = Filler {
        berth: a,
        words: (11, 12),
    };
    let mut reader = Reader {
        berth: b,
        words: (0, 0),
    };
    at_once(rt, &pool, &mut filler, &mut reader);
    let Filler {
        berth: first,
        words: _,
    } = filler;
    let Reader {
        berth: second,
        words,
    } = reader;
    pool.close(both(berths, first, second));
    Ok(words)
}

#[test]
fn two_threads_share_a_frame(rt: HostRuntime) -> Result<(), Fail> {
    let Ok(words) = share::<Brand, _>(&rt, rt.alloc()) else {
        panic!(rt; "no memory")
    };
    assert!(rt; words == (11, 12));
    Ok(())
}

// Puts one word into frame 0, and gives up.
fn fill_half<C: Content, R: Wait>(rt: &R, pool: &Pool<C>, berth: &mut Berth<C>)
    requires { IsReady pool.now berth.old }
    ensures { berth.new ≡ berth.old }
{
    pool.claim(rt, berth, 0);
    pool.put(berth, 11);
    pool.abandon(berth);
}

// A berth gives the filling of frame 0 up after one word, and fills it anew.
fn give_up<C: Content, R: Wait>(rt: &R, alloc: Global) -> Result<(u64, u64), Memory>
    requires { C.pieces ≡ Some ((11 ∷ 12 ∷ []) ∷ (21 ∷ 22 ∷ []) ∷ []) }
    ensures { IfOk result (λ words. words ≡ (21, 22)) }
{
    let (pool, mut berths) = Pool::<C>::new(alloc, 1, 2, 1)?;
    let Some(mut berth) = berths.pop() else {
        unreachable!()
    };
    fill_half(rt, &pool, &mut berth);
    fill(rt, &pool, &mut berth, 0, 1, (21, 22));
    let words = read(rt, &pool, &mut berth, 0, 1);
    berths.push_reserved(berth);
    pool.close(berths);
    Ok(words)
}

#[test]
fn an_abandoned_frame_is_free_again(rt: HostRuntime) -> Result<(), Fail> {
    let Ok(words) = give_up::<Brand, _>(&rt, rt.alloc()) else {
        panic!(rt; "no memory")
    };
    assert!(rt; words == (21, 22));
    Ok(())
}
