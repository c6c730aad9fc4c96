//! Workers that sleep at a baton's bell until it is rung for them.
use baton::{Baton, Bell};
use example_threads::diary::Diary;
use scan_story::{Memory, Origin};
use std::alloc::Global;
use std::marker::Brand;
use std::sync::Wait;
use std::test::Fail;
use std::thread;
use std::thread::{Threads, join};
use std::time::Duration;

// The seconds that a wait may take, more than a test may.
const LONG: u64 = 600;

// Lets the other thread go on, and then rings for worker 1.
fn ring_soon(bell: &Bell) {
    for _ in 0..100 {
        thread::yield_now();
    }
    bell.ring(1);
}

// Worker 1 sleeps while another thread rings for it; then it sleeps where it was rung for before.
fn sleep_twice<S: Origin + Send + Sync, R: Threads + Wait + Sync>(
    rt: &R,
    alloc: Global,
) -> Result<u64, Memory> {
    let (baton, _passes) = match Baton::new(alloc, Diary::<S>::new(alloc), 2) {
        Ok(made) => made,
        Err((_, Memory)) => return Err(Memory),
    };
    let bell = baton.bell();
    let long = Duration::from_secs(LONG);
    let before = bell.lie_down(1, 7);
    join(rt, || bell.sleep(rt, 1, before, long), || ring_soon(bell));
    let between = bell.lie_down(1, 7);
    bell.ring(1);
    bell.sleep(rt, 1, between, long);
    Ok(bell.lie_down(1, 7))
}

#[test]
fn a_ring_wakes_a_sleeper_and_none_is_lost(rt: HostRuntime) -> Result<(), Fail> {
    for _ in 0..100 {
        match sleep_twice::<Brand, _>(&rt, rt.alloc()) {
            Ok(rings) => assert_eq!(rt; rings, 2),
            Err(Memory) => panic!(rt; "no memory"),
        }
    }
    Ok(())
}

// What workers 0 and 1 sleep for, and whether anybody sleeps.
fn asleep(bell: &Bell) -> (u64, u64, bool) {
    (bell.sleeps_for(0), bell.sleeps_for(1), bell.is_waited_for())
}

#[test]
fn a_ring_is_for_one_worker_alone(rt: HostRuntime) -> Result<(), Fail> {
    let alloc = rt.alloc();
    let Ok((baton, _passes)) = Baton::new(alloc, Diary::<Brand>::new(alloc), 2) else {
        panic!(rt; "no memory")
    };
    let bell = baton.bell();
    assert!(rt; asleep(bell) == (0, 0, false));
    bell.lie_down(0, 3);
    bell.lie_down(1, 4);
    assert!(rt; asleep(bell) == (3, 4, true));
    bell.ring(1);
    assert!(rt; asleep(bell) == (3, 0, true));
    bell.ring(1);
    bell.ring(0);
    assert!(rt; asleep(bell) == (0, 0, false));
    Ok(())
}
