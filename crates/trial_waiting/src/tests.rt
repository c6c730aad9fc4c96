//! Schedules of the code's steps, of which none stands still, and of wrong ones, of which some do.
use crate::body::Body;
use crate::met::Met;
use crate::schedule::{Outcome, Schedule};
use std::process::Abort;

// 10,000 schedules from this seed on: each comes to its end, and together they meet all that is rare.
fn expect_ends<R: Abort>(rt: &R, workers: u32, first: u64) {
    let mut met = Met::new();
    for i in 0..10_000u64 {
        let seed = first.saturating_add(i);
        let mut schedule = Schedule::new(seed, workers, Body::Code);
        let outcome = schedule.play(false);
        assert!(rt;
            outcome == Outcome::Whole,
            "{workers} workers, seed {seed}: {outcome:?}"
        );
        met = met.and(schedule.met());
    }
    assert!(rt; met.has(200), "{met:?}");
}

#[test]
fn three_workers_end(rt: HostRuntime) {
    expect_ends(&rt, 3, 0);
}

#[test]
fn three_workers_end_from_10_000(rt: HostRuntime) {
    expect_ends(&rt, 3, 10_000);
}

#[test]
fn three_workers_end_from_20_000(rt: HostRuntime) {
    expect_ends(&rt, 3, 20_000);
}

#[test]
fn three_workers_end_from_30_000(rt: HostRuntime) {
    expect_ends(&rt, 3, 30_000);
}

#[test]
fn four_workers_end(rt: HostRuntime) {
    expect_ends(&rt, 4, 0);
}

#[test]
fn four_workers_end_from_10_000(rt: HostRuntime) {
    expect_ends(&rt, 4, 10_000);
}

#[test]
fn four_workers_end_from_20_000(rt: HostRuntime) {
    expect_ends(&rt, 4, 20_000);
}

#[test]
fn five_workers_end(rt: HostRuntime) {
    expect_ends(&rt, 5, 0);
}

#[test]
fn five_workers_end_from_10_000(rt: HostRuntime) {
    expect_ends(&rt, 5, 10_000);
}

#[test]
fn five_workers_end_from_20_000(rt: HostRuntime) {
    expect_ends(&rt, 5, 20_000);
}

// How many of so many schedules of three workers come to this, from a seed on.
fn count(body: Body, first: u64, seeds: u64, outcome: Outcome) -> u64 {
    let is_watched = outcome == Outcome::Unseen;
    let mut count: u64 = 0;
    for i in 0..seeds {
        let mut schedule = Schedule::new(first.saturating_add(i), 3, body);
        if schedule.play(is_watched) == outcome {
            count = count.saturating_add(1);
        }
    }
    count
}

#[test]
fn wrong_bodies_stand_still(rt: HostRuntime) {
    for (body, first, seeds) in [
        (Body::AddsFirst, 0, 100),
        (Body::ReadsCallsLate, 0, 100),
        (Body::NeverCalls, 0, 20),
        (Body::TakesOneAway, 0, 20),
        (Body::WakesNobody, 0, 20),
        (Body::NotesFirst, 7_000, 100),
        (Body::ReadsRingsLate, 0, 100),
        (Body::NotesNothing, 0, 50),
        (Body::KeepsDesk, 0, 50),
        (Body::RingsForAnother, 0, 50),
        (Body::EndsInSilence, 0, 50),
        (Body::TurnsInSilence, 0, 100),
    ] {
        let still = count(body, first, seeds, Outcome::StandsStill);
        assert!(rt; still > 0, "{body:?}");
    }
}

#[test]
fn a_manager_that_never_loads_goes_on_and_on(rt: HostRuntime) {
    assert_eq!(rt; count(Body::NeverLoads, 0, 10, Outcome::GoesOn), 10);
}

#[test]
fn whoever_sleeps_is_seen(rt: HostRuntime) {
    assert_eq!(rt; count(Body::Code, 0, 5_000, Outcome::Unseen), 0);
}

#[test]
fn wrong_bodies_let_a_worker_sleep_unseen(rt: HostRuntime) {
    for body in [
        Body::AddsFirst,
        Body::ReadsCallsLate,
        Body::TakesOneAway,
        Body::WakesNobody,
        Body::ReadsRingsLate,
        Body::NotesNothing,
    ] {
        let unseen = count(body, 0, 100, Outcome::Unseen);
        assert!(rt; unseen > 0, "{body:?}");
    }
}

// How many of so many schedules of three workers make a step out of order.
fn count_out_of_order(body: Body, seeds: u64) -> u64 {
    let mut count: u64 = 0;
    for seed in 0..seeds {
        let mut schedule = Schedule::new(seed, 3, body);
        if schedule.play_in_order() == Outcome::OutOfOrder {
            count = count.saturating_add(1);
        }
    }
    count
}

#[test]
fn steps_come_in_order(rt: HostRuntime) {
    assert_eq!(rt; count_out_of_order(Body::Code, 5_000), 0);
}

#[test]
fn wrong_bodies_make_steps_out_of_order(rt: HostRuntime) {
    for body in [
        Body::AddsFirst,
        Body::ReadsCallsLate,
        Body::NeverCalls,
        Body::TakesOneAway,
        Body::NotesFirst,
        Body::ReadsRingsLate,
        Body::KeepsDesk,
        Body::NeverLoads,
    ] {
        let wrong = count_out_of_order(body, 20);
        assert!(rt; wrong > 0, "{body:?}");
    }
}
