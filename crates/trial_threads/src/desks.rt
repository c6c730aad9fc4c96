//! What a desk is made of, and that it may be sent to another thread.
use abm_policy::{Desk, Slots, frames_needed};
use coop_outside::MemDepot;
use relevance::Relevance;
use std::marker::Brand;
use std::test::Fail;

#[test]
fn slots_are_kept_in_their_order(rt: HostRuntime) -> Result<(), Fail> {
    let mut slots = Slots::new();
    assert!(rt; slots.len() == 0);
    slots.push(5, 70);
    slots.push(2, 71);
    let copy = slots.copy();
    assert!(rt; copy.len() == 2 && copy.at(0) == (5, 70) && copy.at(1) == (2, 71));
    Ok(())
}

#[test]
fn three_frames_a_worker_and_one_more(rt: HostRuntime) -> Result<(), Fail> {
    for (workers, groups, frames) in [(1, 1, 4), (2, 1, 7), (2, 2, 14), (32, 16, 1552)] {
        assert!(rt; frames_needed(workers, groups) == frames);
    }
    Ok(())
}

fn is_send<T: Send>() {}

#[test]
fn a_desk_may_be_sent(rt: HostRuntime) -> Result<(), Fail> {
    let _rt = rt;
    is_send::<Desk<Brand, Relevance, MemDepot>>();
    Ok(())
}
