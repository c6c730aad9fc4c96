ghost use Rattle.std.specs.Prelude.{◌<◌, ◌≤◌};

use crate::numbers::{Seen, expect_laws};
use crate::settings::some_setting;
use crate::walks::walk;
use rand_core::Rng;
use rand_pcg::Pcg32;
use scan_story::PolicyName;
use std::alloc::Global;
use std::process::Abort;
use std::test::Fail;

/// One chunk more than fit into the frames of one worker.
const CHUNKS: u32 = 5;

/// 150 walks under the policy, with so many pieces a chunk: each law holds of each beginning of each of them.
fn expect_walks<R: Abort>(
    rt: &R,
    alloc: Global,
    policy: PolicyName,
    groups: u32,
) -> Result<(), Fail>
    requires some { 0 < groups }
    requires few { groups ≤ 16 }
{
    let mut seen = Seen {
        entries: 0,
        loads: 0,
        evictions: 0,
        lacking: 0,
        tight: 0,
        lost: 0,
        whole: 0,
    };
    for seed in 0..150u64 {
        let mut rng = Pcg32::new(seed, 7);
        let workers: u32 = if rng.next_u32() % 4 == 0 { 2 } else { 1 };
        let s = some_setting(alloc, policy, CHUNKS, workers, groups, &mut rng)?;
        let story = walk(alloc, &s, seed, 64)?;
        expect_laws(rt, alloc, &s, story.as_slice(), &mut seen)?;
    }
    // what the laws speak of was met
    assert!(rt; seen.entries > 4000 && seen.loads > 500, "{seen:?}");
    assert!(rt;
        seen.evictions > 10 && seen.lacking >= seen.evictions,
        "{seen:?}"
    );
    assert!(rt;
        seen.tight > 100 && seen.lost > 0 && seen.whole > 0,
        "{seen:?}"
    );
    Ok(())
}

#[test]
fn relevance_over_rows(rt: HostRuntime) -> Result<(), Fail> {
    expect_walks(&rt, rt.alloc(), PolicyName::Relevance, 1)
}

#[test]
fn relevance_over_columns(rt: HostRuntime) -> Result<(), Fail> {
    expect_walks(&rt, rt.alloc(), PolicyName::Relevance, 2)
}

#[test]
fn elevator_over_rows(rt: HostRuntime) -> Result<(), Fail> {
    expect_walks(&rt, rt.alloc(), PolicyName::Elevator, 1)
}

#[test]
fn elevator_over_columns(rt: HostRuntime) -> Result<(), Fail> {
    expect_walks(&rt, rt.alloc(), PolicyName::Elevator, 2)
}

#[test]
fn normal_over_rows(rt: HostRuntime) -> Result<(), Fail> {
    expect_walks(&rt, rt.alloc(), PolicyName::Normal, 1)
}

#[test]
fn normal_over_columns(rt: HostRuntime) -> Result<(), Fail> {
    expect_walks(&rt, rt.alloc(), PolicyName::Normal, 2)
}

#[test]
fn attach_over_rows(rt: HostRuntime) -> Result<(), Fail> {
    expect_walks(&rt, rt.alloc(), PolicyName::Attach, 1)
}

#[test]
fn attach_over_columns(rt: HostRuntime) -> Result<(), Fail> {
    expect_walks(&rt, rt.alloc(), PolicyName::Attach, 2)
}
