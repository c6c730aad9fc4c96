// Two passes that hand a desk on.
use crate::handing::hand_on;
use crate::tables::{NO_PIECE, ROWS, depot};
use crate::tests::expected::{Expected, expect};
use help_stories::Scene;
use relevance::Relevance;
use scan_story::PolicyName;
use std::test::Fail;

#[test]
fn two_passes_hand_a_desk_on(rt: HostRuntime) -> Result<(), Fail> {
    let alloc = rt.alloc();
    let s = Scene::Shorter.setting(alloc, PolicyName::Relevance)?;
    let depot = depot(&rt, alloc, &ROWS, &[], (NO_PIECE, 0))?;
    let Ok(out) = hand_on(&rt, alloc, &s, Relevance, depot) else {
        panic!(rt; "no memory")
    };
    let expected = Expected {
        name: "two passes hand a desk on",
        story: &["register 1 2\nregister 0 1\n"],
        saw: &[],
        cells: &[],
        gets: 0,
        faults: 0,
    };
    expect(&rt, alloc, &out, &expected)
}
