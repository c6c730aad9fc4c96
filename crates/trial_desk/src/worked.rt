// What a desk answers to the calls of the worked examples.
use crate::calls::{Call, answers};
use crate::said::Said;
use crate::tests::{NO_PIECE, depot};
use abm_policy::{Cause, Slots, Why};
use help_stories::Scene;
use relevance::Relevance;
use scan_story::PolicyName;
use std::alloc::Global;
use std::process::Abort;
use std::test::Fail;

// What is to be answered. A slot is a frame and a piece, and there is no other one.
#[derive(Clone, Copy)]
enum Wanted {
    Registered,
    Loads {
        trigger: u32,
        chunk: u32,
        slot: (u32, u32),
    },
    Filled,
    Failed(Why),
    Took {
        chunk: u32,
        slot: (u32, u32),
    },
    NotYet,
    Released,
    Stopped(Cause),
}

fn is_slot(slots: &Slots, slot: (u32, u32)) -> bool {
    slots.len() == 1 && slots.at(0) == slot
}

fn is_wanted(said: &Said, wanted: Wanted) -> bool {
    match (said, wanted) {
        (Said::Registered { .. }, Wanted::Registered) => true,
        (
            Said::Loads {
                trigger,
                chunk,
                slots,
                ..
            },
            Wanted::Loads {
                trigger: query,
                chunk: target,
                slot,
            },
        ) => *trigger == query && *chunk == target && is_slot(slots, slot),
        (Said::Filled { .. }, Wanted::Filled) => true,
        (Said::Failed { done, why, .. }, Wanted::Failed(cause)) => *done == 0 && *why == cause,
        (Said::Took { chunk, slots, .. }, Wanted::Took { chunk: taken, slot }) => {
            *chunk == taken && is_slot(slots, slot)
        }
        (Said::NotYet { .. }, Wanted::NotYet) => true,
        (Said::Released { .. }, Wanted::Released) => true,
        (Said::Stopped { cause, .. }, Wanted::Stopped(why)) => *cause == why,
        _ => false,
    }
}

// Calls, and what is answered to each.
type Turns = &'static [(Call, Wanted)];

// A new desk under relevance, of this scene, answers each call as is wanted.
fn expect_turns<R: Abort>(
    rt: &R,
    alloc: Global,
    scene: Scene,
    fail_gets: &[u64],
    turns: Turns,
) -> Result<(), Fail> {
    let s = scene.setting(alloc, PolicyName::Relevance)?;
    let depot = depot(rt, alloc, &s, fail_gets, NO_PIECE)?;
    let mut calls = Vec::new(alloc);
    for (call, _) in turns {
        calls.push(*call)?;
    }
    let Some(said) = answers(alloc, &s, Relevance, depot, calls.as_slice())? else {
        panic!(rt; "a call may not come: {scene:?}")
    };
    for (one, (call, wanted)) in said.iter().zip(turns) {
        assert!(rt; is_wanted(one, *wanted), "{scene:?}: {call:?}");
    }
    Ok(())
}

const FIRST: (Call, Wanted) = (
    Call::Register {
        worker: 0,
        query: 1,
    },
    Wanted::Registered,
);

const SECOND: (Call, Wanted) = (
    Call::Register {
        worker: 1,
        query: 2,
    },
    Wanted::Registered,
);

const TURN_0: Call = Call::Turn { worker: 0 };

const TURN_1: Call = Call::Turn { worker: 1 };

const FILLED: (Call, Wanted) = (Call::Close, Wanted::Filled);

const FAILED: (Call, Wanted) = (
    Call::Close,
    Wanted::Failed(Why::Fault {
        before: 0,
        after: 1,
    }),
);

const STOPPED: Wanted = Wanted::Stopped(Cause::Read {
    before: 0,
    after: 1,
});

const TAKES_0: Wanted = Wanted::Took {
    chunk: 0,
    slot: (0, 0),
};

// The scenes of the worked turns, the gets that fail in them, and their turns.
const WORKED: [(Scene, &[u64], Turns); 3] = [
    // the desk loads for the shorter query
    (
        Scene::Shorter,
        &[],
        &[
            FIRST,
            SECOND,
            (
                TURN_0,
                Wanted::Loads {
                    trigger: 2,
                    chunk: 2,
                    slot: (0, 2),
                },
            ),
            (TURN_1, Wanted::NotYet),
            FILLED,
            (
                TURN_0,
                Wanted::Took {
                    chunk: 2,
                    slot: (0, 2),
                },
            ),
        ],
    ),
    // a trigger stops while its worker holds a chunk
    (
        Scene::TriggerStops,
        &[2],
        &[
            FIRST,
            SECOND,
            (
                TURN_0,
                Wanted::Loads {
                    trigger: 1,
                    chunk: 0,
                    slot: (0, 0),
                },
            ),
            FILLED,
            (TURN_0, TAKES_0),
            (TURN_1, TAKES_0),
            (Call::Release { worker: 1 }, Wanted::Released),
            (
                TURN_1,
                Wanted::Loads {
                    trigger: 1,
                    chunk: 1,
                    slot: (1, 1),
                },
            ),
            FAILED,
            (Call::Release { worker: 0 }, Wanted::Released),
            (TURN_0, STOPPED),
            (
                TURN_1,
                Wanted::Loads {
                    trigger: 2,
                    chunk: 1,
                    slot: (1, 1),
                },
            ),
        ],
    ),
    // the desk in the column layout
    (
        Scene::Columns,
        &[],
        &[
            FIRST,
            SECOND,
            (
                TURN_0,
                Wanted::Loads {
                    trigger: 1,
                    chunk: 1,
                    slot: (0, 2),
                },
            ),
            FILLED,
            (
                TURN_0,
                Wanted::Took {
                    chunk: 1,
                    slot: (0, 2),
                },
            ),
            (
                TURN_1,
                Wanted::Loads {
                    trigger: 2,
                    chunk: 1,
                    slot: (1, 3),
                },
            ),
        ],
    ),
];

#[test]
fn each_call_of_the_worked_turns_is_answered_as_is_wanted(rt: HostRuntime) -> Result<(), Fail> {
    for (scene, fail_gets, turns) in WORKED {
        expect_turns(&rt, rt.alloc(), scene, fail_gets, turns)?;
    }
    Ok(())
}
