//! Workers that hand a diary on, one after the other and at once.
use example_threads::diary::{hand_on, write_at_once};
use scan_story::Entry;
use std::marker::Brand;
use std::test::Fail;

#[test]
fn two_passes_hand_a_diary_on(rt: HostRuntime) -> Result<(), Fail> {
    let Ok(entries) = hand_on::<Brand, _>(&rt, rt.alloc()) else {
        panic!(rt; "no memory")
    };
    let second = Entry::Register {
        worker: 1,
        query: 2,
    };
    let first = Entry::Register {
        worker: 0,
        query: 1,
    };
    assert!(rt; entries.as_slice() == [second, first].as_slice());
    Ok(())
}

const TURNS: u32 = 500;

// How many chunks each worker has noted, where each has noted them in their order, each once.
fn noted(entries: &[Entry]) -> Option<[u32; 32]> {
    let mut written = [0u32; 32];
    for entry in entries {
        let Entry::Release {
            worker,
            query: 1,
            chunk,
        } = *entry
        else {
            return None;
        };
        if worker >= 32 || chunk >= TURNS || chunk != written[worker as usize] {
            return None;
        }
        written[worker as usize] = chunk + 1;
    }
    Some(written)
}

#[test]
fn four_threads_write_one_diary(rt: HostRuntime) -> Result<(), Fail> {
    let Ok((entries, counts)) = write_at_once::<Brand, _>(&rt, rt.alloc(), 4, TURNS) else {
        panic!(rt; "no memory")
    };
    assert!(rt; entries.len() == 4 * TURNS as usize);
    assert!(rt; noted(&entries).is_some());
    let all = [(0, TURNS), (1, TURNS), (2, TURNS), (3, TURNS)];
    assert!(rt; counts.as_slice() == all.as_slice());
    Ok(())
}

// More threads than processors, so that some sleep until they are called.
#[test]
fn threads_that_sleep_write_one_diary(rt: HostRuntime) -> Result<(), Fail> {
    let Ok((entries, _counts)) = write_at_once::<Brand, _>(&rt, rt.alloc(), 32, TURNS) else {
        panic!(rt; "no memory")
    };
    assert!(rt; noted(&entries) == Some([TURNS; 32]));
    Ok(())
}

#[test]
fn from_one_worker_to_the_most(rt: HostRuntime) -> Result<(), Fail> {
    for workers in [1u32, 2, 3, 31, 32] {
        let Ok((entries, counts)) = write_at_once::<Brand, _>(&rt, rt.alloc(), workers, 3) else {
            panic!(rt; "no memory")
        };
        assert!(rt; entries.len() == 3 * workers as usize && counts.len() == workers as usize);
    }
    Ok(())
}
