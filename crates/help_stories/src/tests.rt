ghost use Rattle.std.specs.Prelude.{◌<◌, ◌≤◌, length};
ghost use Rattle.help_views.specs.Small.{IsSmall};

use super::*;
use crate::stories::{COLUMNS, SHORTER, TRIGGER_STOPS};
use help_judge::{first_illegal, is_legal, is_licensed, is_undisturbed, is_whole};
use scan_story::{Entry, PolicyName, Setting};
use std::alloc::{AllocError, Global};
use std::process::Abort;
use std::test::Fail;

fn is_good(alloc: Global, s: &Setting, entries: &[Entry]) -> Result<bool, AllocError>
    requires { IsSmall s.now }
{
    if !is_legal(alloc, s, entries)? {
        return Ok(false);
    }
    is_whole(alloc, s, entries)
}

/// The story is legal and whole, held chunks stay, and its faults fit the counts 0 and 1.
fn expect_good<R: Abort>(rt: &R, alloc: Global, printed: &Printed) -> Result<(), Fail> {
    let s = printed.setting(alloc)?;
    let entries = printed.entries(alloc)?;
    assert_eq!(rt; first_illegal(alloc, &s, &entries)?, None, "{printed:?}");
    assert!(rt; is_good(alloc, &s, &entries)?, "{printed:?}");
    assert!(rt; is_undisturbed(&s, &entries), "{printed:?}");
    assert!(rt; is_licensed(true, 0, 1, &entries), "{printed:?}");
    Ok(())
}

#[test]
fn the_printed_stories_are_legal_and_whole(rt: HostRuntime) -> Result<(), Fail> {
    let alloc = rt.alloc();
    for printed in COUNTS {
        expect_good(&rt, alloc, &printed)?;
    }
    // each policy has its story of the six chunks
    for printed in SIX {
        expect_good(&rt, alloc, &printed)?;
    }
    // the second query takes chunk 5 first under attach, and chunk 2 under the others
    for (printed, policy) in [
        (SIX_ATTACH, PolicyName::Elevator),
        (SIX_NORMAL, PolicyName::Attach),
    ] {
        let s = printed.scene.setting(alloc, policy)?;
        let entries = printed.entries(alloc)?;
        assert_eq!(rt;
            first_illegal(alloc, &s, &entries)?,
            Some(35),
            "{printed:?}"
        );
    }
    Ok(())
}

const PLAN_1_0: &str = "register 0 1\nregister 1 2\nplan 0 1 0\n";

// The worked turns: a scene, its policy, a story, and its first entry that may not come.
const WORKED: [(Scene, PolicyName, &str, Option<usize>); 8] = [
    (Scene::Shorter, PolicyName::Relevance, SHORTER, None),
    // the query that waited longest, in place of the shorter one
    (Scene::Shorter, PolicyName::Relevance, PLAN_1_0, Some(2)),
    (Scene::Shorter, PolicyName::Elevator, PLAN_1_0, None),
    (Scene::Shorter, PolicyName::Elevator, SHORTER, Some(2)),
    (Scene::Columns, PolicyName::Relevance, COLUMNS, None),
    // chunk 0 has the lesser ratio
    (Scene::Columns, PolicyName::Relevance, PLAN_1_0, Some(2)),
    // the second column of chunk 1 isn't read by query 1
    (
        Scene::Columns,
        PolicyName::Relevance,
        "register 0 1\nregister 1 2\nplan 0 1 1\nfill 0 0 3\n",
        Some(3),
    ),
    (
        Scene::TriggerStops,
        PolicyName::Relevance,
        TRIGGER_STOPS,
        None,
    ),
];

#[test]
fn the_worked_turns_are_legal(rt: HostRuntime) -> Result<(), Fail> {
    let alloc = rt.alloc();
    for (scene, policy, text, place) in WORKED {
        let s = scene.setting(alloc, policy)?;
        let entries = entries_of(alloc, text)?;
        assert_eq!(rt;
            first_illegal(alloc, &s, &entries)?,
            place,
            "{scene:?}: {text}"
        );
    }
    Ok(())
}

#[test]
fn the_elevator_goes_on_from_its_cursor(rt: HostRuntime) -> Result<(), Fail> {
    let alloc = rt.alloc();
    let mut s = Scene::Shorter.setting(alloc, PolicyName::Elevator)?;
    s.cursor = [1u32].iter().copied().collect(alloc)?;
    // query 2 is further away, and so are chunks 0 and 2 of query 1
    for (plan, place) in [
        ("plan 0 1 1\n", None),
        ("plan 0 1 0\n", Some(2)),
        ("plan 0 1 2\n", Some(2)),
        ("plan 1 2 2\n", Some(2)),
    ] {
        let text = format!(in alloc; "register 0 1\nregister 1 2\n{plan}")?;
        let entries = entries_of(alloc, &text)?;
        assert_eq!(rt; first_illegal(alloc, &s, &entries)?, place, "{plan}");
    }
    Ok(())
}

#[test]
fn reasons_of_failed_loads(rt: HostRuntime) -> Result<(), Fail> {
    let alloc = rt.alloc();
    let s = Scene::TwoCounts.setting(alloc, PolicyName::Relevance)?;
    let begin = "register 0 1\nplan 0 1 0\nfill 0 0 0\n";
    // a count that rose; one that didn't; the last count; a damaged piece
    let cases = [
        ("failed 0 1 0 fault 3 4\n", None, true, false),
        ("failed 0 1 0 fault 4 4\n", Some(3), false, false),
        (
            "failed 0 1 0 fault 18446744073709551615 18446744073709551615\n",
            None,
            false,
            false,
        ),
        ("failed 0 1 0 damage 2\n", None, false, true),
    ];
    for (line, place, told, untold) in cases {
        let text = format!(in alloc; "{begin}{line}")?;
        let entries = entries_of(alloc, &text)?;
        assert_eq!(rt; first_illegal(alloc, &s, &entries)?, place, "{line}");
        assert_eq!(rt; is_licensed(true, 3, 4, &entries), told, "{line}");
        assert_eq!(rt;
            is_licensed(false, 3, 4, &entries),
            told || untold,
            "{line}"
        );
    }
    Ok(())
}

#[test]
fn a_held_chunk_that_goes_is_seen(rt: HostRuntime) -> Result<(), Fail> {
    let alloc = rt.alloc();
    let s = Scene::OneCount.setting(alloc, PolicyName::Relevance)?;
    for (text, stays) in [
        (
            "filled 0 1 2\ndeliver 0 1 2\nfill 0 0 1\nrelease 0 1 2\nfill 0 1 1\nevict 0 2\n",
            true,
        ),
        ("filled 0 1 2\ndeliver 0 1 2\nfill 0 1 1\n", false),
        // the first of two deliveries counts until the release
        ("deliver 0 1 2\ndeliver 0 1 0\nevict 0 2\n", false),
    ] {
        let entries = entries_of(alloc, text)?;
        assert_eq!(rt; is_undisturbed(&s, &entries), stays, "{text}");
    }
    Ok(())
}

fn with_chunk(entry: Entry, c: u32) -> Entry {
    match entry {
        Entry::Plan { worker, query, .. } => Entry::Plan {
            worker,
            query,
            chunk: c,
        },
        Entry::Evict { worker, .. } => Entry::Evict { worker, chunk: c },
        Entry::Deliver { worker, query, .. } => Entry::Deliver {
            worker,
            query,
            chunk: c,
        },
        Entry::Release { worker, query, .. } => Entry::Release {
            worker,
            query,
            chunk: c,
        },
        other => other,
    }
}

fn with_frame(entry: Entry, f: u32) -> Entry {
    match entry {
        Entry::Fill { worker, piece, .. } => Entry::Fill {
            worker,
            frame: f,
            piece,
        },
        Entry::Filled { worker, piece, .. } => Entry::Filled {
            worker,
            frame: f,
            piece,
        },
        other => other,
    }
}

fn copy_of(alloc: Global, entries: &[Entry]) -> Result<Vec<Entry>, AllocError> {
    entries.iter().copied().collect(alloc)
}

/// How many exchanges of the entry at place `i` with a later one leave the story legal and whole.
fn unseen_exchanges(
    alloc: Global,
    s: &Setting,
    entries: &[Entry],
    i: usize,
) -> Result<usize, AllocError>
    requires { IsSmall s.now }
{
    let mut unseen: usize = 0;
    for j in i..entries.len() {
        let mut copy = copy_of(alloc, entries)?;
        if i < copy.len() && j < copy.len() && copy[i] != copy[j] {
            copy.swap(i, j);
            if is_good(alloc, s, copy.as_slice())? {
                unseen = unseen.saturating_add(1);
            }
        }
    }
    Ok(unseen)
}

/// How many changes of the entry at place `i` leave the story legal and whole: one with another chunk or frame, the
/// entry left out, the entry twice.
fn unseen_at(alloc: Global, s: &Setting, entries: &[Entry], i: usize) -> Result<usize, AllocError>
    requires small { IsSmall s.now }
    requires place { i < length entries.now }
{
    let entry = entries[i];
    let mut unseen: usize = 0;
    for n in 0..6u32 {
        for other in [with_chunk(entry, n), with_frame(entry, n)] {
            let mut copy = copy_of(alloc, entries)?;
            if i < copy.len() {
                copy[i] = other;
            }
            if other != entry && is_good(alloc, s, copy.as_slice())? {
                unseen = unseen.saturating_add(1);
            }
        }
    }
    let mut shorter = copy_of(alloc, entries)?;
    let mut longer = copy_of(alloc, entries)?;
    if i < shorter.len() && i < longer.len() {
        shorter.remove(i);
        longer.insert(i, entry)?;
    }
    if is_good(alloc, s, shorter.as_slice())? {
        unseen = unseen.saturating_add(1);
    }
    if is_good(alloc, s, longer.as_slice())? {
        unseen = unseen.saturating_add(1);
    }
    Ok(unseen)
}

/// How many single changes of the story leave it legal and whole.
fn unseen(alloc: Global, s: &Setting, entries: &[Entry]) -> Result<usize, AllocError>
    requires { IsSmall s.now }
{
    let mut sum: usize = 0;
    for i in 0..entries.len() {
        let here = unseen_at(alloc, s, entries, i)?;
        let exchanged = unseen_exchanges(alloc, s, entries, i)?;
        sum = sum.saturating_add(here).saturating_add(exchanged);
    }
    Ok(sum)
}

#[test]
fn each_single_change_of_a_printed_story_is_seen(rt: HostRuntime) -> Result<(), Fail> {
    let alloc = rt.alloc();
    let [one_count, fault] = COUNTS;
    for (printed, wanted) in [(one_count, 0), (fault, 2), (SIX_RELEVANCE, 0)] {
        let s = printed.setting(alloc)?;
        let entries = printed.entries(alloc)?;
        assert_eq!(rt; unseen(alloc, &s, &entries)?, wanted, "{printed:?}");
    }
    // entry 7 begins the load that fails: it may go to each of the three free frames, since Failed names none
    let s = fault.setting(alloc)?;
    let entries = fault.entries(alloc)?;
    assert!(rt; entries.len() == 23);
    assert_eq!(rt; unseen_at(alloc, &s, &entries, 7)?, 2);
    Ok(())
}
