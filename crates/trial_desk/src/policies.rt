ghost use Rattle.scan_story.specs.Views.{past};
ghost use Rattle.interest_book.specs.Stands.{Stands};
ghost use Rattle.help_views.specs.Small.{IsSmall};

use crate::counted::Counted;
use crate::follow::{first_other, takes};
use help_book::played;
use help_stories::{
    POLICIES, Printed, SIX_ATTACH, SIX_ELEVATOR, SIX_NORMAL, SIX_RELEVANCE, Scene, entries_of,
};
use interest_book::{Book, Memory};
use policy_box::{Elevator, choose};
use policy_plain::{Attach, Normal};
use relevance::{Policy, Relevance};
use scan_story::{Entry, PolicyName, Setting};
use std::alloc::Global;
use std::test::Fail;

/// Where the policy first picks something else than the printed story takes.
fn parting<P: Policy>(alloc: Global, policy: P, printed: &Printed) -> Result<Option<usize>, Fail> {
    let mut policy = policy;
    let s = printed.setting(alloc)?;
    let entries = printed.entries(alloc)?;
    Ok(first_other(alloc, &mut policy, &s, &entries)?)
}

/// Where the policy of this name does so.
fn parting_of(alloc: Global, name: PolicyName, printed: &Printed) -> Result<Option<usize>, Fail> {
    match name {
        PolicyName::Relevance => parting(alloc, Relevance, printed),
        PolicyName::Elevator => parting(alloc, Elevator::new(), printed),
        PolicyName::Normal => parting(alloc, Normal::new(), printed),
        PolicyName::Attach => parting(alloc, Attach::new(), printed),
    }
}

/// Whether relevance, elevator, normal and attach do so at these places.
fn are_partings(
    alloc: Global,
    printed: &Printed,
    wanted: &[Option<usize>; 4],
) -> Result<bool, Fail> {
    for place in 0..4 {
        if parting_of(alloc, POLICIES[place], printed)? != wanted[place] {
            return Ok(false);
        }
    }
    Ok(true)
}

// Attach begins the second query elsewhere than the others, and relevance has another last victim.
const PARTINGS: [(Printed, [Option<usize>; 4]); 4] = [
    (SIX_RELEVANCE, [None, Some(50), Some(50), Some(35)]),
    (SIX_ELEVATOR, [Some(50), None, None, Some(35)]),
    (SIX_NORMAL, [Some(50), None, None, Some(35)]),
    (SIX_ATTACH, [Some(35), Some(35), Some(35), None]),
];

#[test]
fn each_policy_takes_its_own_story_and_parts_from_another_s(rt: HostRuntime) -> Result<(), Fail> {
    for (printed, wanted) in PARTINGS {
        assert!(rt;
            are_partings(rt.alloc(), &printed, &wanted)?,
            "{:?}",
            printed.policy
        );
    }
    Ok(())
}

/// The four policies in boxes, and a second relevance behind them.
fn boxes(alloc: Global) -> Result<Vec<Box<dyn Policy + Send>>, Fail> {
    let mut policies: Vec<Box<dyn Policy + Send>> = Vec::new(alloc);
    policies.push(Box::new(alloc, Elevator::new())?)?;
    policies.push(Box::new(alloc, Attach::new())?)?;
    policies.push(Box::new(alloc, Counted { loads: 0 })?)?;
    policies.push(Box::new(alloc, Relevance)?)?;
    Ok(policies)
}

#[test]
fn a_box_is_taken_by_its_name(rt: HostRuntime) -> Result<(), Fail> {
    let alloc = rt.alloc();
    let attach = choose(boxes(alloc)?, PolicyName::Attach).expect(&rt, "a box");
    assert!(rt; attach.named() == PolicyName::Attach);
    assert!(rt; parting(alloc, attach, &SIX_ATTACH)?.is_none());
    // a policy of the caller's own
    let counted = choose(boxes(alloc)?, PolicyName::Relevance).expect(&rt, "a box");
    assert!(rt; parting(alloc, counted, &SIX_RELEVANCE)?.is_none());
    assert!(rt; choose(boxes(alloc)?, PolicyName::Normal).is_none());
    Ok(())
}

fn plan(chunk: u32) -> Entry {
    Entry::Plan {
        worker: 0,
        query: 1,
        chunk,
    }
}

/// Chunks of query 1, and whether the elevator picks each for a load, one after the other. Chunk 2 is as near for both
/// queries: the least number triggers.
const PICKED: [(u32, bool); 4] = [(0, true), (1, true), (2, true), (2, false)];

fn picks_so(alloc: Global, s: &Setting, entries: &[Entry], book: &Book) -> Result<bool, Memory>
    requires small { IsSmall s.now }
    requires stands { Stands book.now s.now (past entries.now) }
{
    let mut elevator = Elevator::new();
    for (chunk, is_picked) in PICKED {
        if takes(alloc, &mut elevator, s, entries, book, &plan(chunk))? != is_picked {
            return Ok(false);
        }
    }
    Ok(true)
}

/// Whether it picks so after the story.
fn goes_up(alloc: Global, s: &Setting, entries: &[Entry]) -> Result<bool, Memory>
    requires { IsSmall s.now }
{
    match played(alloc, s, entries)? {
        Some(book) => picks_so(alloc, s, entries, &book),
        None => Ok(false),
    }
}

#[test]
fn the_elevator_s_cursor(rt: HostRuntime) -> Result<(), Fail> {
    let alloc = rt.alloc();
    let s = Scene::Shorter.setting(alloc, PolicyName::Elevator)?;
    let entries = entries_of(alloc, "register 0 1\nregister 1 2\n")?;
    assert!(rt; goes_up(alloc, &s, &entries)?);
    Ok(())
}
