ghost use Rattle.std.specs.Prelude.{◌<◌, ◌≤◌};
ghost use Rattle.help_views.specs.Small.{IsSmall};

use crate::changes::{CHANGES, changed};
use crate::sides::{agree, ruling_on};
use help_stories::{
    COUNTS, POLICIES, Printed, SIX, Scene, TO_EVICT, TURNS, TWO_TO_DELIVER, entries_of,
};
use help_walks::{some_setting, walk};
use inspect_referee::{Better, Choice, Choices, Memory, Rank, Reason, Rule, Ruling};
use rand_pcg::Pcg32;
use scan_story::{Entry, PolicyName, Ratio, Setting};
use std::alloc::Global;
use std::process::Abort;
use std::test::Fail;

/// Whether both judges say the same of the story with the entry at the place changed in each way.
fn agree_changed(
    alloc: Global,
    s: &Setting,
    entries: &[Entry],
    place: usize,
) -> Result<bool, Memory>
    requires { IsSmall s.now }
{
    for change in CHANGES {
        let other = changed(alloc, entries, place, change)?;
        if !agree(alloc, s, &other)? {
            return Ok(false);
        }
    }
    Ok(true)
}

/// Whether both judges say the same of the story, and of each change of one entry out of so many.
fn agree_throughout(
    alloc: Global,
    s: &Setting,
    entries: &[Entry],
    step: usize,
) -> Result<bool, Memory>
    requires small { IsSmall s.now }
    requires some { 0 < step }
{
    for place in 0..entries.len() {
        if place % step == step - 1 && !agree_changed(alloc, s, entries, place)? {
            return Ok(false);
        }
    }
    agree(alloc, s, entries)
}

/// The judges agree on each of the printed stories, and on each change of one entry out of so many.
fn expect_printed<R: Abort>(
    rt: &R,
    alloc: Global,
    stories: &[Printed],
    step: usize,
) -> Result<(), Fail>
    requires { 0 < step }
{
    for printed in stories {
        let s = printed.setting(alloc)?;
        let entries = printed.entries(alloc)?;
        assert!(rt; agree_throughout(alloc, &s, &entries, step)?, "{printed:?}");
    }
    Ok(())
}

#[test]
fn the_judges_agree_on_printed_stories(rt: HostRuntime) -> Result<(), Fail> {
    let alloc = rt.alloc();
    expect_printed(&rt, alloc, &TURNS, 8)?;
    expect_printed(&rt, alloc, &COUNTS, 13)?;
    expect_printed(&rt, alloc, &SIX, 60)?;
    expect_printed(&rt, alloc, &[TWO_TO_DELIVER, TO_EVICT], 60)
}

/// Whether the judges agree on a walk, by so many workers and with so many pieces a chunk.
fn agree_on_walk(
    alloc: Global,
    policy: PolicyName,
    seed: u64,
    workers: u32,
    groups: u32,
) -> Result<bool, Fail>
    requires workers { (0 < workers) × (workers ≤ 32) }
    requires groups { (0 < groups) × (groups ≤ 16) }
{
    let mut rng = Pcg32::new(seed, 13);
    let s = some_setting(alloc, policy, 5, workers, groups, &mut rng)?;
    let story = walk(alloc, &s, seed, 20)?;
    Ok(agree_throughout(alloc, &s, &story, 12)?)
}

#[test]
fn the_judges_agree_on_walks(rt: HostRuntime) -> Result<(), Fail> {
    let alloc = rt.alloc();
    for policy in POLICIES {
        assert!(rt;
            agree_on_walk(alloc, policy, 1, 1, 1)?,
            "{policy:?} over rows"
        );
        assert!(rt;
            agree_on_walk(alloc, policy, 2, 2, 2)?,
            "{policy:?} over columns"
        );
    }
    Ok(())
}

/// A story, of which the last entry may not come, and why.
type Refused = (Scene, PolicyName, &'static str, Reason);

/// Whether the referee says so, and where choices are free only of a rule that is broken.
fn is_refused(alloc: Global, refused: &Refused) -> Result<bool, Fail> {
    let (scene, policy, text, reason) = *refused;
    let s = scene.setting(alloc, policy)?;
    let entries = entries_of(alloc, text)?;
    let place = entries.len().saturating_sub(1);
    let is_broken = matches!(reason, Reason::Broken(_));
    let found = ruling_on(alloc, &s, Choices::OfPolicy, &entries)?;
    let free = match ruling_on(alloc, &s, Choices::Free, &entries)? {
        Some(Ruling::Legal { whole, .. }) => !is_broken && !whole,
        other => is_broken && other == found,
    };
    Ok(free && found == Some(Ruling::Illegal { place, reason }))
}

fn expect_refused<R: Abort>(rt: &R, alloc: Global, rows: &[Refused]) -> Result<(), Fail> {
    for refused in rows {
        assert!(rt; is_refused(alloc, refused)?, "{refused:?}");
    }
    Ok(())
}

const BROKEN: [(&str, Rule); 27] = [
    ("register 0 1\nregister 0 1\n", Rule::First),
    ("register 1 1\n", Rule::OnWorker),
    ("register 0 1\nregister 0 2\n", Rule::OnWorker),
    ("register 0 1\nstop 1 1\n", Rule::OnWorker),
    ("plan 2 1 0\n", Rule::IsWorker),
    ("register 0 1\nplan 0 1 0\nplan 1 1 1\n", Rule::NoneUnderway),
    ("plan 0 1 0\n", Rule::Starved),
    ("register 0 1\nplan 0 1 3\n", Rule::Target),
    ("register 0 1\nplan 0 257 0\n", Rule::Starved),
    ("evict 0 0\n", Rule::OwnLoad),
    ("register 0 1\nplan 0 1 0\nfill 1 0 0\n", Rule::OwnLoad),
    ("register 0 1\nplan 0 1 0\nevict 0 0\n", Rule::TooFew),
    (
        "register 0 1\nplan 0 1 0\nfill 0 0 0\nevict 0 0\n",
        Rule::NoneBegun,
    ),
    ("register 0 1\nplan 0 1 0\nfill 0 7 0\n", Rule::IsFrame),
    ("register 0 1\nplan 0 1 0\nfill 0 0 1\n", Rule::Missing),
    (
        "register 0 1\nplan 0 1 0\nfill 0 0 0\nfill 0 0 0\n",
        Rule::Free,
    ),
    (
        "register 0 1\nplan 0 1 0\nfill 0 0 0\nfill 0 1 0\n",
        Rule::NotBegun,
    ),
    ("register 0 1\nplan 0 1 0\nfilled 0 0 0\n", Rule::Begun),
    (
        "register 0 1\nplan 0 1 0\nfill 0 0 0\nfailed 0 2 0 damage 1\n",
        Rule::ForQuery,
    ),
    (
        "register 0 1\nplan 0 1 0\nfill 0 0 0\nfailed 0 1 1 damage 1\n",
        Rule::Begun,
    ),
    (
        "register 0 1\nplan 0 1 0\nfill 0 0 0\nfailed 0 1 0 fault 4 4\n",
        Rule::Reason,
    ),
    ("deliver 0 1 0\n", Rule::Active),
    ("register 0 1\ndeliver 0 1 0\n", Rule::Ready),
    ("register 0 1\nplan 0 1 0\nstop 0 1\n", Rule::LoadsNothing),
    (
        "register 0 1\nplan 0 1 0\nfill 0 0 0\nfilled 0 0 0\ndeliver 0 1 0\nstop 0 1\n",
        Rule::HoldsNothing,
    ),
    ("register 0 1\nrelease 0 1 0\n", Rule::Holds),
    ("register 0 1\nend 0 1\n", Rule::NeedsNothing),
];

#[test]
fn the_rule_that_an_entry_breaks(rt: HostRuntime) -> Result<(), Fail> {
    let alloc = rt.alloc();
    for (text, rule) in BROKEN {
        let refused = (
            Scene::Shorter,
            PolicyName::Relevance,
            text,
            Reason::Broken(rule),
        );
        assert!(rt; is_refused(alloc, &refused)?, "{text}");
    }
    Ok(())
}

/// The ranks are those of the worked examples of the book.
const OUTDONE: &[Refused] = &[
    (
        Scene::Shorter,
        PolicyName::Relevance,
        "register 0 1\nregister 1 2\nplan 0 1 0\n",
        Reason::Outdone(Better {
            choice: Choice::Trigger,
            number: 2,
            rank: Rank::Urgency(-2),
            taken: Rank::Urgency(-5),
        }),
    ),
    (
        Scene::Shorter,
        PolicyName::Elevator,
        "register 0 1\nregister 1 2\nplan 0 2 2\n",
        Reason::Outdone(Better {
            choice: Choice::Trigger,
            number: 1,
            rank: Rank::Steps(0),
            taken: Rank::Steps(2),
        }),
    ),
    (
        Scene::Shorter,
        PolicyName::Normal,
        "register 0 1\nregister 1 2\nplan 0 2 2\n",
        Reason::Outdone(Better {
            choice: Choice::Trigger,
            number: 1,
            rank: Rank::Waited(1),
            taken: Rank::Waited(0),
        }),
    ),
    (
        Scene::Shorter,
        PolicyName::Attach,
        "register 0 1\nregister 1 2\nplan 0 1 1\n",
        Reason::Outdone(Better {
            choice: Choice::Load,
            number: 0,
            rank: Rank::Steps(0),
            taken: Rank::Steps(1),
        }),
    ),
    (
        Scene::Shorter,
        PolicyName::Normal,
        "register 0 1\nplan 0 1 0\nfill 0 0 0\nfilled 0 0 0\nplan 0 1 1\nfill 0 1 1\nfilled 0 1 1\ndeliver 0 1 1\n",
        Reason::Outdone(Better {
            choice: Choice::Delivery,
            number: 0,
            rank: Rank::Steps(0),
            taken: Rank::Steps(1),
        }),
    ),
    (
        Scene::Shorter,
        PolicyName::Relevance,
        "register 0 1\nplan 0 1 0\nfill 0 0 0\nfilled 0 0 0\nregister 1 2\nplan 0 2 2\nfill 0 1 2\nfilled 0 1 2\n\
deliver 0 1 2\n",
        Reason::Outdone(Better {
            choice: Choice::Delivery,
            number: 0,
            rank: Rank::Gain(Ratio { num: 1, den: 1 }),
            taken: Rank::Gain(Ratio { num: 1, den: 2 }),
        }),
    ),
];

#[test]
fn the_better_choice_with_both_ranks(rt: HostRuntime) -> Result<(), Fail> {
    expect_refused(&rt, rt.alloc(), OUTDONE)
}

/// The elevator stands at chunk 0, and chunk 3 is nearer than chunk 4, neither close to a query.
const NEARER: Reason = Reason::Outdone(Better {
    choice: Choice::Victim,
    number: 0,
    rank: Rank::Fitness { close: 0, key: 0 },
    taken: Rank::Fitness { close: 0, key: 4 },
});

#[test]
fn a_victim_that_is_outdone(rt: HostRuntime) -> Result<(), Fail> {
    let alloc = rt.alloc();
    let s = TO_EVICT.setting(alloc)?;
    let mut entries = TO_EVICT.entries(alloc)?;
    let place = entries.len();
    entries.push(Entry::Evict {
        worker: 0,
        chunk: 4,
    })?;
    let reason = NEARER;
    let found = ruling_on(alloc, &s, Choices::OfPolicy, &entries)?;
    assert!(rt; found == Some(Ruling::Illegal { place, reason }));
    Ok(())
}
