ghost use Rattle.std.specs.Prelude.{◌≡◌, ◌<◌, ◌≤◌};
ghost use Rattle.help_views.specs.Small.{IsSmall};

use crate::bound::is_paid;
use crate::expected::expect_answers;
use crate::script::play;
use crate::walks::{Walked, walk};
use coop_outside::{Depot, MemDepot, SpoiltDepot};
use help_judge::{first_illegal, is_licensed, is_undisturbed, is_whole};
use help_stories::{
    COUNTS, POLICIES, Printed, SIX_ATTACH, SIX_ELEVATOR, SIX_NORMAL, SIX_RELEVANCE, TURNS,
};
use help_walks::some_setting;
use policy_box::Elevator;
use policy_plain::{Attach, Normal};
use rand_pcg::Pcg32;
use relevance::{Policy, Relevance};
use scan_story::{Entry, PolicyName, Setting, Why};
use std::alloc::{AllocError, Global};
use std::process::Abort;
use std::test::Fail;

/// No piece has this number.
pub const NO_PIECE: u32 = 4294967295;

/// A depot that has each piece of the setting, a word with its number. It fails at these gets, and gives the spoilt
/// piece wrong.
pub fn depot<R: Abort>(
    rt: &R,
    alloc: Global,
    s: &Setting,
    fail_gets: &[u64],
    piece: u32,
) -> Result<SpoiltDepot, Fail> {
    let mut inner = MemDepot::new(alloc);
    for p in 0..s.chunks.saturating_mul(s.groups) {
        let word = (p as u64).to_le_bytes();
        assert!(rt; inner.put(p, &word).is_ok());
    }
    inner.fail_gets = Vec::from_slice(alloc, fail_gets)?;
    Ok(SpoiltDepot {
        inner,
        piece,
        word: 0,
        value: u64::MAX,
    })
}

fn reads(story: &[Entry]) -> u64 {
    let mut sum: u64 = 0;
    for entry in story {
        if let Entry::Filled { .. } | Entry::Failed { .. } = *entry {
            sum = sum.saturating_add(1);
        }
    }
    sum
}

/// The story and the depot of the calls that the printed story asks for.
fn made<R: Abort, P: Policy>(
    rt: &R,
    alloc: Global,
    policy: P,
    printed: &Printed,
    entries: &[Entry],
) -> Result<(Vec<Entry>, SpoiltDepot), Fail> {
    let s = printed.setting(alloc)?;
    let depot = depot(rt, alloc, &s, printed.fail_gets, NO_PIECE)?;
    match play(alloc, &s, policy, depot, entries)? {
        Some(made) => Ok(made),
        None => panic!(rt; "no story"),
    }
}

/// The calls of the printed story make just that story, and so many entries more, which end a load that it leaves
/// underway.
fn expect_story<R: Abort, P: Policy>(
    rt: &R,
    alloc: Global,
    policy: P,
    printed: &Printed,
    more: usize,
) -> Result<(), Fail> {
    let entries = printed.entries(alloc)?;
    let (story, depot) = made(rt, alloc, policy, printed, &entries)?;
    let is_made = story.len() == entries.len().saturating_add(more)
        && story.starts_with(&entries)
        && depot.inner.gets == reads(&story);
    assert!(rt; is_made, "{printed:?}: {story:?}");
    Ok(())
}

#[test]
fn each_printed_story_is_made_by_its_calls(rt: HostRuntime) -> Result<(), Fail> {
    let alloc = rt.alloc();
    let [one_count, fault] = COUNTS;
    let [shorter, columns, trigger_stops] = TURNS;
    for (printed, more) in [
        (one_count, 0),
        (fault, 0),
        (SIX_RELEVANCE, 0),
        (shorter, 0),
        (columns, 0),
        (trigger_stops, 1),
    ] {
        expect_story(&rt, alloc, Relevance, &printed, more)?;
    }
    // so are those of the other policies
    expect_story(&rt, alloc, Elevator::new(), &SIX_ELEVATOR, 0)?;
    expect_story(&rt, alloc, Normal::new(), &SIX_NORMAL, 0)?;
    expect_story(&rt, alloc, Attach::new(), &SIX_ATTACH, 0)
}

/// How often walks met what they are to meet.
#[derive(Clone, Copy, Debug)]
struct Met {
    entries: u64,
    evictions: u64,
    stops: u64,
    faults: u64,
    damages: u64,
    ends: u64,
}

fn one_more(n: &mut u64) {
    *n = n.saturating_add(1);
}

fn count(met: &mut Met, story: &[Entry]) {
    for entry in story {
        one_more(&mut met.entries);
        match *entry {
            Entry::Evict { .. } => one_more(&mut met.evictions),
            Entry::Stop { .. } => one_more(&mut met.stops),
            Entry::End { .. } => one_more(&mut met.ends),
            Entry::Failed {
                why: Why::Fault { .. },
                ..
            } => one_more(&mut met.faults),
            Entry::Failed {
                why: Why::Damage { .. },
                ..
            } => one_more(&mut met.damages),
            _ => {}
        }
    }
}

/// Whether the story is legal and whole, what is held stays, its faults fit the depot's counts, and its loads are paid
/// for.
fn is_good(
    alloc: Global,
    s: &Setting,
    story: &[Entry],
    from: u64,
    to: u64,
) -> Result<bool, AllocError>
    requires { IsSmall s.now }
{
    let illegal = first_illegal(alloc, s, story)?;
    let is_whole = is_whole(alloc, s, story)?;
    let is_paid = is_paid(alloc, s, story)?;
    Ok(
        illegal.is_none()
            && is_whole
            && is_paid
            && is_undisturbed(s, story)
            && is_licensed(false, from, to, story),
    )
}

/// A depot that had 5 gets and 3 faults before. For one seed in three a get fails, and for one in three a piece is
/// spoilt.
fn depot_for<R: Abort>(rt: &R, alloc: Global, s: &Setting, seed: u64) -> Result<SpoiltDepot, Fail> {
    let fail_gets: &[u64] = if seed % 3 == 1 { &[12, 16] } else { &[] };
    let spoilt = if seed % 3 == 2 { 3 } else { NO_PIECE };
    let mut depot = depot(rt, alloc, s, fail_gets, spoilt)?;
    depot.inner.gets = 5;
    depot.inner.faults = 3;
    Ok(depot)
}

/// Of how many steps a walk is.
const STEPS: u32 = 600;

/// One walk under the policy of the setting.
fn walked<R: Abort>(rt: &R, alloc: Global, s: &Setting, seed: u64) -> Result<Option<Walked>, Fail> {
    let depot = depot_for(rt, alloc, s, seed)?;
    let walked = match s.policy {
        PolicyName::Relevance => walk(alloc, s, Relevance, depot, seed, STEPS),
        PolicyName::Elevator => walk(alloc, s, Elevator::new(), depot, seed, STEPS),
        PolicyName::Normal => walk(alloc, s, Normal::new(), depot, seed, STEPS),
        PolicyName::Attach => walk(alloc, s, Attach::new(), depot, seed, STEPS),
    };
    Ok(walked?)
}

/// One walk is as it should be; what it met is counted.
fn expect_walk<R: Abort>(
    rt: &R,
    alloc: Global,
    s: &Setting,
    seed: u64,
    met: &mut Met,
) -> Result<(), Fail>
    requires { IsSmall s.now }
{
    let Some(walked) = walked(rt, alloc, s, seed)? else {
        panic!(rt; "a load is left, seed {seed}")
    };
    expect_walked(rt, alloc, s, &walked)?;
    count(met, &walked.story);
    Ok(())
}

/// The story is good, each answer is the right one, and the depot counts the reads of the story.
fn expect_walked<R: Abort>(rt: &R, alloc: Global, s: &Setting, walked: &Walked) -> Result<(), Fail>
    requires { IsSmall s.now }
{
    let story = walked.story.as_slice();
    let depot = &walked.depot.inner;
    let is_good = is_good(alloc, s, story, 3, depot.faults)?;
    assert!(rt;
        is_good && depot.gets == reads(story).saturating_add(5),
        "{story:?}"
    );
    expect_answers(rt, alloc, s, story, &walked.said)
}

/// Walks over so many chunks, by so many workers, with so many pieces a chunk, and how many.
type Walks = (u32, u32, u32, u64);

/// The walks of each seed; what they met is counted.
fn expect_seeds<R: Abort>(
    rt: &R,
    alloc: Global,
    policy: PolicyName,
    walks: &Walks,
    met: &mut Met,
) -> Result<(), Fail> {
    let (chunks, workers, groups, seeds) = *walks;
    assert!(rt; workers > 0 && workers <= 32 && groups > 0 && groups <= 16);
    for seed in 0..seeds {
        let mut rng = Pcg32::new(seed, 7);
        let s = some_setting(alloc, policy, chunks, workers, groups, &mut rng)?;
        expect_walk(rt, alloc, &s, seed, met)?;
    }
    Ok(())
}

/// What the walks under the policy met: each way in which a query ends, at least.
fn expect_ends<R: Abort>(
    rt: &R,
    alloc: Global,
    policy: PolicyName,
    walks: &[Walks],
) -> Result<Met, Fail> {
    let mut met = Met {
        entries: 0,
        evictions: 0,
        stops: 0,
        faults: 0,
        damages: 0,
        ends: 0,
    };
    for one in walks {
        expect_seeds(rt, alloc, policy, one, &mut met)?;
    }
    assert!(rt;
        met.faults > 0 && met.damages > 0 && met.stops > 0 && met.ends > 0,
        "{met:?}"
    );
    Ok(met)
}

/// They also met evictions, and enough entries.
fn expect_walks<R: Abort>(
    rt: &R,
    alloc: Global,
    policy: PolicyName,
    walks: &[Walks],
) -> Result<(), Fail> {
    let met = expect_ends(rt, alloc, policy, walks)?;
    assert!(rt; met.evictions > 0 && met.entries > 150, "{met:?}");
    Ok(())
}

#[test]
fn walks_over_rows(rt: HostRuntime) -> Result<(), Fail> {
    expect_walks(
        &rt,
        rt.alloc(),
        PolicyName::Relevance,
        &[(7, 1, 1, 6), (9, 2, 1, 4), (12, 3, 1, 3)],
    )?;
    for policy in POLICIES {
        expect_walks(&rt, rt.alloc(), policy, &[(7, 1, 1, 3), (9, 2, 1, 3)])?;
    }
    Ok(())
}

#[test]
fn walks_over_columns(rt: HostRuntime) -> Result<(), Fail> {
    for policy in POLICIES {
        expect_walks(&rt, rt.alloc(), policy, &[(6, 1, 2, 4), (9, 2, 2, 3)])?;
    }
    Ok(())
}

// Of a chunk of 16 pieces: the judge takes long for more of them, so nothing is evicted.
#[test]
fn walks_over_16_columns(rt: HostRuntime) -> Result<(), Fail> {
    for policy in POLICIES {
        expect_ends(&rt, rt.alloc(), policy, &[(1, 1, 16, 3)])?;
    }
    Ok(())
}
