//! The book beside the judge along stories, and its ranks, ratios and picks.
ghost use Rattle.std.specs.Prelude.{◌≤◌, ◌<◌, IfOk};
ghost use Rattle.help_views.specs.Small.{IsSmall};

use help_book::{Trial, agrees, delivery, load, played, try_story, victim};
use help_judge::first_illegal;
use help_stories::stories::TWO_LOADED;
use help_stories::{
    COUNTS, POLICIES, Printed, SIX, SIX_ATTACH, Scene, TO_EVICT, TURNS, TWO_TO_DELIVER, entries_of,
    need, setting,
};
use help_walks::{some_setting, walk};
use interest_book::{Book, Memory};
use rand_pcg::Pcg32;
use relevance::{Ratio, Relevance, keep_ratio, load_ratio, query_rank, use_ratio};
use scan_story::{Entry, PolicyName, Setting};
use std::alloc::{AllocError, Global};
use std::process::Abort;
use std::test::Fail;

/// How many walks there are of a kind, and of how many steps.
const WALKS: u64 = 2;

const STEPS: u32 = 40;

/// A setting of three chunks and four frames, in which these are the chunks of the first query.
fn with_first(alloc: Global, workers: u32, chunks: &[u32]) -> Result<Setting, AllocError>
    ensures { IfOk result IsSmall }
{
    let first = need(alloc, 1, 0, chunks, &[])?;
    let second = need(alloc, 2, 0, &[2], &[])?;
    setting(
        alloc,
        PolicyName::Relevance,
        [3, workers, 4],
        1,
        first,
        Some(second),
    )
}

/// Whether the book agrees with the judge after each entry.
fn is_followed(alloc: Global, printed: &Printed) -> Result<bool, Fail> {
    let s = printed.setting(alloc)?;
    let entries = printed.entries(alloc)?;
    Ok(try_story(alloc, &s, &entries)? == Trial::Agrees)
}

fn expect_followed<R: Abort>(rt: &R, alloc: Global, stories: &[Printed]) -> Result<(), Fail> {
    for printed in stories {
        assert!(rt; is_followed(alloc, printed)?, "{printed:?}");
    }
    Ok(())
}

#[test]
fn the_book_agrees_with_the_judge_after_each_entry(rt: HostRuntime) -> Result<(), Fail> {
    let alloc = rt.alloc();
    expect_followed(&rt, alloc, &COUNTS)?;
    expect_followed(&rt, alloc, &TURNS)?;
    expect_followed(&rt, alloc, &[TWO_TO_DELIVER, TO_EVICT])?;
    // so it does under each policy
    expect_followed(&rt, alloc, &SIX)
}

/// Whether the book agrees with the judge after each entry of a walk.
fn is_walk_followed(
    alloc: Global,
    policy: PolicyName,
    seed: u64,
    workers: u32,
    groups: u32,
) -> Result<bool, Fail>
    requires workers { (0 < workers) × (workers ≤ 32) }
    requires groups { (0 < groups) × (groups ≤ 16) }
{
    let mut rng = Pcg32::new(seed, 11);
    let s = some_setting(alloc, policy, 5, workers, groups, &mut rng)?;
    let story = walk(alloc, &s, seed, STEPS)?;
    Ok(try_story(alloc, &s, &story)? == Trial::Agrees)
}

/// Walks at random under each policy, with so many workers and so many pieces a chunk: the book, which knows no
/// policy, has each number as the judge has it.
fn expect_walks<R: Abort>(rt: &R, alloc: Global, workers: u32, groups: u32) -> Result<(), Fail>
    requires workers { (0 < workers) × (workers ≤ 32) }
    requires groups { (0 < groups) × (groups ≤ 16) }
{
    for policy in POLICIES {
        for seed in 0..WALKS {
            let agrees = is_walk_followed(alloc, policy, seed, workers, groups)?;
            assert!(rt; agrees, "seed {seed}");
        }
    }
    Ok(())
}

#[test]
fn walks_over_rows(rt: HostRuntime) -> Result<(), Fail> {
    expect_walks(&rt, rt.alloc(), 1, 1)?;
    expect_walks(&rt, rt.alloc(), 2, 1)
}

#[test]
fn walks_over_columns(rt: HostRuntime) -> Result<(), Fail> {
    expect_walks(&rt, rt.alloc(), 1, 2)?;
    expect_walks(&rt, rt.alloc(), 2, 3)
}

/// Whether no book can be made for a setting of three chunks, with these of the first query.
fn is_unfit(alloc: Global, workers: u32, chunks: &[u32]) -> Result<bool, Fail> {
    let s = with_first(alloc, workers, chunks)?;
    let [one_count, _fault] = COUNTS;
    let entries = one_count.entries(alloc)?;
    Ok(try_story(alloc, &s, &entries)? == Trial::Unfit)
}

/// The story of attach, under elevator.
fn tried_under_elevator(alloc: Global) -> Result<Trial, Fail> {
    let s = Scene::SixChunks.setting(alloc, PolicyName::Elevator)?;
    let entries = SIX_ATTACH.entries(alloc)?;
    Ok(try_story(alloc, &s, &entries)?)
}

/// Workers and chunks: chunks that fall, a chunk that the table lacks, no worker.
const UNFIT: [(u32, &[u32]); 3] = [(1, &[1, 0]), (1, &[0, 3]), (0, &[0])];

#[test]
fn what_no_book_can_follow_is_told(rt: HostRuntime) -> Result<(), Fail> {
    for (workers, chunks) in UNFIT {
        assert!(rt; is_unfit(rt.alloc(), workers, chunks)?, "{workers}");
    }
    assert!(rt; tried_under_elevator(rt.alloc())? == Trial::Illegal(35));
    Ok(())
}

const fn ratio(num: u32, den: u32) -> Ratio {
    Ratio { num, den }
}

/// A scene, entries, the ranks of both queries, and the ratios of loads, each with its query and its chunk.
type Ranked = (Scene, &'static str, [i64; 2], &'static [(u32, u32, Ratio)]);

const REGISTERS: &str = "register 0 1\nregister 1 2\n";

const RANKED: [Ranked; 3] = [
    (
        Scene::Shorter,
        REGISTERS,
        [-5, -2],
        &[
            (1, 0, Ratio { num: 1025, den: 1 }),
            (1, 1, Ratio { num: 1025, den: 1 }),
            (1, 2, Ratio { num: 2050, den: 1 }),
        ],
    ),
    (
        Scene::Columns,
        REGISTERS,
        [-3, -4],
        &[
            (1, 0, Ratio { num: 1025, den: 1 }),
            (1, 1, Ratio { num: 2050, den: 1 }),
            (2, 1, Ratio { num: 2050, den: 2 }),
            (2, 2, Ratio { num: 1025, den: 2 }),
        ],
    ),
    // worker 0 has taken chunk 1
    (
        Scene::Columns,
        "register 0 1\nregister 1 2\nplan 0 1 1\nfill 0 0 2\nfilled 0 0 2\ndeliver 0 1 1\n",
        [-2, 0],
        &[],
    ),
];

fn has_ranks(book: &Book, ranks: [i64; 2], ratios: &[(u32, u32, Ratio)]) -> bool {
    [query_rank(book, 1), query_rank(book, 2)] == ranks
        && ratios.iter().all(|(q, c, ratio)| *q <= 256
            && *c < 1024
            && load_ratio(book, *q, *c) == *ratio)
}

fn is_ranked(alloc: Global, ranked: &Ranked) -> Result<bool, Fail> {
    let (scene, text, ranks, ratios) = *ranked;
    let s = scene.setting(alloc, PolicyName::Relevance)?;
    let entries = entries_of(alloc, text)?;
    match played(alloc, &s, &entries)? {
        Some(book) => Ok(has_ranks(&book, ranks, ratios)),
        None => Ok(false),
    }
}

/// The chunk that is loaded for query 1 once both are registered.
fn first_load(alloc: Global) -> Result<Option<u32>, Fail> {
    let s = Scene::Shorter.setting(alloc, PolicyName::Relevance)?;
    let entries = entries_of(alloc, REGISTERS)?;
    match played(alloc, &s, &entries)? {
        Some(book) => Ok(load(&mut Relevance, &s, &entries, &book, 1)),
        None => Ok(None),
    }
}

#[test]
fn ranks_and_load_ratios(rt: HostRuntime) -> Result<(), Fail> {
    for ranked in RANKED {
        assert!(rt; is_ranked(rt.alloc(), &ranked)?, "{ranked:?}");
    }
    assert!(rt; first_load(rt.alloc())? == Some(2));
    Ok(())
}

/// Both queries register first, then query 1 gets chunks 0 and 2, and last it takes the one that is picked. Relevance
/// would load another chunk first, but the book follows whatever may follow.
const NINE: &str = "register 0 1
register 1 2
plan 0 1 0
fill 0 0 0
filled 0 0 0
plan 0 1 2
fill 0 1 2
filled 0 1 2
deliver 0 1 0
";

/// Whether chunk 0, which nobody else needs, is picked before chunk 2.
fn is_preferred(alloc: Global, s: &Setting, loaded: &[Entry]) -> Result<bool, Memory>
    requires { IsSmall s.now }
{
    let Some(book) = played(alloc, s, loaded)? else {
        return Ok(false);
    };
    let taken = delivery(&mut Relevance, s, loaded, &book, 1);
    Ok(
        taken == Some(0)
            && use_ratio(&book, 1, 0) == ratio(1, 1)
            && use_ratio(&book, 1, 2) == ratio(1, 2),
    )
}

/// Whether the book follows the story, which is illegal from this place on.
fn is_followed_to(
    alloc: Global,
    s: &Setting,
    entries: &[Entry],
    illegal: Option<usize>,
) -> Result<bool, Memory>
    requires { IsSmall s.now }
{
    let Some(book) = played(alloc, s, entries)? else {
        return Ok(false);
    };
    let agrees = agrees(alloc, s, entries, &book)?;
    let first = first_illegal(alloc, s, entries)?;
    Ok(agrees && first == illegal)
}

#[test]
fn a_delivery_prefers_what_nobody_else_needs(rt: HostRuntime) -> Result<(), Fail> {
    let alloc = rt.alloc();
    let s = Scene::Shorter.setting(alloc, PolicyName::Relevance)?;
    for (text, illegal) in [(TWO_LOADED, None), (NINE, Some(2))] {
        let entries = entries_of(alloc, text)?;
        let loaded = &entries[..entries.len().min(8)];
        assert!(rt; is_preferred(alloc, &s, loaded)?, "{text}");
        assert!(rt; is_followed_to(alloc, &s, &entries, illegal)?, "{text}");
    }
    Ok(())
}

/// The ratios of the chunks in the frames.
const KEPT: [(u32, Ratio); 7] = [
    (0, Ratio { num: 1, den: 1 }),
    (1, Ratio { num: 1, den: 1 }),
    (2, Ratio { num: 1, den: 1 }),
    (3, Ratio { num: 0, den: 1 }),
    (4, Ratio { num: 0, den: 1 }),
    (5, Ratio { num: 0, den: 1 }),
    (6, Ratio { num: 1025, den: 1 }),
];

fn has_victims(book: &Book) -> bool {
    book.is_held(5)
        && !book.is_victim(5)
        && KEPT
            .iter()
            .all(|(c, ratio)| *c < 1024 && keep_ratio(book, *c) == *ratio)
}

/// The chunk that is chosen, where the ratios are these and chunk 5 is held.
fn chosen_victim(alloc: Global, s: &Setting, entries: &[Entry]) -> Result<Option<u32>, Memory>
    requires { IsSmall s.now }
{
    match played(alloc, s, entries)? {
        Some(book) if has_victims(&book) => victim(alloc, &mut Relevance, s, entries, &book),
        _ => Ok(None),
    }
}

#[test]
fn the_victim_that_nobody_needs(rt: HostRuntime) -> Result<(), Fail> {
    let alloc = rt.alloc();
    let s = TO_EVICT.setting(alloc)?;
    let entries = TO_EVICT.entries(alloc)?;
    // of the equal ones 3 and 4 the least
    assert!(rt; chosen_victim(alloc, &s, &entries)? == Some(3));
    Ok(())
}
