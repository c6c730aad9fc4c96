ghost use Rattle.std.specs.Prelude.{◌≡◌, ◌+◌, ◌*◌, ◌<◌, ◌≤◌, ◌&&◌, ℕ, not, nat_le, nat_lt, length};
ghost use Rattle.std.specs.List.{list_any};
ghost use Rattle.scan_story.specs.Counting.{any_below};
ghost use Rattle.scan_story.specs.Views.{past};
ghost use Rattle.scan_story.specs.Loads.{underway};
ghost use Rattle.scan_story.specs.Numbers.{waiting, running, needed, interested, close};
ghost use Rattle.scan_story.specs.Numbers.{cached, missing_for, overlap, starved_overlap};
ghost use Rattle.scan_story.specs.MayFollow.{is_target, is_ready, is_trigger, is_victim};
ghost use Rattle.scan_story.specs.Policies.{dist_from, dist, reach, place_in, start_of, is_least_close};
ghost use Rattle.help_views.specs.Small.{IsSmall};
ghost use Rattle.help_judge.specs.Tests.{query_at_most, load_at_most, delivery_at_most, victim_at_most, is_victim_of};
ghost use Rattle.help_judge.specs.Tests.{is_best_query, is_best_load, is_best_delivery, is_best_victim, chooses};

use help_views::{
    at, cached, close, interested, is_ready, is_target, is_trigger, is_victim, missing_for, needed,
    overlap, running, starved_overlap, waiting,
};
use scan_story::{Entry, Load, PolicyName, Setting};

/// A product, with room for one more number beside it.
fn times(a: u64, b: u64) -> u128
    ensures value { result ≡ a * b }
    ensures bound { result ≤ 340282366920938463426481119284349108225 }
{
    a as u128 * b as u128
}

fn ratio_at_most(a: (u64, u64), b: (u64, u64)) -> bool
    ensures { result ≡ nat_le (a.0 * b.1) (b.0 * a.1) }
{
    times(a.0, b.1) <= times(b.0, a.1)
}

fn load_ratio(s: &Setting, entries: &[Entry], q: u32, c: u32) -> (u64, u64)
    requires { IsSmall s.now }
    ensures num { result.0 ≡ 1024 * starved_overlap s.now (past entries.now) q c + overlap s.now (past entries.now) q
        c }
    ensures den { result.1 ≡ missing_for s.now (past entries.now) q c }
{
    let num = 1024 * starved_overlap(s, entries, q, c) as u64 + overlap(s, entries, q, c) as u64;
    (num, missing_for(s, entries, q, c) as u64)
}

fn use_ratio(s: &Setting, entries: &[Entry], q: u32, c: u32) -> (u64, u64)
    requires { IsSmall s.now }
    ensures num { result.0 ≡ cached s.now (past entries.now) c }
    ensures den { result.1 ≡ overlap s.now (past entries.now) q c }
{
    (
        cached(s, entries, c) as u64,
        overlap(s, entries, q, c) as u64,
    )
}

fn keep_ratio(s: &Setting, entries: &[Entry], c: u32) -> (u64, u64)
    requires { IsSmall s.now }
    ensures num { result.0 ≡ 1024 * close s.now (past entries.now) c + interested s.now (past entries.now) c }
    ensures den { result.1 ≡ cached s.now (past entries.now) c }
{
    let num = 1024 * close(s, entries, c) as u64 + interested(s, entries, c) as u64;
    (num, cached(s, entries, c) as u64)
}

fn dist_from(s: &Setting, start: u64, c: u32) -> u64
    requires { 0 < s.now.chunks }
    ensures { result ≡ dist_from s.now start c }
{
    let chunks = s.chunks as u64;
    (c as u64 + chunks - start % chunks) % chunks
}

fn dist(s: &Setting, cursor: &[u64], c: u32) -> u64
    requires { 0 < s.now.chunks }
    ensures { result ≡ dist s.now cursor.now c }
{
    dist_from(s, at(cursor, 0), c)
}

#[tactic(auto, using(help_views::proofs::Below::least_below_more))]
fn reach(s: &Setting, entries: &[Entry], cursor: &[u64], q: u32) -> u64
    requires { IsSmall s.now }
    ensures { result ≡ reach s.now (past entries.now) cursor.now q }
{
    let mut least = s.chunks as u64;
    for c in 0..s.chunks {
        if is_target(s, entries, q, c) {
            least = dist(s, cursor, c).min(least);
        }
    }
    least
}

fn place_in(cursor: &[u64], c: u32) -> u64
    ensures value { result ≡ place_in cursor.now c }
    ensures bound { result ≤ length cursor.now }
{
    match cursor {
        [] => 0,
        [first, rest @ ..] => {
            if *first == c as u64 {
                return 1;
            }
            let place = place_in(rest, c);
            if place == 0 { 0 } else { place + 1 }
        }
    }
}

fn start_of(cursor: &[u64], q: u32) -> u64
    ensures { result ≡ start_of cursor.now q }
{
    let place = at(cursor, q);
    if place == 0 { at(cursor, 0) } else { place - 1 }
}

/// How far x has waited, with what is taken off the other's rank.
fn rank_beside(s: &Setting, entries: &[Entry], x: u32, other: u32) -> u128
    requires { IsSmall s.now }
    ensures { result ≡ waiting s.now (past entries.now) x + running s.now (past entries.now) * needed s.now
        (past entries.now) other }
{
    waiting(s, entries, x) as u128
        + times(running(s, entries) as u64, needed(s, entries, other) as u64)
}

fn query_at_most(s: &Setting, entries: &[Entry], cursor: &[u64], a: u32, b: u32) -> bool
    requires { IsSmall s.now }
    ensures { result ≡ query_at_most s.now.policy cursor.now s.now (past entries.now) a b }
{
    match s.policy {
        PolicyName::Relevance => rank_beside(s, entries, a, b) <= rank_beside(s, entries, b, a),
        PolicyName::Elevator => reach(s, entries, cursor, b) <= reach(s, entries, cursor, a),
        PolicyName::Normal => waiting(s, entries, a) <= waiting(s, entries, b),
        PolicyName::Attach => waiting(s, entries, a) <= waiting(s, entries, b),
    }
}

fn load_at_most(s: &Setting, entries: &[Entry], cursor: &[u64], q: u32, a: u32, b: u32) -> bool
    requires small { IsSmall s.now }
    requires some { 0 < s.now.chunks }
    ensures { result ≡ load_at_most s.now.policy cursor.now s.now (past entries.now) q a b }
{
    match s.policy {
        PolicyName::Relevance => ratio_at_most(
            load_ratio(s, entries, q, a),
            load_ratio(s, entries, q, b),
        ),
        PolicyName::Elevator => dist(s, cursor, b) <= dist(s, cursor, a),
        PolicyName::Normal => b <= a,
        PolicyName::Attach => dist_from(s, start_of(cursor, q), b)
            <= dist_from(s, start_of(cursor, q), a),
    }
}

fn delivery_at_most(s: &Setting, entries: &[Entry], cursor: &[u64], q: u32, a: u32, b: u32) -> bool
    requires small { IsSmall s.now }
    requires some { 0 < s.now.chunks }
    ensures { result ≡ delivery_at_most s.now.policy cursor.now s.now (past entries.now) q a b }
{
    match s.policy {
        PolicyName::Relevance => ratio_at_most(
            use_ratio(s, entries, q, a),
            use_ratio(s, entries, q, b),
        ),
        PolicyName::Elevator => dist(s, cursor, b) <= dist(s, cursor, a),
        PolicyName::Normal => b <= a,
        PolicyName::Attach => dist_from(s, start_of(cursor, q), b)
            <= dist_from(s, start_of(cursor, q), a),
    }
}

fn victim_at_most(s: &Setting, entries: &[Entry], cursor: &[u64], a: u32, b: u32) -> bool
    requires small { IsSmall s.now }
    requires some { 0 < s.now.chunks }
    ensures { result ≡ victim_at_most s.now.policy cursor.now s.now (past entries.now) a b }
{
    match s.policy {
        PolicyName::Relevance => ratio_at_most(
            keep_ratio(s, entries, b),
            keep_ratio(s, entries, a),
        ),
        PolicyName::Elevator => dist(s, cursor, b) <= dist(s, cursor, a),
        PolicyName::Normal => place_in(cursor, b) <= place_in(cursor, a),
        PolicyName::Attach => interested(s, entries, b) <= interested(s, entries, a),
    }
}

fn is_closer(s: &Setting, entries: &[Entry], load: &Option<Load>, y: u32, c: u32) -> bool
    requires small { IsSmall s.now }
    requires load { load.now ≡ underway s.now (past entries.now) }
    ensures { result ≡ (is_victim s.now (past entries.now) y && nat_lt (close s.now (past entries.now) y)
        (close s.now (past entries.now) c)) }
{
    is_victim(s, entries, load, y) && close(s, entries, y) < close(s, entries, c)
}

#[tactic(auto, using(help_views::proofs::Below::any_below_more))]
fn has_closer(s: &Setting, entries: &[Entry], load: &Option<Load>, c: u32) -> bool
    requires small { IsSmall s.now }
    requires load { load.now ≡ underway s.now (past entries.now) }
    ensures { result ≡ any_below (λ y. is_victim s.now (past entries.now) y && nat_lt
        (close s.now (past entries.now) y) (close s.now (past entries.now) c)) s.now.chunks }
{
    let mut found = false;
    for y in 0..s.chunks {
        found = is_closer(s, entries, load, y, c) || found;
    }
    found
}

fn is_least_close(s: &Setting, entries: &[Entry], load: &Option<Load>, c: u32) -> bool
    requires small { IsSmall s.now }
    requires load { load.now ≡ underway s.now (past entries.now) }
    ensures { result ≡ is_least_close s.now (past entries.now) c }
{
    is_victim(s, entries, load, c) && !has_closer(s, entries, load, c)
}

fn is_victim_of(s: &Setting, entries: &[Entry], load: &Option<Load>, c: u32) -> bool
    requires small { IsSmall s.now }
    requires load { load.now ≡ underway s.now (past entries.now) }
    ensures { result ≡ is_victim_of s.now.policy s.now (past entries.now) c }
{
    match s.policy {
        PolicyName::Relevance => is_victim(s, entries, load, c),
        PolicyName::Elevator => is_least_close(s, entries, load, c),
        PolicyName::Normal => is_least_close(s, entries, load, c),
        PolicyName::Attach => is_least_close(s, entries, load, c),
    }
}

fn beats_query(
    s: &Setting,
    entries: &[Entry],
    load: &Option<Load>,
    cursor: &[u64],
    r: u32,
    q: u32,
) -> bool
    requires small { IsSmall s.now }
    requires load { load.now ≡ underway s.now (past entries.now) }
    ensures { result ≡ (is_trigger s.now (past entries.now) r && not
        (query_at_most s.now.policy cursor.now s.now (past entries.now) r q)) }
{
    is_trigger(s, entries, load, r) && !query_at_most(s, entries, cursor, r, q)
}

fn has_better_query(
    s: &Setting,
    entries: &[Entry],
    load: &Option<Load>,
    cursor: &[u64],
    q: u32,
) -> bool
    requires small { IsSmall s.now }
    requires load { load.now ≡ underway s.now (past entries.now) }
    ensures { result ≡ list_any (λ n. is_trigger s.now (past entries.now) n.query && not
        (query_at_most s.now.policy cursor.now s.now (past entries.now) n.query q)) s.now.needs }
{
    s.needs
        .iter()
        .any(|n| beats_query(s, entries, load, cursor, n.query, q))
}

fn is_best_query(
    s: &Setting,
    entries: &[Entry],
    load: &Option<Load>,
    cursor: &[u64],
    q: u32,
) -> bool
    requires small { IsSmall s.now }
    requires load { load.now ≡ underway s.now (past entries.now) }
    ensures { result ≡ is_best_query cursor.now s.now (past entries.now) q }
{
    is_trigger(s, entries, load, q) && !has_better_query(s, entries, load, cursor, q)
}

fn beats_load(s: &Setting, entries: &[Entry], cursor: &[u64], q: u32, y: u32, c: u32) -> bool
    requires small { IsSmall s.now }
    requires some { 0 < s.now.chunks }
    ensures { result ≡ (is_target s.now (past entries.now) q y && not
        (load_at_most s.now.policy cursor.now s.now (past entries.now) q y c)) }
{
    is_target(s, entries, q, y) && !load_at_most(s, entries, cursor, q, y, c)
}

#[tactic(auto, using(help_views::proofs::Below::any_below_more))]
fn has_better_load(s: &Setting, entries: &[Entry], cursor: &[u64], q: u32, c: u32) -> bool
    requires { IsSmall s.now }
    ensures { result ≡ any_below (λ y. is_target s.now (past entries.now) q y && not
        (load_at_most s.now.policy cursor.now s.now (past entries.now) q y c)) s.now.chunks }
{
    let mut found = false;
    for y in 0..s.chunks {
        found = beats_load(s, entries, cursor, q, y, c) || found;
    }
    found
}

fn is_best_load(s: &Setting, entries: &[Entry], cursor: &[u64], q: u32, c: u32) -> bool
    requires { IsSmall s.now }
    ensures { result ≡ is_best_load cursor.now s.now (past entries.now) q c }
{
    is_target(s, entries, q, c) && !has_better_load(s, entries, cursor, q, c)
}

fn beats_delivery(s: &Setting, entries: &[Entry], cursor: &[u64], q: u32, y: u32, c: u32) -> bool
    requires small { IsSmall s.now }
    requires some { 0 < s.now.chunks }
    ensures { result ≡ (is_ready s.now (past entries.now) q y && not
        (delivery_at_most s.now.policy cursor.now s.now (past entries.now) q y c)) }
{
    is_ready(s, entries, q, y) && !delivery_at_most(s, entries, cursor, q, y, c)
}

#[tactic(auto, using(help_views::proofs::Below::any_below_more))]
fn has_better_delivery(s: &Setting, entries: &[Entry], cursor: &[u64], q: u32, c: u32) -> bool
    requires { IsSmall s.now }
    ensures { result ≡ any_below (λ y. is_ready s.now (past entries.now) q y && not
        (delivery_at_most s.now.policy cursor.now s.now (past entries.now) q y c)) s.now.chunks }
{
    let mut found = false;
    for y in 0..s.chunks {
        found = beats_delivery(s, entries, cursor, q, y, c) || found;
    }
    found
}

fn is_best_delivery(s: &Setting, entries: &[Entry], cursor: &[u64], q: u32, c: u32) -> bool
    requires { IsSmall s.now }
    ensures { result ≡ is_best_delivery cursor.now s.now (past entries.now) q c }
{
    is_ready(s, entries, q, c) && !has_better_delivery(s, entries, cursor, q, c)
}

fn beats_victim(
    s: &Setting,
    entries: &[Entry],
    load: &Option<Load>,
    cursor: &[u64],
    y: u32,
    c: u32,
) -> bool
    requires small { IsSmall s.now }
    requires load { load.now ≡ underway s.now (past entries.now) }
    requires some { 0 < s.now.chunks }
    ensures { result ≡ (is_victim_of s.now.policy s.now (past entries.now) y && not
        (victim_at_most s.now.policy cursor.now s.now (past entries.now) y c)) }
{
    is_victim_of(s, entries, load, y) && !victim_at_most(s, entries, cursor, y, c)
}

#[tactic(auto, using(help_views::proofs::Below::any_below_more))]
fn has_better_victim(
    s: &Setting,
    entries: &[Entry],
    load: &Option<Load>,
    cursor: &[u64],
    c: u32,
) -> bool
    requires small { IsSmall s.now }
    requires load { load.now ≡ underway s.now (past entries.now) }
    ensures { result ≡ any_below (λ y. is_victim_of s.now.policy s.now (past entries.now) y && not
        (victim_at_most s.now.policy cursor.now s.now (past entries.now) y c)) s.now.chunks }
{
    let mut found = false;
    for y in 0..s.chunks {
        found = beats_victim(s, entries, load, cursor, y, c) || found;
    }
    found
}

fn is_best_victim(
    s: &Setting,
    entries: &[Entry],
    load: &Option<Load>,
    cursor: &[u64],
    c: u32,
) -> bool
    requires small { IsSmall s.now }
    requires load { load.now ≡ underway s.now (past entries.now) }
    ensures { result ≡ is_best_victim cursor.now s.now (past entries.now) c }
{
    is_victim_of(s, entries, load, c) && !has_better_victim(s, entries, load, cursor, c)
}

fn chooses_plan(
    s: &Setting,
    entries: &[Entry],
    load: &Option<Load>,
    cursor: &[u64],
    q: u32,
    c: u32,
) -> bool
    requires small { IsSmall s.now }
    requires load { load.now ≡ underway s.now (past entries.now) }
    ensures { result ≡ (is_best_query cursor.now s.now (past entries.now) q && is_best_load cursor.now s.now
        (past entries.now) q c) }
{
    is_best_query(s, entries, load, cursor, q) && is_best_load(s, entries, cursor, q, c)
}

/// Whether what the entry takes is a choice of the policy, at the cursor that is given.
pub fn chooses(
    s: &Setting,
    entries: &[Entry],
    load: &Option<Load>,
    cursor: &[u64],
    entry: &Entry,
) -> bool
    requires small { IsSmall s.now }
    requires load { load.now ≡ underway s.now (past entries.now) }
    ensures { result ≡ chooses cursor.now s.now (past entries.now) entry.now }
{
    match *entry {
        Entry::Plan { query, chunk, .. } => chooses_plan(s, entries, load, cursor, query, chunk),
        Entry::Deliver { query, chunk, .. } => is_best_delivery(s, entries, cursor, query, chunk),
        Entry::Evict { chunk, .. } => is_best_victim(s, entries, load, cursor, chunk),
        _ => true,
    }
}
