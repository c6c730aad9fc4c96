ghost use Rattle.std.specs.Prelude.{◌≡◌, ◌&&◌, ◌==◌, ℕ, not};
ghost use Rattle.std.specs.List.{list_any};
ghost use Rattle.scan_story.specs.Counting.{any_below};
ghost use Rattle.scan_story.specs.Views.{past, is_available, is_active};
ghost use Rattle.scan_story.specs.Loads.{underway};
ghost use Rattle.scan_story.specs.Numbers.{is_starved};
ghost use Rattle.scan_story.specs.MayFollow.{is_target, is_ready, is_trigger, feeds_starved, is_victim};
ghost use Rattle.help_views.specs.Small.{IsSmall};

use crate::loads::is_load_of;
use crate::needs::need_of;
use crate::numbers::{cached, is_starved};
use crate::views::{is_available, is_held, is_wholly_framed, needs_chunk};
use scan_story::{Entry, Load, Setting};

/// A chunk that the query needs and that isn't wholly in frames for it.
pub fn is_target(s: &Setting, entries: &[Entry], q: u32, c: u32) -> bool
    requires { IsSmall s.now }
    ensures { result ≡ is_target s.now (past entries.now) q c }
{
    c < s.chunks && needs_chunk(s, entries, q, c) && !is_wholly_framed(s, entries, q, c)
}

/// A chunk that is available to the query.
pub fn is_ready(s: &Setting, entries: &[Entry], q: u32, c: u32) -> bool
    requires { IsSmall s.now }
    ensures { result ≡ is_ready s.now (past entries.now) q c }
{
    c < s.chunks && is_available(s, entries, q, c)
}

#[tactic(auto, using(crate::proofs::Below::any_below_more))]
fn has_target(s: &Setting, entries: &[Entry], q: u32) -> bool
    requires { IsSmall s.now }
    ensures { result ≡ any_below (is_target s.now (past entries.now) q) s.now.chunks }
{
    let mut found = false;
    for c in 0..s.chunks {
        found = is_target(s, entries, q, c) || found;
    }
    found
}

/// A starved query with a chunk to load, while no plan is underway.
pub fn is_trigger(s: &Setting, entries: &[Entry], load: &Option<Load>, q: u32) -> bool
    requires small { IsSmall s.now }
    requires load { load.now ≡ underway s.now (past entries.now) }
    ensures { result ≡ is_trigger s.now (past entries.now) q }
{
    need_of(s, q).is_some()
        && load.is_none()
        && is_starved(s, entries, q)
        && has_target(s, entries, q)
}

fn feeds(s: &Setting, entries: &[Entry], q: u32, c: u32) -> bool
    requires { IsSmall s.now }
    ensures { result ≡ (is_starved s.now (past entries.now) q && is_available s.now (past entries.now) q c) }
{
    is_starved(s, entries, q) && is_available(s, entries, q, c)
}

fn feeds_starved(s: &Setting, entries: &[Entry], c: u32) -> bool
    requires { IsSmall s.now }
    ensures { result ≡ feeds_starved s.now (past entries.now) c }
{
    s.needs.iter().any(|n| feeds(s, entries, n.query, c))
}

/// A chunk that may be evicted, whoever's load it is for.
pub fn is_victim(s: &Setting, entries: &[Entry], load: &Option<Load>, c: u32) -> bool
    requires small { IsSmall s.now }
    requires load { load.now ≡ underway s.now (past entries.now) }
    ensures { result ≡ is_victim s.now (past entries.now) c }
{
    c < s.chunks
        && 0 < cached(s, entries, c)
        && !is_load_of(c, load)
        && !is_held(s, entries, c)
        && !feeds_starved(s, entries, c)
}
