//! What a policy picks from a book of a list.
ghost use Rattle.std.specs.Prelude.{◌≡◌, IfOk};
ghost use Rattle.scan_story.specs.Views.{past};
ghost use Rattle.scan_story.specs.Loads as loads;
ghost use Rattle.help_views.specs.Small.{IsSmall};
ghost use Rattle.interest_book.specs.Stands.{Stands};
ghost use Rattle.help_book.specs.Begun.{begins_some};

use help_views::{is_active, underway};
use interest_book::{Book, Memory};
use relevance::Policy;
use scan_story::{Entry, Load, Setting};
use std::alloc::Global;

/// The chunk to deliver to the query, where it is active and one is available.
pub fn delivery<P: Policy>(
    policy: &mut P,
    s: &Setting,
    entries: &[Entry],
    book: &Book,
    q: u32,
) -> Option<u32>
    requires { Stands book.now s.now (past entries.now) }
{
    if !is_active(entries, q) {
        return None;
    }
    policy.pick_delivery(book, q)
}

/// The chunk to load for the query, where it is active and one is to be loaded.
pub fn load<P: Policy>(
    policy: &mut P,
    s: &Setting,
    entries: &[Entry],
    book: &Book,
    q: u32,
) -> Option<u32>
    requires { Stands book.now s.now (past entries.now) }
{
    if !is_active(entries, q) {
        return None;
    }
    policy.pick_load(book, q)
}

// Whether the load has begun a fill.
fn has_begun(load: &Option<Load>) -> bool
    ensures { result ≡ begins_some load.now }
{
    match load {
        Some(load) => load.begun.len() > 0,
        None => false,
    }
}

// Whether a fill is underway.
fn is_filling(alloc: Global, s: &Setting, entries: &[Entry]) -> Result<bool, Memory>
    requires { IsSmall s.now }
    ensures { IfOk result (λ b. b ≡ begins_some (loads.underway s.now (past entries.now))) }
{
    let load = underway(alloc, s, entries)?;
    Ok(has_begun(&load))
}

/// The chunk to evict, where no fill is underway and there is one.
pub fn victim<P: Policy>(
    alloc: Global,
    policy: &mut P,
    s: &Setting,
    entries: &[Entry],
    book: &Book,
) -> Result<Option<u32>, Memory>
    requires small { IsSmall s.now }
    requires stands { Stands book.now s.now (past entries.now) }
{
    let filling = is_filling(alloc, s, entries)?;
    if filling {
        return Ok(None);
    }
    Ok(policy.pick_victim(book))
}
