//! What a policy picks along a story.
ghost use Rattle.scan_story.specs.Views.{past};
ghost use Rattle.help_views.specs.Small.{IsSmall};
ghost use Rattle.interest_book.specs.Stands.{Stands};

use help_book::{book_of, delivery, load, note_next, victim};
use interest_book::{Book, Memory};
use relevance::Policy;
use scan_story::{Entry, Setting};
use std::alloc::Global;

/// Whether the policy, asked after the entries, picks this query and this chunk for a load.
fn picks_load<P: Policy>(
    policy: &mut P,
    s: &Setting,
    entries: &[Entry],
    book: &Book,
    query: u32,
    chunk: u32,
) -> bool
    requires { Stands book.now s.now (past entries.now) }
{
    let trigger = policy.pick_query(book);
    let target = load(policy, s, entries, book, query);
    trigger == Some(query) && target == Some(chunk)
}

/// Whether the policy, asked after the entries, picks what the entry takes. Its cursor moves on.
pub fn takes<P: Policy>(
    alloc: Global,
    policy: &mut P,
    s: &Setting,
    entries: &[Entry],
    book: &Book,
    entry: &Entry,
) -> Result<bool, Memory>
    requires small { IsSmall s.now }
    requires stands { Stands book.now s.now (past entries.now) }
{
    match *entry {
        Entry::Plan { query, chunk, .. } => {
            Ok(picks_load(policy, s, entries, book, query, chunk))
        }
        Entry::Deliver { query, chunk, .. } => {
            Ok(delivery(policy, s, entries, book, query) == Some(chunk))
        }
        Entry::Evict { chunk, .. } => {
            let picked = victim(alloc, policy, s, entries, book)?;
            Ok(picked == Some(chunk))
        }
        _ => Ok(true),
    }
}

/// The place of the first entry that takes something else than the policy picks there, or that may not come there.
pub fn first_other<P: Policy>(
    alloc: Global,
    policy: &mut P,
    s: &Setting,
    entries: &[Entry],
) -> Result<Option<usize>, Memory>
    requires { IsSmall s.now }
{
    let Some(mut book) = book_of(alloc, s)? else {
        return Ok(Some(0));
    };
    for i in 0..entries.len() {
        if !takes(alloc, policy, s, &entries[..i], &book, &entries[i])? {
            return Ok(Some(i));
        }
        if !note_next(alloc, s, entries, i, &mut book)? {
            return Ok(Some(i));
        }
    }
    Ok(None)
}
