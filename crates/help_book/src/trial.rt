//! Stories played through a book.
ghost use Rattle.std.specs.Prelude.{◌≡◌, ◌<◌, ◌+◌, ◌-◌, ◌^◌, [], IfOk, IfSome, IsTrue, length, take};
ghost use Rattle.scan_story.specs.Views.{past};
ghost use Rattle.help_views.specs.Small.{IsSmall};
ghost use Rattle.interest_book.specs.Stands.{Stands};

use crate::compare::agrees;
use crate::settings::book_of;
use help_judge::{may_come, may_follow};
use interest_book::{Book, Memory};
use scan_story::{Entry, Setting};
use std::alloc::Global;

/// How a trial ends.
#[derive(Clone, Copy, Debug, PartialEq, Eq)]
pub enum Trial {
    /// No book can be made for the setting.
    Unfit,
    /// The entry at this place, from 0, may not come there.
    Illegal(usize),
    /// After the entry at this place some number of the book isn't the judge's.
    Differs(usize),
    /// Each number is the judge's after each entry.
    Agrees,
}

/// Notes the entry at the place, where it may follow those before it, whichever policy would choose what it takes.
fn follow_next(
    alloc: Global,
    s: &Setting,
    entries: &[Entry],
    i: usize,
    book: &mut Book,
) -> Result<bool, Memory>
    requires small { IsSmall s.now }
    requires there { i < length entries.now }
    requires few { i < 2 ^ 63 - 1 }
    requires stands { Stands book.old s.now (past (take i entries.now)) }
    ensures { IfOk result (λ b. IsTrue b → Stands book.new s.now (past (take (i + 1) entries.now))) }
{
    let entry = &entries[i];
    if !may_follow(alloc, s, &entries[..i], entry)? {
        return Ok(false);
    }
    book.note(entry);
    Ok(true)
}

/// Notes the entry at the place, where it may come after those before it.
pub fn note_next(
    alloc: Global,
    s: &Setting,
    entries: &[Entry],
    i: usize,
    book: &mut Book,
) -> Result<bool, Memory>
    requires small { IsSmall s.now }
    requires there { i < length entries.now }
    requires few { i < 2 ^ 63 - 1 }
    requires stands { Stands book.old s.now (past (take i entries.now)) }
    ensures { IfOk result (λ b. IsTrue b → Stands book.new s.now (past (take (i + 1) entries.now))) }
{
    if !may_come(alloc, s, &entries[..i], &entries[i])? {
        return Ok(false);
    }
    follow_next(alloc, s, entries, i, book)
}

/// Notes the story in a book that has noted nothing, where each entry may follow those before it.
fn follow_all(
    alloc: Global,
    s: &Setting,
    entries: &[Entry],
    book: &mut Book,
) -> Result<bool, Memory>
    requires small { IsSmall s.now }
    requires stands { Stands book.old s.now [] }
    ensures { IfOk result (λ b. IsTrue b → Stands book.new s.now (past entries.now)) }
{
    for i in 0..entries.len() {
        if !follow_next(alloc, s, entries, i, book)? {
            return Ok(false);
        }
    }
    Ok(true)
}

/// A book that has noted the story, where each entry may follow those before it.
pub fn played(alloc: Global, s: &Setting, entries: &[Entry]) -> Result<Option<Book>, Memory>
    requires small { IsSmall s.now }
    ensures { IfOk result (λ o. IfSome o (λ b. Stands b s.now (past entries.now))) }
{
    let Some(mut book) = book_of(alloc, s)? else {
        return Ok(None);
    };
    if !follow_all(alloc, s, entries, &mut book)? {
        return Ok(None);
    }
    Ok(Some(book))
}

/// Plays the story through a book that has noted nothing, and compares each number after each entry with the judge's.
fn try_entries(
    alloc: Global,
    s: &Setting,
    entries: &[Entry],
    book: &mut Book,
) -> Result<Trial, Memory>
    requires small { IsSmall s.now }
    requires stands { Stands book.old s.now [] }
{
    if !agrees(alloc, s, &entries[..0], book)? {
        return Ok(Trial::Differs(0));
    }
    for i in 0..entries.len() {
        if !note_next(alloc, s, entries, i, book)? {
            return Ok(Trial::Illegal(i));
        }
        if !agrees(alloc, s, &entries[..i + 1], book)? {
            return Ok(Trial::Differs(i));
        }
    }
    Ok(Trial::Agrees)
}

/// Plays the story through a book, and compares each number after each entry with the judge's.
pub fn try_story(alloc: Global, s: &Setting, entries: &[Entry]) -> Result<Trial, Memory>
    requires { IsSmall s.now }
{
    let Some(mut book) = book_of(alloc, s)? else {
        return Ok(Trial::Unfit);
    };
    try_entries(alloc, s, entries, &mut book)
}
