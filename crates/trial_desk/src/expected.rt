//! What a desk said, beside what the judge makes of its story.
ghost use Rattle.std.specs.Prelude.{◌≡◌, ◌<◌, ◌≤◌, length};
ghost use Rattle.scan_story.specs.Views.{past};
ghost use Rattle.scan_story.specs.Loads.{underway};
ghost use Rattle.help_views.specs.Small.{IsSmall};

use crate::said::Said;
use abm_policy::{Cause, Slots, Why};
use help_views::{
    is_available, is_free, is_stopped, missing_for, needed, piece_at, piece_in, reads_group,
    underway,
};
use scan_story::{Entry, Load, Setting};
use std::alloc::{AllocError, Global};
use std::process::Abort;
use std::test::Fail;

/// The rows of the table of turns.
#[derive(Clone, Copy, PartialEq, Eq)]
enum Row {
    Stopped,
    Finished,
    Take,
    NotYet,
    Load,
}

fn has_ready(s: &Setting, before: &[Entry], q: u32) -> bool
    requires { IsSmall s.now }
{
    for c in 0..s.chunks {
        if is_available(s, before, q, c) {
            return true;
        }
    }
    false
}

/// The first row that fits.
fn first_row(alloc: Global, s: &Setting, before: &[Entry], q: u32) -> Result<Row, AllocError>
    requires { IsSmall s.now }
{
    if is_stopped(before, q) {
        return Ok(Row::Stopped);
    }
    if needed(s, before, q) == 0 {
        return Ok(Row::Finished);
    }
    if has_ready(s, before, q) {
        return Ok(Row::Take);
    }
    let load = underway(alloc, s, before)?;
    Ok(if load.is_some() {
        Row::NotYet
    } else {
        Row::Load
    })
}

/// What the first entry says that stops the query.
fn cause_of(before: &[Entry], q: u32) -> Option<Cause> {
    for entry in before {
        match *entry {
            Entry::Stop { query, .. } if query == q => return Some(Cause::Memory),
            Entry::Failed {
                query,
                piece,
                why,
                ..
            } if query == q => {
                return Some(match why {
                    Why::Fault { before, after } => Cause::Read { before, after },
                    Why::Damage { word } => Cause::Damage { piece, word },
                });
            }
            _ => {}
        }
    }
    None
}

fn first_free(s: &Setting, entries: &[Entry], load: &Option<Load>) -> Option<u32>
    requires small { IsSmall s.now }
    requires load { load.now ≡ underway s.now (past entries.now) }
{
    for f in 0..s.frames {
        if is_free(s, entries, load, f) {
            return Some(f);
        }
    }
    None
}

/// The query that a turn was for, and the row of its answer; `None` where the call was no turn.
fn row_of(said: &Said) -> Option<(u32, Row)> {
    match said {
        Said::Took { query, .. } => Some((*query, Row::Take)),
        Said::Loads { query, .. } => Some((*query, Row::Load)),
        Said::NotYet { query, .. } => Some((*query, Row::NotYet)),
        Said::Finished { query, .. } => Some((*query, Row::Finished)),
        Said::Stopped { query, .. } => Some((*query, Row::Stopped)),
        _ => None,
    }
}

/// Whether a turn's answer is of the first row that fits.
fn is_first_row(
    alloc: Global,
    s: &Setting,
    before: &[Entry],
    said: &Said,
) -> Result<bool, AllocError>
    requires { IsSmall s.now }
{
    match row_of(said) {
        Some((query, row)) => Ok(first_row(alloc, s, before, query)? == row),
        None => Ok(true),
    }
}

/// Whether the slot at the place is the frame of this piece.
fn is_slot(s: &Setting, before: &[Entry], slots: &Slots, i: u32, piece: u64) -> bool
    requires { IsSmall s.now }
{
    if i >= slots.len() {
        return false;
    }
    let (frame, found) = slots.at(i);
    found as u64 == piece && piece_in(s, before, frame) == Some(found)
}

/// Whether the slots are the frames of the pieces that the query reads of the chunk, by rising piece.
fn are_slots(s: &Setting, before: &[Entry], q: u32, c: u32, slots: &Slots) -> bool
    requires { IsSmall s.now }
{
    let mut i: u32 = 0;
    for g in 0..s.groups {
        if reads_group(s, q, g) {
            if !is_slot(s, before, slots, i, piece_at(s, c, g)) {
                return false;
            }
            i = i.saturating_add(1);
        }
    }
    i == slots.len()
}

/// Whether the slots and the cause of an answer are those that the story makes.
fn is_made(s: &Setting, before: &[Entry], said: &Said) -> bool
    requires { IsSmall s.now }
{
    match said {
        Said::Took {
            query,
            chunk,
            slots,
            ..
        } => are_slots(s, before, *query, *chunk, slots),
        Said::Loads {
            trigger,
            chunk,
            slots,
            ..
        } => missing_for(s, before, *trigger, *chunk) == slots.len() as usize,
        Said::Stopped { query, cause, .. } => cause_of(before, *query) == Some(*cause),
        _ => true,
    }
}

/// Whether the entry stands at the place.
fn is_entry(story: &[Entry], at: usize, entry: Entry) -> bool {
    at < story.len() && story[at] == entry
}

/// The place behind the entry that stands there, if it is this one.
fn after_entry(story: &[Entry], at: usize, entry: Entry) -> Option<usize> {
    if is_entry(story, at, entry) {
        Some(at.saturating_add(1))
    } else {
        None
    }
}

/// The place behind the Evicts that stand there.
fn after_evicts(story: &[Entry], at: usize) -> usize {
    for i in at..story.len() {
        if !matches!(story[i], Entry::Evict { .. }) {
            return i;
        }
    }
    at.max(story.len())
}

/// Whether the piece of the slot is greater than the one before.
fn is_rising(slots: &Slots, i: u32) -> bool
    requires { i < length slots.now }
{
    i == 0 || slots.at(i - 1).1 < slots.at(i).1
}

/// Whether the Fill of the slot stands at the place, into the free frame of least number.
fn is_fill(
    alloc: Global,
    s: &Setting,
    story: &[Entry],
    at: usize,
    worker: u32,
    slot: (u32, u32),
) -> Result<bool, AllocError>
    requires { IsSmall s.now }
{
    let (frame, piece) = slot;
    let before = &story[..at.min(story.len())];
    let load = underway(alloc, s, before)?;
    let fill = Entry::Fill {
        worker,
        frame,
        piece,
    };
    Ok(first_free(s, before, &load) == Some(frame) && is_entry(story, at, fill))
}

/// The place behind a Fill for each slot, by rising piece.
fn after_fills(
    alloc: Global,
    s: &Setting,
    story: &[Entry],
    at: usize,
    worker: u32,
    slots: &Slots,
) -> Result<Option<usize>, AllocError>
    requires { IsSmall s.now }
{
    let mut at = at;
    for i in 0..slots.len() {
        if !is_rising(slots, i) || !is_fill(alloc, s, story, at, worker, slots.at(i))? {
            return Ok(None);
        }
        at = at.saturating_add(1);
    }
    Ok(Some(at))
}

/// The place behind a Plan, Evicts, and a Fill for each slot.
fn after_load(
    alloc: Global,
    s: &Setting,
    story: &[Entry],
    at: usize,
    plan: Entry,
    worker: u32,
    slots: &Slots,
) -> Result<Option<usize>, AllocError>
    requires { IsSmall s.now }
{
    match after_entry(story, at, plan) {
        Some(at) => after_fills(alloc, s, story, after_evicts(story, at), worker, slots),
        None => Ok(None),
    }
}

/// The place behind a Filled for each of the first slots.
fn after_filled(story: &[Entry], at: usize, worker: u32, slots: &Slots, n: u32) -> Option<usize> {
    let mut at = at;
    for i in 0..n.min(slots.len()) {
        let (frame, piece) = slots.at(i);
        let filled = Entry::Filled {
            worker,
            frame,
            piece,
        };
        if !is_entry(story, at, filled) {
            return None;
        }
        at = at.saturating_add(1);
    }
    Some(at)
}

/// The place behind a Filled for each of the first slots, and a Failed for the next one.
fn after_failed(
    story: &[Entry],
    at: usize,
    worker: u32,
    query: u32,
    slots: &Slots,
    done: u32,
    why: Why,
) -> Option<usize> {
    if done >= slots.len() {
        return None;
    }
    let failed = Entry::Failed {
        worker,
        query,
        piece: slots.at(done).1,
        why,
    };
    match after_filled(story, at, worker, slots, done) {
        Some(at) => after_entry(story, at, failed),
        None => None,
    }
}

/// The one entry of a call that begins no load and ends none, if it appends one.
fn entry_of(said: &Said) -> Option<Entry> {
    match *said {
        Said::Registered { worker, query } => Some(Entry::Register { worker, query }),
        Said::Took {
            worker,
            query,
            chunk,
            ..
        } => Some(Entry::Deliver {
            worker,
            query,
            chunk,
        }),
        Said::Finished { worker, query } => Some(Entry::End { worker, query }),
        Said::Released {
            worker,
            query,
            chunk,
        } => Some(Entry::Release {
            worker,
            query,
            chunk,
        }),
        Said::GaveUp { worker, query } => Some(Entry::Stop { worker, query }),
        _ => None,
    }
}

/// The place behind the entries that the call should append, where they stand.
fn after_call(
    alloc: Global,
    s: &Setting,
    story: &[Entry],
    at: usize,
    said: &Said,
) -> Result<Option<usize>, AllocError>
    requires { IsSmall s.now }
{
    if let Some(entry) = entry_of(said) {
        return Ok(after_entry(story, at, entry));
    }
    match said {
        Said::Loads {
            worker,
            trigger,
            chunk,
            slots,
            ..
        } => {
            let plan = Entry::Plan {
                worker: *worker,
                query: *trigger,
                chunk: *chunk,
            };
            after_load(alloc, s, story, at, plan, *worker, slots)
        }
        Said::Filled { worker, slots } => {
            Ok(after_filled(story, at, *worker, slots, slots.len()))
        }
        Said::Failed {
            worker,
            trigger,
            slots,
            done,
            why,
        } => Ok(after_failed(story, at, *worker, *trigger, slots, *done, *why)),
        _ => Ok(Some(at)),
    }
}

/// The place behind the entries of the call, where they stand and the answer is the right one.
fn after_answer(
    alloc: Global,
    s: &Setting,
    story: &[Entry],
    at: usize,
    said: &Said,
) -> Result<Option<usize>, AllocError>
    requires { IsSmall s.now }
{
    let before = &story[..at.min(story.len())];
    if !is_first_row(alloc, s, before, said)? || !is_made(s, before, said) {
        return Ok(None);
    }
    after_call(alloc, s, story, at, said)
}

/// Each call was answered as the table of turns says, and appended just the entries that it should.
pub fn expect_answers<R: Abort>(
    rt: &R,
    alloc: Global,
    s: &Setting,
    story: &[Entry],
    said: &[Said],
) -> Result<(), Fail>
    requires { IsSmall s.now }
{
    let mut at: usize = 0;
    for one in said {
        match after_answer(alloc, s, story, at, one)? {
            Some(next) => at = next,
            None => panic!(rt; "entry {at}"),
        }
    }
    assert_eq!(rt; at, story.len(), "more entries than answers");
    Ok(())
}
