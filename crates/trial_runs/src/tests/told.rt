// What runs over a depot in memory come to.
ghost use Rattle.std.specs.Prelude.{◌≡◌, IfOk};

use super::{Left, Took, are_taken, run_beside};
use coop_outside::{Bytes, MemDepot};
use cscan::NoGate;
use scan_story::{Entry, Why};
use std::alloc::Global;
use std::process::Abort;
use std::random::RandomSource;
use std::sync::Wait;
use std::test::Fail;
use std::thread::Threads;

// What is told of a story.
#[derive(Clone, Copy)]
pub(super) enum Story<'a> {
    Any,
    Entries(usize),
    // the counts of faults before and after each read that fails
    Faults(&'a [(u64, u64)]),
    // the frames and pieces of the reads
    Reads(&'a [(u32, u32)]),
    // one of the entries
    Has(Entry),
}

// A run over a depot in memory, and what it comes to; `None` where that isn't told.
pub(super) struct Told<'a> {
    pub(super) words: &'a str,
    pub(super) table: &'a str,
    pub(super) batch: &'a str,
    // the gets and the puts that fail, counted from 1
    pub(super) fail_gets: &'a [u64],
    pub(super) fail_puts: &'a [u64],
    pub(super) status: u8,
    // the output, in parts
    pub(super) output: &'a [&'a str],
    pub(super) puts: Option<u64>,
    pub(super) gets: Option<u64>,
    pub(super) taken: Option<&'a [Took<'a>]>,
    pub(super) story: Story<'a>,
}

// A new depot whose gets and puts of these numbers fail.
pub(super) fn depot_of(
    alloc: Global,
    fail_gets: &[u64],
    fail_puts: &[u64],
) -> Result<MemDepot, Fail>
    ensures { IfOk result (λ d. d.gets ≡ 0) }
{
    let mut depot = MemDepot::new(alloc);
    depot.fail_gets = Vec::from_slice(alloc, fail_gets)?;
    depot.fail_puts = Vec::from_slice(alloc, fail_puts)?;
    Ok(depot)
}

// Whether the text is these parts, one behind the other.
pub(super) fn has_parts(alloc: Global, text: &Bytes, parts: &[&str]) -> Result<bool, Fail> {
    let mut whole = String::new(alloc);
    for part in parts {
        whole.push_str(part)?;
    }
    Ok(text.as_slice() == whole.as_bytes())
}

// Whether the count is this one, where one is told.
pub(super) fn is_count(count: u64, wanted: Option<u64>) -> bool {
    match wanted {
        Some(wanted) => count == wanted,
        None => true,
    }
}

// Whether the counts of faults that the story names are these.
fn has_faults(story: &[Entry], wanted: &[(u64, u64)]) -> bool {
    let mut left = wanted;
    for entry in story {
        if let Entry::Failed {
            why: Why::Fault { before, after },
            ..
        } = *entry
        {
            match left {
                [first, rest @ ..] if *first == (before, after) => left = rest,
                _ => return false,
            }
        }
    }
    left.is_empty()
}

// Whether the frames and pieces of the entries that tell of a read are these.
fn has_reads(story: &[Entry], wanted: &[(u32, u32)]) -> bool {
    let mut left = wanted;
    for entry in story {
        if let Entry::Filled { frame, piece, .. } = *entry {
            match left {
                [first, rest @ ..] if *first == (frame, piece) => left = rest,
                _ => return false,
            }
        }
    }
    left.is_empty()
}

fn is_story(story: &[Entry], wanted: &Story<'_>) -> bool {
    match wanted {
        Story::Any => true,
        Story::Entries(count) => story.len() == *count,
        Story::Faults(faults) => has_faults(story, faults),
        Story::Reads(reads) => has_reads(story, reads),
        Story::Has(entry) => story.contains(entry),
    }
}

fn are_told(left: &Left<MemDepot>, told: &Told<'_>) -> bool {
    match told.taken {
        Some(wanted) => are_taken(&left.ended.taken, wanted),
        None => true,
    }
}

// Whether the run left what is told.
fn has_left(alloc: Global, left: &Left<MemDepot>, told: &Told<'_>) -> Result<bool, Fail> {
    let is_written = has_parts(alloc, &left.output, told.output)?;
    Ok(
        is_written
            && left.ended.status == told.status
            && is_count(left.ended.depot.puts, told.puts)
            && is_count(left.ended.depot.gets, told.gets)
            && are_told(left, told)
            && is_story(&left.ended.story, &told.story),
    )
}

// Whether the run comes to what is told.
fn is_as_told<R: RandomSource + Threads + Wait + Sync>(
    rt: &R,
    alloc: Global,
    told: &Told<'_>,
) -> Result<bool, Fail> {
    let depot = depot_of(alloc, told.fail_gets, told.fail_puts)?;
    let (table, batch) = (told.table.as_bytes(), told.batch.as_bytes());
    let left = run_beside(rt, alloc, told.words, table, batch, depot, &NoGate)?;
    has_left(alloc, &left, told)
}

// Each run comes to what is told.
pub(super) fn expect_told<R: Abort + RandomSource + Threads + Wait + Sync>(
    rt: &R,
    alloc: Global,
    rows: &[Told<'_>],
) -> Result<(), Fail> {
    for place in 0..rows.len() {
        let is_told = is_as_told(rt, alloc, &rows[place])?;
        assert!(rt; is_told, "run {place}");
    }
    Ok(())
}
