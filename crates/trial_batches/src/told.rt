// What a batch comes to.
use crate::batches::{Trial, ended_in_memory};
use crate::wanted::{Took, Wanted, are_taken, are_wanted};
use batch_run::{Answer, Taken};
use std::alloc::Global;
use std::hash::RandomState;
use std::process::Abort;
use std::random::RandomSource;
use std::sync::Wait;
use std::test::Fail;
use std::thread::Threads;

// A batch over a depot in memory, and what it comes to; `None` where that isn't told.
#[derive(Clone, Copy)]
pub(crate) struct Told<'a> {
    pub(crate) trial: Trial<'a>,
    // the gets that fail, counted from 1
    pub(crate) fail_gets: &'a [u64],
    pub(crate) answers: Option<&'a [Wanted]>,
    pub(crate) taken: Option<&'a [Took]>,
    pub(crate) gets: u64,
}

fn has_answers(answers: &[Answer], told: &Told<'_>) -> bool {
    match told.answers {
        Some(wanted) => are_wanted(answers, wanted),
        None => true,
    }
}

fn has_taken(taken: &[Taken], told: &Told<'_>) -> bool {
    match told.taken {
        Some(took) => are_taken(taken, took),
        None => true,
    }
}

// Whether the batch comes to what is told.
pub(crate) fn is_as_told<R: Abort + RandomSource + Threads + Wait + Sync>(
    rt: &R,
    alloc: Global,
    told: &Told<'_>,
) -> Result<bool, Fail> {
    let keys = RandomState::new(rt)?;
    let end = ended_in_memory(rt, alloc, keys, &told.trial, told.fail_gets)?;
    Ok(
        end.depot.gets == told.gets
            && has_answers(&end.answers, told)
            && has_taken(&end.ran.taken, told),
    )
}

// Each batch comes to what is told.
pub(crate) fn expect_told<R: Abort + RandomSource + Threads + Wait + Sync>(
    rt: &R,
    alloc: Global,
    rows: &[Told<'_>],
) -> Result<(), Fail> {
    for place in 0..rows.len() {
        let is_told = is_as_told(rt, alloc, &rows[place])?;
        assert!(rt; is_told, "batch {place}");
    }
    Ok(())
}
