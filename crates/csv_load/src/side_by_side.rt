// Columns typed by several threads at once.
ghost use Rattle.std.specs.Prelude.{◌≡◌, ◌<◌, ◌≤◌, IfOk, length};
ghost use Rattle.std.specs.List.{AllZip};
ghost use Rattle.std.specs.Thread.{IsSync};
ghost use Rattle.csv_load.specs.Typed.{IsTyped};

use crate::gathered::Gathered;
use crate::typed::{Typed, type_columns};
use std::alloc::{AllocError, Global};
use std::thread::{Threads, join};

// Columns with fewer texts than this together aren't worth a thread.
const LEAST_TEXTS: usize = 2048;

// How many texts the columns have together: a measure of the work on them.
fn texts_in(columns: &[Gathered]) -> usize {
    let mut texts = 0usize;
    for column in columns {
        texts = texts.saturating_add(column.text_count());
    }
    texts
}

// How many columns, from the first on, have about so many texts: at least one, and not all.
fn cut_at(columns: &[Gathered], wanted: usize) -> usize
    requires { 2 ≤ length columns.now }
    ensures some { 0 < result }
    ensures not_all { result < length columns.now }
{
    let most = columns.len() - 1;
    let mut texts = columns[0].text_count();
    for place in 1..most {
        let next = columns[place].text_count();
        if texts.saturating_add(next / 2) > wanted {
            return place;
        }
        texts = texts.saturating_add(next);
    }
    most
}

// The columns of these texts as `type_columns` makes them, by at most so many threads beside the caller's. Each has
// columns that stand together, with about as many texts as any other's. Where a thread can't be started, the caller's
// does its work.
#[cycle(sides)]
pub(crate) fn type_side_by_side<R: Threads + Sync>(
    rt: &R,
    alloc: Global,
    mut columns: Vec<Gathered>,
    most_threads: u32,
) -> Result<Vec<Typed>, AllocError>
    ensures { IfOk result (λ v. AllZip IsTyped columns.items v.items) }
{
    let texts = texts_in(columns.as_slice());
    if most_threads == 0 || columns.len() < 2 || texts < LEAST_TEXTS {
        return type_columns(alloc, columns);
    }
    // One thread is started here, for the front. So many more may be started by it, and the rest by the caller's.
    let beside = (most_threads - 1) / 2;
    let here = most_threads - 1 - beside;
    let share = texts / (most_threads as usize + 1);
    let cut = cut_at(
        columns.as_slice(),
        share.saturating_mul(beside as usize + 1),
    );
    let rest = columns.split_off(cut)?;
    let front = move || -> Result<Vec<Typed>, AllocError>
        requires { IsSync R.row }
        ensures { IfOk result (λ v. AllZip IsTyped columns.items v.items) }
    { type_side_by_side(rt, alloc, columns, beside) };
    let back = move || -> Result<Vec<Typed>, AllocError>
        requires { IsSync R.row }
        ensures { IfOk result (λ v. AllZip IsTyped rest.items v.items) }
    { type_side_by_side(rt, alloc, rest, here) };
    let (first, second) = join(rt, front, back);
    let mut typed = first?;
    let mut others = second?;
    typed.append(&mut others)?;
    Ok(typed)
}
