// The rows of a picture: of each, the marks that are drawn as one.
ghost use Rattle.std.specs.Prelude.{◌≡◌, ◌==◌, ◌<◌, ◌≤◌, ◌+◌, ◌++◌, ◌∷◌, [], ℕ, List, length, min, IfOk, OnOk};
ghost use Rattle.std.specs.Prelude.{if◌then◌else◌};
ghost use Rattle.inspect_picture.specs.Rows.{AreRows, row_at};
ghost use Rattle.inspect_picture.specs.Stretches as spec;
ghost use Rattle.inspect_picture.specs.Svg.{drawn};
ghost use Rattle.inspect_picture.specs.declared.mark.Mark.{Mark};
ghost use Rattle.inspect_picture.specs.declared.scale.Scale.{Scale};

use crate::lanes::ROWS;
use crate::mark::Mark;
use crate::scale::Scale;
use crate::stretch::{Stretch, joined, meets, stretch_of};
use scan_story::Memory;
use std::alloc::Global;

/// So many elements have titles at most, so that a picture stays small.
pub(crate) const MOST_TITLES: u64 = 7500;

fn push(row: &mut Vec<Stretch>, stretch: Stretch) -> Result<(), Memory>
    ensures { OnOk result (row.new.items ≡ row.old.items ++ stretch ∷ []) }
{
    match row.push(stretch) {
        Ok(()) => Ok(()),
        Err(_) => Err(Memory),
    }
}

// Puts what becomes of the last of a row and one mark more at the end.
fn put_behind(
    row: &mut Vec<Stretch>,
    scale: &Scale,
    last: Stretch,
    mark: Mark,
) -> Result<(), Memory>
    requires groups { 1 ≤ scale.now.groups }
    ensures { OnOk result (row.new.items ≡ row.old.items ++ spec.one_or_two scale.now last mark) }
{
    if meets(scale, last, mark) {
        push(row, joined(scale, last, mark))?;
        return Ok(());
    }
    push(row, last)?;
    push(row, stretch_of(scale, mark))?;
    Ok(())
}

// Puts one mark more behind those of a row.
fn put(row: &mut Vec<Stretch>, scale: &Scale, mark: Mark) -> Result<(), Memory>
    requires groups { 1 ≤ scale.now.groups }
    ensures { OnOk result (row.new.items ≡ spec.with_mark scale.now row.old.items mark) }
{
    match row.pop() {
        None => {
            push(row, stretch_of(scale, mark))?;
            return Ok(());
        }
        Some(last) => {
            put_behind(row, scale, last, mark)?;
            return Ok(());
        }
    }
}

// Puts one mark more behind those of the row with this number.
fn put_at(rows: &mut [Vec<Stretch>], scale: &Scale, place: usize, mark: Mark) -> Result<(), Memory>
    requires groups { 1 ≤ scale.now.groups }
    requires there { place < length rows.old }
    ensures len { length rows.new ≡ length rows.old }
    ensures more { OnOk result ((k : ℕ) → row_at rows.new k
        ≡ (if place == k then spec.with_mark scale.now (row_at rows.old k) mark else row_at rows.old k)) }
{
    let row = &mut rows[place];
    put(row, scale, mark)
}

// Puts one mark more behind those of its row, where it is shown.
fn put_shown(rows: &mut [Vec<Stretch>], scale: &Scale, mark: Mark) -> Result<(), Memory>
    requires groups { 1 ≤ scale.now.groups }
    requires count { length rows.old ≡ 114 }
    ensures len { length rows.new ≡ length rows.old }
    ensures more { OnOk result ((k : ℕ) → row_at rows.new k
        ≡ (if spec.is_in scale.now k mark then spec.with_mark scale.now (row_at rows.old k) mark
        else row_at rows.old k)) }
{
    if !scale.is_shown(mark) {
        return Ok(());
    }
    let place = scale.row_of(mark) as usize;
    put_at(rows, scale, place, mark)
}

// All rows, with nothing in them.
fn blank_rows(alloc: Global) -> Result<Vec<Vec<Stretch>>, Memory>
    ensures count { IfOk result (λ rows. length rows.items ≡ 114) }
    ensures blank { IfOk result (λ rows. (k : ℕ) → row_at rows.items k ≡ []) }
{
    let mut rows = Vec::new(alloc);
    for place in 0..ROWS {
        if rows.push(Vec::new(alloc)).is_err() {
            return Err(Memory);
        }
    }
    Ok(rows)
}

// The rows of the marks, in one pass over them.
pub(crate) fn rows_of(
    alloc: Global,
    scale: &Scale,
    marks: &[Mark],
) -> Result<Vec<Vec<Stretch>>, Memory>
    requires groups { 1 ≤ scale.now.groups }
    ensures { IfOk result (λ rows. AreRows scale.now marks.now rows.items) }
{
    let mut rows = blank_rows(alloc)?;
    for mark in marks {
        put_shown(&mut rows, scale, *mark)?;
    }
    Ok(rows)
}

// The row with this number.
pub(crate) fn row_at(rows: &[Vec<Stretch>], place: usize) -> &[Stretch]
    requires there { place < length rows.now }
    ensures { result.now ≡ row_at rows.now place }
{
    rows[place].as_slice()
}

fn more_drawn(drawn: u64, more: usize) -> u64
    ensures { result ≡ min (drawn + more) 18446744073709551615 }
{
    drawn.saturating_add(more as u64)
}

// As how many the marks are drawn.
pub(crate) fn drawn_in(rows: &[Vec<Stretch>]) -> u64
    requires count { length rows.now ≡ 114 }
    ensures { (z : Scale) (ms : List Mark) → AreRows z ms rows.now → result ≡ drawn z ms 114 }
{
    let mut drawn = 0;
    for place in 0..114 {
        drawn = more_drawn(drawn, row_at(rows, place).len());
    }
    drawn
}
