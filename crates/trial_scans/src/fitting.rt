//! What calls ask of settings and shapes, tried.
ghost use Rattle.std.specs.Bool.{OnTrue};
ghost use Rattle.std.specs.Prelude.{◌≡◌, ◌<◌, ◌≤◌, ℕ, true, Some, length};
ghost use Rattle.std.specs.Option.{option_copied};
ghost use Rattle.scan_story.specs.Counting.{has};
ghost use Rattle.scan_story.specs.Setting.{HasRoom, need_of, worker_of};
ghost use Rattle.piece_format.specs.Shape as shapes;
ghost use Rattle.cscan.specs.Scans.{ReadsColumns};
ghost use Rattle.cscan.specs.Scans.{HasColumns, reads_column};
ghost use Rattle.trial_scans.specs.Trials.{FitEachOther};

use abm_policy::frames_needed;
use help_views::worker_of;
use piece_format::{Shape, groups};
use scan_story::{Need, Setting};
use std::collections::LinkedList;
use table_core::{ColumnSet, chunk_count};
use table_pieces::chunks_of;

// Whether the shape is within the limits.
fn is_shape(shape: &Shape) -> bool
    ensures { OnTrue result (shapes.IsShape shape.now) }
{
    let columns = shape.kinds.len();
    if columns < 1 || columns > 16 || shape.dict_lens.len() != columns {
        return false;
    }
    if shape.per < 1 || shape.per > 16384 || shape.rows > 2097152 {
        return false;
    }
    chunk_count(shape.rows, shape.per) <= 1024
}

/// Whether the shape is within the limits, and has the setting's chunks and groups.
pub(crate) fn fit_each_other(s: &Setting, shape: &Shape) -> bool
    ensures { OnTrue result (FitEachOther s.now shape.now) }
{
    if !is_shape(shape) {
        return false;
    }
    if s.chunks != chunks_of(shape) {
        return false;
    }
    s.groups == groups(shape)
}

/// Whether the frames are enough.
pub(crate) fn has_room(s: &Setting) -> bool
    requires workers { s.now.workers ≤ 32 }
    requires groups { s.now.groups ≤ 16 }
    ensures { OnTrue result (HasRoom s.now) }
{
    s.frames as u64 >= frames_needed(s.workers, s.groups)
}

/// Whether the query's need names the worker.
pub(crate) fn is_on(s: &Setting, w: u32, q: u32) -> bool
    ensures { OnTrue result (worker_of s.now q ≡ Some w) }
{
    match worker_of(s, q) {
        Some(v) => v == w,
        None => false,
    }
}

// The need that names the query.
fn need_of(s: &Setting, q: u32) -> Option<&Need>
    ensures { option_copied result ≡ need_of s.now q }
{
    for n in s.needs.iter() {
        if n.query == q {
            return Some(n);
        }
    }
    None
}

// Whether the query reads the column.
fn reads_column(s: &Setting, q: u32, column: u32) -> bool
    ensures { result ≡ reads_column s.now q column }
{
    match need_of(s, q) {
        Some(n) => n.columns.iter().any(|x| *x == column),
        None => false,
    }
}

// Whether each number of the list is below the end.
fn are_below(numbers: &LinkedList<u32>, end: usize) -> bool
    ensures { OnTrue result ((x : ℕ) → has numbers.now x ≡ true → x < end) }
{
    for x in numbers.iter() {
        if *x as usize >= end {
            return false;
        }
    }
    true
}

/// Whether each column that the query reads is one of the shape's.
pub(crate) fn has_columns(s: &Setting, shape: &Shape, q: u32) -> bool
    ensures { OnTrue result (HasColumns s.now shape.now q) }
{
    match need_of(s, q) {
        Some(n) => are_below(&n.columns, shape.kinds.len()),
        None => true,
    }
}

/// The columns that the query reads.
pub(crate) fn columns_of(s: &Setting, q: u32) -> ColumnSet
    ensures { ReadsColumns s.now q result }
{
    let mut columns = ColumnSet::empty();
    for x in 0..16 {
        if reads_column(s, q, x) {
            columns.insert(x);
        }
    }
    columns
}
