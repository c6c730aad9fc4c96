//! A book for a setting that a judge knows.
ghost use Rattle.std.specs.Prelude.{◌≡◌, ◌==◌, ◌≤◌, [], not, IfOk, IfSome, IsTrue};
ghost use Rattle.std.specs.List.{list_any};
ghost use Rattle.scan_story.specs.Setting.{IsNeed, IsRising, AreColumns};
ghost use Rattle.table_sets.specs.Sets.{Rising};
ghost use Rattle.chunk_interest.specs.Fresh.{as_need};
ghost use Rattle.interest_book.specs.Stands.{Stands};
ghost use Rattle.help_book.specs.Fits.{IsFit, AreFit};

use interest_book::{Book, Memory, Need};
use scan_story::Setting;
use std::alloc::Global;
use std::collections::LinkedList;
use table_core::{ChunkSet, ColumnSet};

// The set of these chunks, where they rise and are below the end.
fn chunk_set(chunks: &LinkedList<u32>, end: u32) -> Option<ChunkSet>
    requires { end ≤ 1024 }
    ensures same { IfSome result (λ set. set ≡ chunks.now) }
    ensures rising { IfSome result (λ set. Rising 0 chunks.now end) }
{
    let mut set = ChunkSet::empty();
    let mut next = 0;
    for chunk in chunks.iter() {
        let c = *chunk;
        if c < next || c >= end {
            return None;
        }
        set.insert(c);
        next = c + 1;
    }
    // so many rising members it has
    let _size = set.len();
    Some(set)
}

// The set of these columns, where they rise and are below the end.
fn column_set(columns: &LinkedList<u32>, end: u32) -> Option<ColumnSet>
    requires { end ≤ 16 }
    ensures same { IfSome result (λ set. set ≡ columns.now) }
    ensures rising { IfSome result (λ set. Rising 0 columns.now end) }
{
    let mut set = ColumnSet::empty();
    let mut next = 0;
    for column in columns.iter() {
        let c = *column;
        if c < next || c >= end {
            return None;
        }
        set.insert(c);
        next = c + 1;
    }
    // so many rising members it has
    let _size = set.len();
    Some(set)
}

// The columns of the need, where a setting may have them.
fn columns_of(s: &Setting, n: &scan_story::Need) -> Option<ColumnSet>
    requires { s.now.groups ≤ 16 }
    ensures same { IfSome result (λ set. set ≡ n.now.columns) }
    ensures rising { IfSome result (λ set. IsRising n.now.columns) }
    ensures fit { IfSome result (λ set. AreColumns s.now.groups n.now.columns) }
{
    if s.groups == 1 {
        return column_set(&n.columns, 16);
    }
    if n.columns.len() == 0 {
        return None;
    }
    column_set(&n.columns, s.groups)
}

// The need as a book takes it, where a setting may have it.
fn book_need(s: &Setting, n: &scan_story::Need) -> Option<Need>
    requires chunks { s.now.chunks ≤ 1024 }
    requires groups { s.now.groups ≤ 16 }
    ensures same { IfSome result (λ m. as_need m ≡ n.now) }
    ensures fits { IfSome result (λ m. IsNeed s.now n.now) }
{
    if n.query < 1 || n.query > 256 || n.worker >= s.workers {
        return None;
    }
    let columns = columns_of(s, n)?;
    let chunks = chunk_set(&n.chunks, s.chunks)?;
    Some(Need {
        query: n.query,
        worker: n.worker,
        chunks,
        columns,
    })
}

// Whether no need names the query.
fn is_new(needs: &[Need], q: u32) -> bool
    ensures { result ≡ not (list_any (λ n. n.query == q) needs.now) }
{
    for n in needs {
        if n.query == q {
            return false;
        }
    }
    true
}

// Adds the needs of the setting as a book takes them, where a setting may have them.
fn add_needs(s: &Setting, needs: &mut Vec<Need>) -> Result<bool, Memory>
    requires chunks { s.now.chunks ≤ 1024 }
    requires groups { s.now.groups ≤ 16 }
    requires empty { needs.old.items ≡ [] }
    ensures { IfOk result (λ b. IsTrue b → AreFit s.now needs.new.items) }
{
    for n in s.needs.iter() {
        let Some(need) = book_need(s, n) else {
            return Ok(false);
        };
        if !is_new(needs, n.query) {
            return Ok(false);
        }
        needs.push(need)?;
    }
    Ok(true)
}

/// The needs of the setting as a book takes them; `None` where no setting has them. The error is out of memory.
pub fn book_needs(alloc: Global, s: &Setting) -> Result<Option<Vec<Need>>, Memory>
    requires chunks { s.now.chunks ≤ 1024 }
    requires groups { s.now.groups ≤ 16 }
    ensures { IfOk result (λ o. IfSome o (λ v. AreFit s.now v.items)) }
{
    let mut needs = Vec::new(alloc);
    if !add_needs(s, &mut needs)? {
        return Ok(None);
    }
    Ok(Some(needs))
}

/// Whether the numbers are those of a setting.
pub fn has_numbers(s: &Setting) -> bool
    ensures { IsTrue result → IsFit s.now }
{
    s.chunks <= 1024
        && s.workers >= 1
        && s.workers <= 32
        && s.groups >= 1
        && s.groups <= 16
        && s.frames <= 33554432
}

/// A book before the first entry, where the setting is one that a book can be made for.
pub fn book_of(alloc: Global, s: &Setting) -> Result<Option<Book>, Memory>
    ensures { IfOk result (λ o. IfSome o (λ b. Stands b s.now [])) }
{
    if !has_numbers(s) {
        return Ok(None);
    }
    let Some(needs) = book_needs(alloc, s)? else {
        return Ok(None);
    };
    let book = Book::new(alloc, needs, s.chunks, s.workers, s.frames, s.groups)?;
    Ok(Some(book))
}
