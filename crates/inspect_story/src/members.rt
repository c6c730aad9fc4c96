// The members of sets as lists.
ghost use Rattle.std.specs.Prelude.{◌≡◌, ◌<◌, ℕ, IfOk};
ghost use Rattle.std.specs.List.{AllByRecursion};

use std::alloc::{AllocError, Global};
use std::collections::LinkedList;
use table_sets::{ChunkSet, ColumnSet, MOST_CHUNKS, MOST_COLUMNS};

/// The members of a set of chunks, rising.
pub(crate) fn chunks_in(alloc: Global, set: &ChunkSet) -> Result<LinkedList<u32>, AllocError>
    ensures { IfOk result (λ list. list ≡ set.now) }
{
    // Its contract says that the members rise, so the list is the set.
    let _count = set.len();
    let mut list = LinkedList::new(alloc);
    for chunk in 0..MOST_CHUNKS {
        if set.has(chunk) {
            list.push_back(chunk)?;
        }
    }
    Ok(list)
}

/// The members of a set of columns, rising.
pub(crate) fn columns_in(alloc: Global, set: &ColumnSet) -> Result<LinkedList<u32>, AllocError>
    ensures same { IfOk result (λ list. list ≡ set.now) }
    ensures below { IfOk result (λ list. AllByRecursion (λ (g : ℕ). g < 16) list) }
{
    // Its contract says that the members rise, so the list is the set.
    let _count = set.len();
    let mut list = LinkedList::new(alloc);
    for column in 0..MOST_COLUMNS {
        if set.has(column) {
            list.push_back(column)?;
        }
    }
    Ok(list)
}
