// Sets of the members of lists.
ghost use Rattle.std.specs.Prelude.{◌≡◌};
ghost use Rattle.table_sets.specs.Sets.{AreMembers};

use std::collections::LinkedList;
use table_sets::{ChunkSet, ColumnSet};

/// The set of these chunks, which rise.
pub(crate) fn chunks_of(list: &LinkedList<u32>) -> ChunkSet
    requires { AreMembers 1024 list.now }
    ensures { result ≡ list.now }
{
    let mut set = ChunkSet::empty();
    for chunk in list.iter() {
        set.insert(*chunk);
    }
    // Its contract says that the members rise, so the set is the list.
    let _count = set.len();
    set
}

/// The set of these columns, which rise.
pub(crate) fn columns_of(list: &LinkedList<u32>) -> ColumnSet
    requires { AreMembers 16 list.now }
    ensures { result ≡ list.now }
{
    let mut set = ColumnSet::empty();
    for column in list.iter() {
        set.insert(*column);
    }
    // Its contract says that the members rise, so the set is the list.
    let _count = set.len();
    set
}
