// The members of a set as a list.
ghost use Rattle.std.specs.Prelude.{◌≡◌, IfOk};

use std::alloc::Global;
use table_core::{ColumnSet, MOST_COLUMNS, Memory};

/// The members of a set, rising.
pub(crate) fn members_of(alloc: Global, set: &ColumnSet) -> Result<Vec<u32>, Memory>
    ensures { IfOk result (λ members. members.items ≡ set.now) }
{
    // Its contract says that the members rise, so the list is the set.
    let _count = set.len();
    let mut members = Vec::new(alloc);
    for column in 0..MOST_COLUMNS {
        if set.has(column) {
            members.push(column)?;
        }
    }
    Ok(members)
}
