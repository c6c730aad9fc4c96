//! Settings of one or two queries.
ghost use Rattle.std.specs.Prelude.{◌≤◌, ◌<◌, IfOk};
ghost use Rattle.help_views.specs.Small.{IsSmall};

use scan_story::{Need, PolicyName, Setting};
use std::alloc::{AllocError, Global};
use std::collections::LinkedList;

/// Each policy's name.
pub const POLICIES: [PolicyName; 4] = [
    PolicyName::Relevance,
    PolicyName::Elevator,
    PolicyName::Normal,
    PolicyName::Attach,
];

/// The need of the query, with these chunks and columns.
pub fn need(
    alloc: Global,
    query: u32,
    worker: u32,
    chunks: &[u32],
    columns: &[u32],
) -> Result<Need, AllocError> {
    let chunks = chunks.iter().copied().collect(alloc)?;
    let columns = columns.iter().copied().collect(alloc)?;
    Ok(Need {
        query,
        worker,
        chunks,
        columns,
    })
}

/// The cursor with which a policy of the name begins.
pub fn first_cursor(alloc: Global, policy: PolicyName) -> Result<LinkedList<u32>, AllocError> {
    let cursor: &[u32] = match policy {
        PolicyName::Relevance | PolicyName::Normal => &[],
        PolicyName::Elevator => &[0],
        PolicyName::Attach => &[0; 257],
    };
    cursor.iter().copied().collect(alloc)
}

/// A setting of one or two queries; `numbers` are chunks, workers and frames.
pub fn setting(
    alloc: Global,
    policy: PolicyName,
    numbers: [u32; 3],
    groups: u32,
    first: Need,
    second: Option<Need>,
) -> Result<Setting, AllocError>
    requires some { 0 < groups }
    requires few { groups ≤ 16 }
    ensures { IfOk result IsSmall }
{
    let mut needs = LinkedList::new(alloc);
    needs.push_back(first)?;
    if let Some(second) = second {
        needs.push_back(second)?;
    }
    let cursor = first_cursor(alloc, policy)?;
    let [chunks, workers, frames] = numbers;
    Ok(Setting {
        needs,
        chunks,
        workers,
        frames,
        groups,
        policy,
        cursor,
    })
}
