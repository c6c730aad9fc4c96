// The needs of a manager in the form of their text.
ghost use Rattle.std.specs.Prelude.{◌≡◌, IfOk, map};
ghost use Rattle.std.specs.List.{AllByRecursion};
ghost use Rattle.chunk_interest.specs.Fresh.{as_need};
ghost use Rattle.inspect_story.specs.Settings.{HasShortColumns};

use crate::members::{chunks_in, columns_in};
use std::alloc::{AllocError, Global};

// A need, as a setting has it.
fn plain_need(alloc: Global, need: &chunk_interest::Need) -> Result<scan_story::Need, AllocError>
    ensures same { IfOk result (λ n. n ≡ as_need need.now) }
    ensures short { IfOk result HasShortColumns }
{
    let chunks = chunks_in(alloc, &need.chunks)?;
    let columns = columns_in(alloc, &need.columns)?;
    Ok(scan_story::Need {
        query: need.query,
        worker: need.worker,
        chunks,
        columns,
    })
}

/// Needs, as a setting has them.
pub(crate) fn plain_needs(
    alloc: Global,
    needs: &[chunk_interest::Need],
) -> Result<Vec<scan_story::Need>, AllocError>
    ensures same { IfOk result (λ ns. ns.items ≡ map as_need needs.now) }
    ensures short { IfOk result (λ ns. AllByRecursion HasShortColumns ns.items) }
{
    let mut plain = Vec::new(alloc);
    for need in needs {
        let told = plain_need(alloc, need)?;
        plain.push(told)?;
    }
    Ok(plain)
}
