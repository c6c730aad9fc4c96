//! The needs of the terms.
ghost use Rattle.std.specs.Prelude.{◌≡◌, IfOk};
ghost use Rattle.scan_story.specs.Setting.{worker_in};
ghost use Rattle.chunk_interest.specs.Fresh.{wanted};

use chunk_interest::Need;
use std::alloc::Global;
use table_sets::Memory;

/// The same needs once more.
pub fn copied(alloc: Global, needs: &[Need]) -> Result<Vec<Need>, Memory>
    ensures { IfOk result (λ v. v.items ≡ needs.now) }
{
    let mut copy = Vec::new(alloc);
    for n in needs {
        copy.push(Need {
            query: n.query,
            worker: n.worker,
            chunks: n.chunks.copy(),
            columns: n.columns.copy(),
        })?;
    }
    Ok(copy)
}

/// The worker that the query's need names.
pub fn worker_of(needs: &[Need], q: u32) -> Option<u32>
    ensures { result ≡ worker_in (wanted needs.now q) }
{
    for n in needs {
        if n.query == q {
            return Some(n.worker);
        }
    }
    None
}
