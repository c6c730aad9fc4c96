// What separate scans would read.
ghost use Rattle.std.specs.Prelude.{◌≡◌, ◌≤◌};
ghost use Rattle.chunk_interest.specs.Fresh.{as_need};
ghost use Rattle.scan_story.specs.Setting.{IsSetting};
ghost use Rattle.inspect_referee.specs.Terms.{setting_of};
ghost use Rattle.inspect_verdict.specs.Apart as spec;

use chunk_interest::Need;
use inspect_referee::Terms;
use story_laws::settings_fit_capacity;

// How many pieces a query of this need reads, of all its chunks.
fn pieces_of(need: &Need, groups: u32) -> u64
    ensures value { result ≡ spec.pieces_of groups (as_need need.now) }
    ensures few { result ≤ 16384 }
{
    let chunks = need.chunks.len() as u64;
    if groups == 1 {
        return chunks;
    }
    chunks * need.columns.len() as u64
}

/// How many pieces are read where each query reads for itself: of each chunk that it needs the one piece, or one for
/// each of its columns. It takes no memory.
pub fn reads_apart(terms: &Terms) -> u64
    requires { IsSetting (setting_of terms.now) }
    ensures { result ≡ spec.reads_apart (setting_of terms.now) }
{
    settings_fit_capacity();
    let mut reads = 0;
    for need in &terms.needs {
        reads += pieces_of(need, terms.groups);
    }
    reads
}
