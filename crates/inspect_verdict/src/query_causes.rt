// Why a story stopped a query.
ghost use Rattle.std.specs.Prelude.{◌≡◌, ◌≤◌, ◌*◌};
ghost use Rattle.scan_story.specs.Views.{past};
ghost use Rattle.batch_ends.specs.Lost as spec;

use crate::causes::cause_of;
use batch_plan::scan_number;
use scan_story::{Cause, Entry};

/// Why a story stopped a query: the cause of the first of its parts that it stopped.
pub(crate) fn cause_of_query(story: &[Entry], parts: u32, query: u32) -> Option<Cause>
    requires query { 1 ≤ query }
    requires few { query * parts ≤ 256 }
    ensures cause { result ≡ spec.cause_of_query (past story.now) parts query }
{
    for part in 0..parts {
        let cause = cause_of(story, scan_number(parts, query, part));
        if cause.is_some() {
            return cause;
        }
    }
    None
}
