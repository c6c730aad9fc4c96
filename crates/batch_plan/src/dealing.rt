// Dealing the chunks of a query to its parts.
ghost use Rattle.std.specs.Prelude.{◌≡◌, ◌<◌, ◌≤◌, ◌+◌, ◌/◌, ◌%◌, length, nat_lt, if◌then◌else◌};
ghost use Rattle.batch_plan.specs.Deal as spec;

use table_core::ChunkSet;

/// The chunks of a part, of those that a query needs: in rising order they have places from 0, and part `part` has
/// those whose place divided by `parts` leaves the remainder `part`.
///
/// There are 1 to 32 parts, numbered from 0. So the parts share no chunk, together they have all of them, and none
/// has two chunks more than another. A part may have none.
pub fn deal(needed: &ChunkSet, parts: u32, part: u32) -> ChunkSet
    requires part { part < parts }
    requires parts { parts ≤ 32 }
    ensures dealt { result ≡ spec.deal needed.now parts part }
    ensures size { length result
        ≡ length needed.now / parts + (if nat_lt part (length needed.now % parts) then 1 else 0) }
{
    // The contract of `len` says that members rise, so a set is the list that its definition names.
    let _needed = needed.len();
    let mut dealt = ChunkSet::empty();
    let mut place = 0;
    for c in 0..1024 {
        if needed.has(c) {
            if place % parts == part {
                dealt.insert(c);
            }
            place += 1;
        }
    }
    let _dealt = dealt.len();
    dealt
}
