// The files OUTPUT, SETTING and STORY.
ghost use Rattle.std.specs.Prelude.{◌≡◌, ◌≤◌, IfErr, IfOk, length};
ghost use Rattle.inspect_calls.specs.Output.{IsReadAs, IsUnread, IsUnreadOf};

use crate::file::File;
use crate::reply::Reply;
use coop_outside::{Bytes, ReadFault, Shelf, read_all};
use std::alloc::Global;

/// The most bytes that OUTPUT has, and SETTING and STORY: 256 MiB.
pub(crate) const MOST_OUTPUT_BYTES: u64 = 268435456;

/// The bytes of a file, or what is said where they aren't read.
pub(crate) fn read_file<F: Shelf>(
    alloc: Global,
    file: File,
    name: &str,
    shelf: &mut F,
) -> Result<Bytes, Reply>
    ensures read { IfOk result (IsReadAs (F.held shelf.old) name.now) }
    ensures within { IfOk result (λ text. length text ≤ MOST_OUTPUT_BYTES) }
    ensures unread { IfErr result
        (IsUnreadOf file (F.held shelf.old) name.now (F.faults shelf.old) (F.faults shelf.new)) }
    ensures held { F.held shelf.new ≡ F.held shelf.old }
{
    match read_all(alloc, shelf, name, MOST_OUTPUT_BYTES) {
        Ok(text) => Ok(text),
        Err(ReadFault::Fault) => Err(Reply::fault(alloc, 4, file.fault_line())),
        Err(ReadFault::TooLong { limit: _ }) => Err(Reply::fault(alloc, 9, file.long_line())),
        Err(ReadFault::Memory) => Err(Reply::memory(alloc)),
    }
}

/// The bytes of OUTPUT, or what is said where they aren't read.
pub(crate) fn read_output<F: Shelf>(
    alloc: Global,
    name: &str,
    shelf: &mut F,
) -> Result<Bytes, Reply>
    ensures read { IfOk result (IsReadAs (F.held shelf.old) name.now) }
    ensures within { IfOk result (λ text. length text ≤ MOST_OUTPUT_BYTES) }
    ensures unread { IfErr result (IsUnread (F.held shelf.old) name.now (F.faults shelf.old) (F.faults shelf.new)) }
{
    read_file(alloc, File::Output, name, shelf)
}
