// Why the words of the command line could not be had.
ghost use Rattle.std.specs.IoError.{error_kind};
ghost use Rattle.coop_inspect.specs.Words.{IsUnreadFor};

use inspect_calls::Reply;
use std::alloc::Global;
use std::io;

/// What is said where the words could not be had: one that isn't UTF-8 is a faulty command line, and all else is out of
/// memory.
pub(crate) fn unread(alloc: Global, error: &io::Error) -> Reply
    ensures { IsUnreadFor (error_kind error.now) result }
{
    if error.kind() == io::ErrorKind::InvalidData {
        return Reply::fault(alloc, 2, b"error: a word is not UTF-8\n");
    }
    Reply::memory(alloc)
}
