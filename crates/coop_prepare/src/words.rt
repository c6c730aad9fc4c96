// The words of the command line, and why there are none to work on.
ghost use Rattle.std.specs.IoError.{error_kind};
ghost use Rattle.std.specs.Prelude.{◌≡◌, drop};
ghost use Rattle.coop_prepare.specs.Replies.{IsRefusal, IsUnreadFor};

use crate::reply::Reply;
use prepare_words::Refused;
use std::alloc::Global;
use std::{env, io};

/// All words of the command line, with the program's name.
///
/// The error is that of a word that isn't UTF-8, `InvalidData`, or of memory that ran out.
pub(crate) fn all_words(rt: &HostRuntime) -> io::Result<Vec<String>> {
    let mut all = Vec::new(rt.alloc());
    for word in env::args(rt)? {
        all.push(word)?;
    }
    Ok(all)
}

/// The words behind the first one, which is the program's name.
pub(crate) fn behind_name(all: &[String]) -> &[String]
    ensures { result.now ≡ drop 1 all.now }
{
    match all {
        [] => all,
        [_, words @ ..] => words,
    }
}

/// What is said where the words could not be had: one that isn't UTF-8 is a faulty command line, and all else is out of
/// memory.
pub(crate) fn unread(alloc: Global, error: &io::Error) -> Reply
    ensures { IsUnreadFor (error_kind error.now) result }
{
    if error.kind() == io::ErrorKind::InvalidData {
        return Reply::fault(alloc, 2, b"error: a word is not UTF-8\n");
    }
    Reply::memory(alloc)
}

/// What is said where the words are refused.
pub(crate) fn refusal(alloc: Global, refused: &Refused<'_>) -> Reply
    ensures { IsRefusal refused.now result }
{
    match format!(in alloc; "{refused}") {
        Ok(text) => Reply {
            text: text.into_bytes(),
            status: refused.status(),
            is_fault: refused.is_fault(),
        },
        Err(_) => Reply::memory(alloc),
    }
}
