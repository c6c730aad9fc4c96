// The words that a program is started with.
ghost use Rattle.std.specs.Prelude.{◌≡◌, drop};

use std::{env, io};

/// All words of the command line, with the program's name.
///
/// The error is that of a word that isn't UTF-8, `InvalidData`, or of memory that ran out.
pub fn all_words(rt: &HostRuntime) -> io::Result<Vec<String>> {
    let mut all = Vec::new(rt.alloc());
    for word in env::args(rt)? {
        all.push(word)?;
    }
    Ok(all)
}

/// The words behind the first one, which is the program's name.
pub fn behind_name(all: &[String]) -> &[String]
    ensures words { result.now ≡ drop 1 all.now }
{
    match all {
        [] => all,
        [_, words @ ..] => words,
    }
}
