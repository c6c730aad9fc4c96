// The text of an export.
ghost use Rattle.std.specs.Prelude.{◌≡◌, ◌+◌, ◌≤◌, IfErr, IfOk, Ok, false, vec_len};
ghost use Rattle.prepare_decode.specs.Decoding.{IsText};
ghost use Rattle.prepare_look.specs.Lines.{line_ends};
ghost use Rattle.coop_prepare.specs.Looking.{IsUndecoded, IsUnread};

use crate::reply::Reply;
use prepare_decode::{BadBytes, Encoding, decode};
use prepare_look::count_lines;
use std::alloc::{AllocError, Global};
use std::io::{ErrorKind, Read};

/// The most bytes of a file that is read whole: 256 MiB.
pub(crate) const MOST_BYTES: u64 = 268435456;

/// All bytes of an input, or what is said where they aren't read.
pub(crate) fn whole_of<R: Read>(alloc: Global, file: &str, input: &mut R) -> Result<Vec<u8>, Reply>
    ensures within { IfOk result (λ text. vec_len text ≤ MOST_BYTES) }
    ensures unread { IfErr result IsUnread }
{
    let mut text = Vec::new(alloc);
    match input.take(MOST_BYTES + 1).read_to_end(&mut text) {
        Ok(_) => {
            if text.len() as u64 > MOST_BYTES {
                return Err(Reply::told(
                    alloc,
                    9,
                    format!(in alloc; "stopped 9: {file} has more than {MOST_BYTES} bytes\n"),
                ));
            }
            return Ok(text);
        }
        Err(error) => {
            if error.kind() == ErrorKind::OutOfMemory {
                return Err(Reply::memory(alloc));
            }
            return Err(Reply::told(
                alloc,
                4,
                format!(in alloc; "stopped 4: {file} can't be read\n"),
            ));
        }
    }
}

/// The text of bytes under an encoding, in UTF-8, or what is said of the first that isn't of it.
pub(crate) fn text_of(alloc: Global, encoding: Encoding, bytes: Vec<u8>) -> Result<Vec<u8>, Reply>
    ensures text { IfOk result (λ text. IsText encoding bytes.items (Ok text.items)) }
    ensures undecoded { IfErr result IsUndecoded }
{
    match decode(alloc, encoding, bytes) {
        Ok(Ok(text)) => Ok(text),
        Ok(Err(bad)) => Err(Reply::told(alloc, 3, bad_line(alloc, encoding, &bad))),
        Err(_) => Err(Reply::memory(alloc)),
    }
}

// The line of bytes that aren't of an encoding.
fn bad_line(alloc: Global, encoding: Encoding, bad: &BadBytes) -> Result<String, AllocError> {
    let (line, place) = (line_behind(bad.before.as_slice()), bad.at as u128 + 1);
    format!(in alloc; "stopped 3: line {line}: byte {place} isn't of {encoding}\n")
}

// The line, from 1, on which stands what is behind a text.
fn line_behind(before: &[u8]) -> u128
    ensures { result ≡ line_ends false before.now + 1 }
{
    count_lines(before).ends as u128 + 1
}
