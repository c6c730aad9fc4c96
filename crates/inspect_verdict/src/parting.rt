// Where two texts part.
ghost use Rattle.std.specs.Prelude.{◌≡◌, ◌≢◌, ◌++◌, ℕ, List, IfNone, IfOk, IfSome, false, true};
ghost use Rattle.inspect_verdict.specs.Ends.{EndsWith, PartsFrom};
ghost use Rattle.inspect_verdict.specs.Lines as spec;
ghost use Rattle.inspect_verdict.specs.Lines.{IsParting};

use crate::ends::line_of_end;
use crate::lines::{common_len, first_line, from_line};
use std::alloc::{AllocError, Global};
use table_core::Bytes;

/// Where a text parts from another one, that should stand there.
#[derive(Debug, Drop, PartialEq, Eq)]
pub struct Parting {
    /// The line of the text, from 1.
    pub line: u64,
    /// The byte of the line, from 1, from which on both differ: one behind the longest beginning that they have in
    /// common.
    pub byte: usize,
    /// The line that should stand there, with its line end, where it has one.
    pub expected: Bytes,
    /// The line that stands there, with its line end, where it has one; nothing where the text ends before it.
    pub found: Bytes,
}

/// The ends of a text and of another one from the first byte on in which they differ; what is left of each behind the
/// shorter one where that begins the longer one.
pub(crate) fn ends_apart<'a>(text: &'a [u8], other: &'a [u8]) -> (&'a [u8], &'a [u8])
    ensures end { EndsWith text.now result.0.now }
    ensures parts { text.now ≢ other.now → PartsFrom text.now other.now result.0.now result.1.now }
{
    let both = text.len().min(other.len());
    for place in 0..both {
        if text[place] != other[place] {
            return (&text[place..], &other[place..]);
        }
    }
    (&text[both..], &other[both..])
}

// A line of which so much stands before, and that goes on with the first line of the rest.
fn line_with(alloc: Global, before: &[u8], rest: &[u8]) -> Result<Bytes, AllocError>
    ensures { IfOk result (λ line. line ≡ before.now ++ spec.first_line rest.now) }
{
    let mut line = Vec::from_slice(alloc, before)?;
    line.extend_from_slice(first_line(rest))?;
    Ok(Bytes::new(line))
}

/// Where a text parts from another one, which goes on with `more` where the text goes on with this end.
pub(crate) fn parting_at(
    alloc: Global,
    text: &[u8],
    end: &[u8],
    more: &[u8],
) -> Result<Parting, AllocError>
    requires { EndsWith text.now end.now }
    ensures { IfOk result (λ p. (other : List ℕ) → PartsFrom text.now other end.now more.now
        → IsParting text.now other p) }
{
    let line = line_of_end(text, end);
    let begun = from_line(text, line);
    let before = &begun[..begun.len() - end.len()];
    let found = line_with(alloc, before, end)?;
    let expected = line_with(alloc, before, more)?;
    let byte = common_len(found.as_slice(), expected.as_slice()) + 1;
    Ok(Parting {
        line,
        byte,
        expected,
        found,
    })
}

// Whether two texts are one.
fn is_text(text: &[u8], other: &[u8]) -> bool
    ensures yes { result ≡ true → text.now ≡ other.now }
    ensures no { result ≡ false → text.now ≢ other.now }
{
    text == other
}

/// Where a text parts from another one, that should stand there; none where they are one.
pub(crate) fn parting_of(
    alloc: Global,
    text: &[u8],
    other: &[u8],
) -> Result<Option<Parting>, AllocError>
    ensures same { IfOk result (λ r. IfNone r (text.now ≡ other.now)) }
    ensures parts { IfOk result (λ r. IfSome r (IsParting text.now other.now)) }
{
    if is_text(text, other) {
        return Ok(None);
    }
    let (end, more) = ends_apart(text, other);
    let parting = parting_at(alloc, text, end, more)?;
    Ok(Some(parting))
}
