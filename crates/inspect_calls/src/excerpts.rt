// Lines of a text, as they are shown.
ghost use Rattle.std.specs.Prelude.{◌≡◌, ◌≤◌, ◌<◌, ◌++◌, IfOk, IsCharBoundary, IsUtf8, List, OnOk, length, ℕ};
ghost use Rattle.inspect_calls.specs.Excerpts as spec;
ghost use Rattle.inspect_calls.specs.Excerpts.{HasWords, IsBehind, IsFront, IsShown, TellsFound, TellsParting};

use crate::lines::push_number;
use inspect_verdict::Parting;
use std::alloc::AllocError;

/// How many bytes of a line are shown at most.
const MOST_SHOWN: usize = 200;

/// How many bytes are shown before the one where two lines part, where that lies too far behind.
const SHOWN_BEFORE: usize = 100;

// The words of a line, and whether it has an end.
fn words_of(line: &[u8]) -> (&[u8], bool)
    ensures { HasWords line.now result.0.now result.1 }
{
    if line.is_empty() {
        return (line, false);
    }
    let last = line.len() - 1;
    if line[last] == b'\n' {
        return (&line[..last], true);
    }
    (line, false)
}

// A text from a character on that begins at this byte, from 0, or before it.
fn behind_at(text: &[u8], at: usize) -> &[u8]
    ensures { IsBehind text.now at result.now }
{
    match str::from_utf8(text) {
        Ok(chars) => &text[chars.floor_char_boundary(at)..],
        Err(_) => &text[at.min(text.len())..],
    }
}

// How many bytes of a text are shown that has more than may be: up to the end of a character.
fn shown_len(text: &[u8]) -> usize
    requires { 200 < length text.now }
    ensures { (result ≤ 200) × (IsUtf8 text.now → IsCharBoundary text.now result) }
{
    match str::from_utf8(text) {
        Ok(chars) => chars.floor_char_boundary(MOST_SHOWN),
        Err(_) => MOST_SHOWN,
    }
}

// The beginning of a text that is shown, which ends with a character.
fn front_of(text: &[u8]) -> &[u8]
    ensures { IsFront text.now result.now }
{
    if text.len() <= MOST_SHOWN {
        return text;
    }
    let end = shown_len(text);
    &text[..end]
}

// Two points, where something is left out.
fn points_if(left_out: bool) -> &'static [u8]
    ensures { result.now ≡ spec.points_if left_out }
{
    if left_out {
        b"..".as_slice()
    } else {
        b"".as_slice()
    }
}

// The end of a line.
fn end_words(has_end: bool, is_empty: bool) -> &'static [u8]
    ensures { result.now ≡ spec.end_words has_end is_empty }
{
    if is_empty {
        return b"the end".as_slice();
    }
    if has_end {
        b"".as_slice()
    } else {
        b" and the end".as_slice()
    }
}

// Puts a line at the end, from a byte on.
fn push_line(text: &mut Vec<u8>, line: &[u8], at: usize) -> Result<(), AllocError>
    ensures { OnOk result ((shown : List ℕ) × IsShown line.now at shown × (text.new.items ≡ text.old.items ++ shown)) }
{
    let (words, has_end) = words_of(line);
    let rest = behind_at(words, at);
    let front = front_of(rest);
    text.extend_from_slice(points_if(rest.len() < words.len()))?;
    text.extend_from_slice(front)?;
    text.extend_from_slice(points_if(front.len() < rest.len()))?;
    text.extend_from_slice(end_words(has_end, line.len() < 1))?;
    Ok(())
}

/// Words about a text, with the line that stands there.
pub(crate) fn found_text(words: Vec<u8>, line: &[u8]) -> Result<Vec<u8>, AllocError>
    ensures { IfOk result (λ text. TellsFound words.items line.now text.items) }
{
    let mut text = words;
    text.extend_from_slice(b", found ")?;
    push_line(&mut text, line, 0)?;
    text.extend_from_slice(b"\n")?;
    Ok(text)
}

// From where on two lines are shown that part at this byte, from 1.
fn shown_from(byte: usize) -> usize
    ensures { result ≡ spec.shown_from byte }
{
    if byte > MOST_SHOWN {
        return byte - SHOWN_BEFORE - 1;
    }
    0
}

/// Words about a text, with the byte from which on it parts from what should stand there, and both lines.
pub(crate) fn parting_text(words: Vec<u8>, parting: &Parting) -> Result<Vec<u8>, AllocError>
    ensures { IfOk result (λ text. TellsParting words.items parting.now text.items) }
{
    let at = shown_from(parting.byte);
    let mut text = words;
    push_number(&mut text, b", from byte ", parting.byte as u64)?;
    text.extend_from_slice(b" on: expected ")?;
    push_line(&mut text, parting.expected.as_slice(), at)?;
    text.extend_from_slice(b", found ")?;
    push_line(&mut text, parting.found.as_slice(), at)?;
    text.extend_from_slice(b"\n")?;
    Ok(text)
}
