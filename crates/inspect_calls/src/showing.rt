// Which entries of a story are shown.
ghost use Rattle.std.specs.Prelude.{◌≡◌, IfOk};
ghost use Rattle.inspect_calls.specs.Showing.{IsPastEnd, behind_line, behind_of, behind_text, lies_behind, view_of};

use crate::lines::numbered;
use crate::reply::Reply;
use inspect_picture::View;
use inspect_words::Window;
use std::alloc::{AllocError, Global};

/// The word that names an entry behind the last one, with the number.
#[derive(Clone, Copy, Debug, PartialEq, Eq)]
pub(crate) enum Behind {
    From(u32),
    To(u32),
}

// The entry, where it lies behind the last of so many.
fn lies_behind(entry: Option<u32>, count: u32) -> Option<u32>
    ensures { result ≡ lies_behind entry count }
{
    match entry {
        Some(number) => {
            if count < number {
                return Some(number);
            }
            None
        }
        None => None,
    }
}

/// The first word that names an entry behind the last of so many.
pub(crate) fn behind_of(window: Window, count: u32) -> Option<Behind>
    ensures { result ≡ behind_of window count }
{
    let from = lies_behind(window.from, count);
    let to = lies_behind(window.to, count);
    match (from, to) {
        (Some(number), _) => Some(Behind::From(number)),
        (None, Some(number)) => Some(Behind::To(number)),
        (None, None) => None,
    }
}

/// What of so many entries is shown: all with the begin, where no word says which.
pub(crate) fn view_of(window: Window, count: u32) -> View
    ensures { result ≡ view_of window count }
{
    match (window.from, window.to) {
        (None, None) => View {
            from: 0,
            to: u32::MAX,
        },
        (Some(from), None) => View { from, to: count },
        (None, Some(to)) => View { from: 1, to },
        (Some(from), Some(to)) => View { from, to },
    }
}

// The line that says so of the number behind these words.
fn behind_text(alloc: Global, words: &[u8], number: u32, count: u32) -> Result<Vec<u8>, AllocError>
    ensures { IfOk result (λ text. text.items ≡ behind_text words.now number count) }
{
    let lies = b" lies behind the last entry, ";
    let mut text = numbered(alloc, words, number as u64, lies)?;
    let last = numbered(alloc, b"", count as u64, b"\n")?;
    text.extend_from_slice(&last)?;
    Ok(text)
}

// The line that says so.
fn behind_line(alloc: Global, behind: Behind, count: u32) -> Result<Vec<u8>, AllocError>
    ensures { IfOk result (λ text. text.items ≡ behind_line behind count) }
{
    match behind {
        Behind::From(number) => behind_text(alloc, b"error: --from ", number, count),
        Behind::To(number) => behind_text(alloc, b"error: --to ", number, count),
    }
}

/// What is said of a word that names an entry behind the last of so many.
pub(crate) fn past_end(alloc: Global, behind: Behind, count: u32) -> Reply
    ensures { IsPastEnd behind count result }
{
    match behind_line(alloc, behind, count) {
        Ok(text) => Reply {
            text,
            status: 2,
            is_fault: true,
        },
        Err(_) => Reply::memory(alloc),
    }
}
