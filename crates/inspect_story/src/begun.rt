// What the text of a story begins with.
ghost use Rattle.std.specs.Prelude.{◌≡◌, ◌==◌, ◌<◌, ◌≤◌, ◌^◌, ◌∷◌, ◌++◌, ℕ, true, IfOk, IfSome, List, length};
ghost use Rattle.std.specs.List.{position, AllByRecursion};
ghost use Rattle.story_text.specs.Reading.{Fits, lacks};
ghost use Rattle.story_text.specs.Text.{story_text};
ghost use Rattle.scan_story.specs.declared.entry.Entry.{Entry as EntryOf};
ghost use Rattle.inspect_story.specs.Reading.{IsBegun};

use crate::stories::story_in;
use inspect_referee::Memory;
use scan_story::Entry;
use std::alloc::Global;

/// The entries with which a text begins.
#[derive(Drop)]
pub(crate) struct Begun {
    pub(crate) entries: Vec<Entry>,
    /// The text ends behind them; else it goes on with a line that is no entry's.
    pub(crate) is_whole: bool,
}

// Where the first line ends.
fn end_of_line(text: &[u8]) -> Option<usize>
    ensures place { result ≡ position (λ b. b == 10) text.now }
    ensures there { IfSome result (λ i. i < length text.now) }
{
    text.iter().position(|b| *b == b'\n')
}

// What stands behind the first line; nothing where no line ends.
fn behind_line(text: &[u8]) -> &[u8]
    ensures { (line rest : List ℕ) → lacks 10 line ≡ true → text.now ≡ line ++ 10 ∷ rest → result.now ≡ rest }
{
    match end_of_line(text) {
        Some(end) => &text[end + 1..],
        None => b"",
    }
}

// What stands behind the first lines, so many, where they are those of entries.
fn behind_entries(text: &[u8], lines: u32) -> &[u8]
    ensures { (es : List EntryOf) (rest : List ℕ) → AllByRecursion Fits es → text.now ≡ story_text es ++ rest
        → length es ≡ lines → result.now ≡ rest }
{
    let mut rest = text;
    for _line in 0..lines {
        rest = behind_line(rest);
    }
    rest
}

// The first lines, so many, where they are those of entries.
fn first_entries(text: &[u8], lines: u32) -> &[u8]
    ensures lines { (es : List EntryOf) (rest : List ℕ) → AllByRecursion Fits es → text.now ≡ story_text es ++ rest
        → length es ≡ lines → result.now ≡ story_text es }
    ensures short { length result.now ≤ length text.now }
{
    let rest = behind_entries(text, lines);
    &text[..text.len().saturating_sub(rest.len())]
}

/// The entries with which a text of at most 2^30 bytes begins, and whether it ends behind them. The error is out of
/// memory.
pub(crate) fn begun_of(alloc: Global, text: &[u8]) -> Result<Begun, Memory>
    requires short { length text.now ≤ 2 ^ 30 }
    ensures { IfOk result (λ b. IsBegun text.now b.entries.items b.is_whole) }
{
    let line = match story_in(alloc, text)? {
        Ok(entries) => {
            return Ok(Begun {
                entries,
                is_whole: true,
            });
        }
        Err(line) => line,
    };
    match story_in(alloc, first_entries(text, line.saturating_sub(1)))? {
        Ok(entries) => Ok(Begun {
            entries,
            is_whole: false,
        }),
        Err(_) => unreachable!(),
    }
}
