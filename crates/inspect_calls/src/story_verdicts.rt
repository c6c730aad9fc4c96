// The text of a verdict on a story in a setting.
ghost use Rattle.std.specs.Prelude.{◌≡◌, IfOk};
ghost use Rattle.inspect_calls.specs.Excerpts.{TellsFound};
ghost use Rattle.inspect_calls.specs.StoryVerdicts as spec;
ghost use Rattle.inspect_verdict.specs.Lines.{line_in};

use crate::excerpts::found_text;
use crate::lines::numbered;
use crate::setting_faults::setting_fault_text;
use crate::verdicts::{illegal_words, push_counts};
use inspect_referee::Counts;
use inspect_story::StoryVerdict;
use inspect_verdict::line_in;
use std::alloc::{AllocError, Global};

/// 0 where the story is right, 3 where the setting is refused, else 1.
pub(crate) fn status_of(verdict: &StoryVerdict) -> u8
    ensures { result ≡ spec.verdict_status verdict.now }
{
    match verdict {
        StoryVerdict::Legal { .. } => 0,
        StoryVerdict::NoSetting(_) => 3,
        _ => 1,
    }
}

/// Whether it is told on standard error.
pub(crate) fn is_refusal(verdict: &StoryVerdict) -> bool
    ensures { result ≡ spec.is_refusal verdict.now }
{
    matches!(verdict, StoryVerdict::NoSetting(_))
}

// The lines of a right story.
fn right_text(alloc: Global, entries: u64, counts: &Counts) -> Result<Vec<u8>, AllocError>
    ensures { IfOk result (λ text. text.items ≡ spec.right_text entries counts.now) }
{
    let mut text = numbered(alloc, b"legal: ", entries, b" entries")?;
    push_counts(&mut text, counts)?;
    text.extend_from_slice(b"\n")?;
    Ok(text)
}

// The words of a fault that begins below the count that the last one left.
fn fell_words(alloc: Global, line: u64, last: u64) -> Result<Vec<u8>, AllocError>
    ensures { IfOk result (λ text. text.items ≡ spec.fell_words line last) }
{
    let text = format!(in alloc;
        "not legal: line {line} may not come: the count of faults had come to {last} before"
    );
    match text {
        Ok(text) => Ok(text.into_bytes()),
        Err(_) => Err(AllocError),
    }
}

// The line that a verdict tells.
fn line_of(verdict: &StoryVerdict) -> u64
    ensures { result ≡ spec.verdict_line verdict.now }
{
    match verdict {
        StoryVerdict::Legal { .. } | StoryVerdict::NoSetting(_) => 0,
        StoryVerdict::NotStory { line } | StoryVerdict::NotWhole { line } => *line,
        StoryVerdict::Illegal { line, .. } | StoryVerdict::CountFell { line, .. } => *line,
    }
}

// The words of a verdict that is a no.
fn words_of(alloc: Global, verdict: &StoryVerdict) -> Result<Vec<u8>, AllocError>
    ensures { IfOk result (λ text. text.items ≡ spec.verdict_words verdict.now) }
{
    match verdict {
        StoryVerdict::Legal { .. } | StoryVerdict::NoSetting(_) => Ok(Vec::new(alloc)),
        StoryVerdict::NotStory { line } => {
            numbered(alloc, b"not legal: line ", *line, b" is no entry")
        }
        StoryVerdict::Illegal { line, reason } => illegal_words(alloc, *line, *reason),
        StoryVerdict::CountFell { line, last } => fell_words(alloc, *line, *last),
        StoryVerdict::NotWhole { line } => numbered(
            alloc,
            b"not legal: a query isn't over, or something is left open, at the end before line ",
            *line,
            b"",
        ),
    }
}

// The line that tells a verdict that is a no.
fn no_text(alloc: Global, verdict: &StoryVerdict, story: &[u8]) -> Result<Vec<u8>, AllocError>
    ensures { IfOk result (λ text. TellsFound (spec.verdict_words verdict.now)
        (line_in (spec.verdict_line verdict.now) story.now) text.items) }
{
    let words = words_of(alloc, verdict)?;
    found_text(words, line_in(story, line_of(verdict)))
}

/// The lines that tell a verdict on STORY.
pub(crate) fn text_of(
    alloc: Global,
    verdict: &StoryVerdict,
    story: &[u8],
) -> Result<Vec<u8>, AllocError>
    ensures { IfOk result (λ text. spec.IsVerdictText story.now verdict.now text.items) }
{
    match verdict {
        StoryVerdict::Legal { entries, counts } => right_text(alloc, *entries, counts),
        StoryVerdict::NoSetting(fault) => setting_fault_text(alloc, *fault),
        other => no_text(alloc, other, story),
    }
}
