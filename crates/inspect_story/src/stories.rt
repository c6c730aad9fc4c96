// The story of a text, and that a story has one text.
ghost use Rattle.std.specs.Prelude.{◌≡◌, ◌≤◌, ◌^◌, IfErr, IfOk, List, length};
ghost use Rattle.std.specs.List.{AllByRecursion};
ghost use Rattle.story_text.specs.Reading.{Fits, FitsWhy, IsFirstBad};
ghost use Rattle.story_text.specs.Text.{story_text};
ghost use Rattle.scan_story.specs.declared.entry.Entry.{Entry as EntryOf};
ghost use Rattle.inspect_story.specs.Reading.{TellsStory};

use inspect_referee::Memory;
use scan_story::{Entry, Why};
use std::alloc::Global;
use story_text::{StoryRefusal, read_story};

/// Stories with one text are one story: a law, for whoever reads a text. It does nothing.
pub fn one_story()
    ensures { (a b : List EntryOf) → AllByRecursion Fits a → AllByRecursion Fits b → story_text a ≡ story_text b
        → a ≡ b }
{}

// The counts of a reason have 64 bits, and its number 32: its type says so.
fn reason_fits(why: Why)
    ensures { FitsWhy why }
{
    match why {
        Why::Fault {
            before: _before,
            after: _after,
        } => {}
        Why::Damage { word: _word } => {}
    }
}

// The numbers of an entry have 32 bits: its type says so.
fn fits(entry: Entry)
    ensures { Fits entry }
{
    match entry {
        Entry::Register {
            worker: _w,
            query: _q,
        } => {}
        Entry::Plan {
            worker: _w,
            query: _q,
            chunk: _c,
        } => {}
        Entry::Evict {
            worker: _w,
            chunk: _c,
        } => {}
        Entry::Fill {
            worker: _w,
            frame: _f,
            piece: _p,
        } => {}
        Entry::Filled {
            worker: _w,
            frame: _f,
            piece: _p,
        } => {}
        Entry::Failed {
            worker: _w,
            query: _q,
            piece: _p,
            why,
        } => reason_fits(why),
        Entry::Deliver {
            worker: _w,
            query: _q,
            chunk: _c,
        } => {}
        Entry::Release {
            worker: _w,
            query: _q,
            chunk: _c,
        } => {}
        Entry::Stop {
            worker: _w,
            query: _q,
        } => {}
        Entry::End {
            worker: _w,
            query: _q,
        } => {}
    }
}

/// The numbers of the entries of a story have 32 bits, and its counts 64: a law about values. It takes no memory.
pub fn numbers_fit(story: &[Entry])
    ensures fit { AllByRecursion Fits story.now }
{
    for entry in story {
        fits(*entry);
    }
}

/// The story of a text of at most 2^30 bytes, or the first of its lines, from 1, that is no entry's. The error is out
/// of memory.
pub fn story_in(alloc: Global, text: &[u8]) -> Result<Result<Vec<Entry>, u32>, Memory>
    requires short { length text.now ≤ 2 ^ 30 }
    ensures fits { IfOk result (λ r. IfOk r (λ es. AllByRecursion Fits es.items)) }
    ensures text { IfOk result (λ r. IfOk r (λ es. text.now ≡ story_text es.items)) }
    ensures bad { IfOk result (λ r. IfErr r (IsFirstBad text.now)) }
    ensures told { IfOk result (λ r. (story : List EntryOf) → AllByRecursion Fits story
        → text.now ≡ story_text story → TellsStory story r) }
{
    one_story();
    match read_story(alloc, text) {
        Ok(story) => {
            numbers_fit(&story);
            Ok(Ok(story))
        }
        Err(StoryRefusal::BadLine { line }) => Ok(Err(line)),
        Err(StoryRefusal::Memory) => Err(Memory),
    }
}
