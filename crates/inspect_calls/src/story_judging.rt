// What is said of a story in a setting.
ghost use Rattle.std.specs.Prelude.{◌≤◌, ◌^◌, length};
ghost use Rattle.inspect_calls.specs.StoryJudging.{AreJudged, IsStoryFrom, IsStoryJudgement, IsStoryTold};

use crate::file::File;
use crate::output::read_file;
use crate::reply::Reply;
use crate::story_verdicts::{is_refusal, status_of, text_of};
use coop_outside::Shelf;
use inspect_story::{Freedom, StoryVerdict, judge_story};
use std::alloc::Global;

/// What is said to `judge --story`: the verdict on the file of the second name as the text of a story, in the setting
/// that the file of the first name tells; or why there is none.
pub(crate) fn story_judgement<F: Shelf>(
    alloc: Global,
    freedom: Freedom,
    setting: &str,
    story: &str,
    shelf: &mut F,
) -> Reply
    ensures { IsStoryJudgement freedom (F.held shelf.old) setting.now story.now (F.faults shelf.old)
        (F.faults shelf.new) result }
{
    match read_file(alloc, File::Setting, setting, shelf) {
        Ok(text) => judged_from(alloc, freedom, text.as_slice(), story, shelf),
        Err(reply) => reply,
    }
}

// The verdict on the file of this name, in the setting of a text.
fn judged_from<F: Shelf>(
    alloc: Global,
    freedom: Freedom,
    setting: &[u8],
    name: &str,
    shelf: &mut F,
) -> Reply
    ensures { IsStoryFrom freedom setting.now (F.held shelf.old) name.now (F.faults shelf.old) (F.faults shelf.new)
        result }
{
    match read_file(alloc, File::Story, name, shelf) {
        Ok(text) => judged(alloc, freedom, setting, text.as_slice()),
        Err(reply) => reply,
    }
}

// The verdict on the texts of a setting and a story, told.
fn judged(alloc: Global, freedom: Freedom, setting: &[u8], story: &[u8]) -> Reply
    requires { length story.now ≤ 2 ^ 28 }
    ensures { AreJudged freedom setting.now story.now result }
{
    match judge_story(alloc, setting, story, freedom) {
        Ok(verdict) => told(alloc, &verdict, story),
        Err(_) => Reply::memory(alloc),
    }
}

fn told(alloc: Global, verdict: &StoryVerdict, story: &[u8]) -> Reply
    ensures { IsStoryTold story.now verdict.now result }
{
    match text_of(alloc, verdict, story) {
        Ok(text) => Reply {
            text,
            status: status_of(verdict),
            is_fault: is_refusal(verdict),
        },
        Err(_) => Reply::memory(alloc),
    }
}
