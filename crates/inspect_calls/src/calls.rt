// What the words ask for, and its answer.
ghost use Rattle.command_words.specs.Matched.{texts};
ghost use Rattle.inspect_calls.specs.Answers.{Answers, IsRefusal, IsReplyTo};
ghost use Rattle.inspect_words.specs.Asked.{HasLimits, asked_view};
ghost use Rattle.inspect_calls.specs.Saying.{IsSaid, over};
ghost use Rattle.inspect_calls.specs.declared.reply.Reply.{Reply};

use crate::drawing::drawing;
use crate::explaining::explanation;
use crate::judging::judgement;
use crate::reply::{Reply, say};
use crate::settings::setting_said;
use crate::story_judging::story_judgement;
use coop_outside::{Shelf, Sink};
use inspect_story::Freedom;
use inspect_words::{Asked, Refused, asked_of};
use std::alloc::Global;
use std::hash::RandomState;
use std::thread::Threads;

/// Does what the words ask for and says it: an answer on standard output, all else on standard error. It answers the
/// status that the program ends with. The whole text is made before any of it is written.
pub fn inspect<F: Shelf, O: Sink, E: Sink, R: Threads + Sync>(
    rt: &R,
    alloc: Global,
    keys: RandomState,
    words: &[String],
    shelf: &mut F,
    out: &mut O,
    err: &mut E,
) -> u8
    ensures { (reply : Reply)
        × IsReplyTo (texts words.now) (F.held shelf.old) (F.faults shelf.old) (F.faults shelf.new) reply
        × IsSaid reply (over (O.taken out.old) (O.taken out.new) (O.faults out.old) (O.faults out.new))
        (over (E.taken err.old) (E.taken err.new) (E.faults err.old) (E.faults err.new)) result }
{
    let reply = reply_to(rt, alloc, keys, words, shelf);
    say(&reply, out, err)
}

// What is said to the words.
fn reply_to<F: Shelf, R: Threads + Sync>(
    rt: &R,
    alloc: Global,
    keys: RandomState,
    words: &[String],
    shelf: &mut F,
) -> Reply
    ensures { IsReplyTo (texts words.now) (F.held shelf.old) (F.faults shelf.old) (F.faults shelf.new) result }
{
    match asked_of(alloc, words) {
        Ok(asked) => answered(rt, alloc, keys, asked, shelf),
        Err(refused) => refusal(alloc, &refused),
    }
}

// What is said to what is asked for.
fn answered<F: Shelf, R: Threads + Sync>(
    rt: &R,
    alloc: Global,
    keys: RandomState,
    asked: Asked<'_>,
    shelf: &mut F,
) -> Reply
    requires limits { HasLimits (asked_view asked) }
    ensures { Answers (asked_view asked.entry) (F.held shelf.old) (F.faults shelf.old) (F.faults shelf.new) result }
{
    match asked {
        Asked::Explain { run } => explanation(rt, alloc, keys, &run, shelf),
        Asked::Judge { run, output } => judgement(rt, alloc, keys, &run, output, shelf),
        Asked::Story {
            setting,
            story,
            choices,
            dealing,
        } => {
            let freedom = Freedom { choices, dealing };
            story_judgement(alloc, freedom, setting, story, shelf)
        }
        Asked::Setting { run } => setting_said(rt, alloc, keys, &run, shelf),
        Asked::Draw {
            output,
            window,
            form,
        } => drawing(alloc, output, window, form, shelf),
    }
}

// What is said where the words are refused.
fn refusal(alloc: Global, refused: &Refused<'_>) -> Reply
    ensures { IsRefusal refused.now result }
{
    match format!(in alloc; "{refused}") {
        Ok(text) => Reply {
            text: text.into_bytes(),
            status: refused.status(),
            is_fault: refused.is_fault(),
        },
        Err(_) => Reply::memory(alloc),
    }
}
