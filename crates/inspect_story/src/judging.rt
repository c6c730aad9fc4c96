// A story judged in a setting, both as text.
ghost use Rattle.std.specs.Prelude.{◌≡◌, ◌<◌, ◌≤◌, ◌^◌, ℕ, IfOk, IfSome, List, length};
ghost use Rattle.setting_text.specs.Reading.{Spells};
ghost use Rattle.setting_text.specs.Rules.{AreGood, IsGoodHead};
ghost use Rattle.inspect_story.specs.Reading.{IsBegun};
ghost use Rattle.inspect_story.specs.Verdicts as spec;
ghost use Rattle.inspect_story.specs.Verdicts.{IsStoryVerdict};

use crate::begun::{Begun, begun_of};
use crate::falls::{Fall, first_fall};
use crate::freedom::{Freedom, choices_of};
use crate::plain_terms::plain_terms;
use crate::verdict::StoryVerdict;
use inspect_referee::{Counts, Memory, Reason, Ruling, judge};
use setting_text::{PlainSetting, SettingFault, read_setting};
use std::alloc::Global;

// What is said of a story of so many entries that is legal and licensed.
fn at_end(is_whole: bool, entries: u64, whole: bool, counts: Counts) -> StoryVerdict
    requires { entries < 2 ^ 63 }
    ensures { result ≡ spec.at_end is_whole entries whole counts }
{
    if !is_whole {
        return StoryVerdict::NotStory { line: entries + 1 };
    }
    if !whole {
        return StoryVerdict::NotWhole { line: entries + 1 };
    }
    StoryVerdict::Legal { entries, counts }
}

// What is said of the fall of a count.
fn fell_by(fall: Fall) -> StoryVerdict
    requires { fall.place < 2 ^ 63 }
    ensures { result ≡ spec.fell_by fall }
{
    StoryVerdict::CountFell {
        line: fall.place as u64 + 1,
        last: fall.last,
    }
}

// What is said of an entry that may not come, and of the first fall of a count.
fn illegal_by(place: usize, reason: Reason, fall: Option<Fall>) -> StoryVerdict
    requires place { place < 2 ^ 63 }
    requires fall { IfSome fall (λ x. x.place < 2 ^ 63) }
    ensures { result ≡ spec.illegal_by place reason fall }
{
    if let Some(fall) = fall
        && fall.place < place
    {
        return fell_by(fall);
    }
    StoryVerdict::Illegal {
        line: place as u64 + 1,
        reason,
    }
}

// What is said by a ruling on so many entries and the first fall of a count.
fn verdict_by(ruling: Ruling, fall: Option<Fall>, is_whole: bool, entries: u64) -> StoryVerdict
    requires few { entries < 2 ^ 63 }
    requires ruling { spec.StandsBelow (2 ^ 63) ruling }
    requires fall { IfSome fall (λ x. x.place < 2 ^ 63) }
    ensures { result ≡ spec.verdict_by ruling fall is_whole entries }
{
    match ruling {
        Ruling::Illegal { place, reason } => illegal_by(place, reason, fall),
        Ruling::Legal { whole, counts } => match fall {
            Some(fall) => fell_by(fall),
            None => at_end(is_whole, entries, whole, counts),
        },
    }
}

// What is said of the entries with which the text of a story begins, in the setting that a text tells.
fn verdict_on(
    alloc: Global,
    freedom: Freedom,
    plain: &PlainSetting,
    begun: &Begun,
) -> Result<StoryVerdict, Memory>
    requires head { IsGoodHead plain.now.head }
    requires good { AreGood plain.now.head plain.now.needs.items }
    ensures { IfOk result (λ v. (setting story : List ℕ) → Spells setting plain.now
        → IsBegun story begun.now.entries.items begun.now.is_whole → IsStoryVerdict freedom setting story v) }
{
    let entries = begun.entries.as_slice();
    let terms = plain_terms(alloc, freedom, plain, entries)?;
    let choices = choices_of(freedom, plain.head.policy);
    let ruling = judge(alloc, &terms, choices, entries)?;
    let fall = first_fall(entries);
    Ok(verdict_by(ruling, fall, begun.is_whole, entries.len() as u64))
}

/// Whether the text of a story, of at most 2^30 bytes, is a right story in the setting of a text, of which so much is
/// left to it; or the first that stands in the way: first of the setting, then of the story. The error is out of
/// memory.
///
/// `Legal` comes exactly where it is one: the setting contradicts nothing, each entry may follow those before it, and,
/// unless choices are free, takes a choice of the policy; each query is over and nothing is left open; no chunk that is
/// held was disturbed; and the counts of the faults that it names never fall.
pub fn judge_story(
    alloc: Global,
    setting: &[u8],
    story: &[u8],
    freedom: Freedom,
) -> Result<StoryVerdict, Memory>
    requires short { length story.now ≤ 2 ^ 30 }
    ensures { IfOk result (IsStoryVerdict freedom setting.now story.now) }
{
    let plain = match read_setting(alloc, setting) {
        Ok(plain) => plain,
        Err(SettingFault::Memory) => return Err(Memory),
        Err(fault) => return Ok(StoryVerdict::NoSetting(fault)),
    };
    let begun = begun_of(alloc, story)?;
    verdict_on(alloc, freedom, &plain, &begun)
}
