// The words behind `judge --story`.
ghost use Rattle.std.specs.Prelude.{◌≡◌, [], IfErr, IfNone, IfOk, IfSome, None, Option, Some, drop, false};
ghost use Rattle.std.specs.Prelude.{option_map, true};
ghost use Rattle.clap.specs.Faults.{fault_of};
ghost use Rattle.clap.specs.Matches.{found_of};
ghost use Rattle.clap.specs.Simple.{matches_of};
ghost use Rattle.clap.specs.Walk.{rows_of};
ghost use Rattle.command_words.specs.Matched.{texts};
ghost use Rattle.inspect_words.specs.Asked.{AskedIs, HasLimits, IsRefusedBy, IsRunRefused, IsSaidOf, are_names};
ghost use Rattle.inspect_words.specs.Asked.{asked_view, is_left, names_story, story_for, story_in, story_of};
ghost use Rattle.inspect_words.specs.Asked.{story_with};
ghost use Rattle.inspect_words.specs.Command.{story};

use crate::asked::Asked;
use crate::command::story_command;
use crate::culprit::Culprit;
use crate::refused::Refused;
use clap::ArgMatches;
use clap::error::ErrorKind;
use std::alloc::Global;

// Whether these are the words `judge --story`.
fn are_names(first: &str, second: &str) -> bool
    ensures { result ≡ are_names first.now second.now }
{
    first == "judge" && second == "--story"
}

/// The words behind the first two, where these are `judge --story`.
pub(crate) fn behind_story(words: &[String]) -> Option<&[String]>
    ensures some { IfSome result (λ behind. behind.now ≡ drop 2 words.now) }
    ensures names { IfSome result (λ behind. names_story (texts words.now) ≡ true) }
    ensures none { IfNone result (names_story (texts words.now) ≡ false) }
{
    let [first, second, behind @ ..] = words else {
        return None;
    };
    if are_names(first.as_str(), second.as_str()) {
        return Some(behind);
    }
    None
}

// What clap reads of the words.
fn matches_in<'a>(alloc: Global, words: &'a [String]) -> Result<ArgMatches<'a>, Refused<'a>>
    ensures taken { IfOk result (λ m. (fault_of story (texts words.now) ≡ [])
        × (rows_of (found_of m) ≡ matches_of story (texts words.now))) }
    ensures refused { IfErr result (IsSaidOf (fault_of story (texts words.now))) }
{
    let command = story_command(alloc)?;
    match command.try_get_matches_from(words) {
        Ok(matches) => Ok(matches),
        Err(error) => match error.kind() {
            ErrorKind::OutOfMemory => Err(Refused::Memory),
            _ => Err(Refused::Said(error)),
        },
    }
}

// Whether a value leaves to the story what it is of.
fn is_left(word: Option<&str>) -> Option<bool>
    ensures { result ≡ is_left (option_map (λ s. s.now) word.entry) }
{
    match word {
        None => Some(false),
        Some("any") => Some(true),
        Some(_) => None,
    }
}

// What is asked for with SETTING and STORY, where these are the values of `--policy` and of `--dealt`.
fn story_with<'a>(
    setting: &'a str,
    story: &'a str,
    policy: Option<&'a str>,
    dealt: Option<&'a str>,
) -> Result<Asked<'a>, Refused<'a>>
    ensures asked { IfOk result (λ a. story_with setting.now story.now (option_map (λ s. s.now) policy.entry)
        (option_map (λ s. s.now) dealt.entry) ≡ Some (asked_view a)) }
    ensures limits { IfOk result (λ a. HasLimits (asked_view a)) }
    ensures refused { IfErr result (IsRunRefused (story_with setting.now story.now
        (option_map (λ s. s.now) policy.entry) (option_map (λ s. s.now) dealt.entry))) }
{
    let Some(choices) = is_left(policy) else {
        return Err(not_any("--policy", policy));
    };
    let Some(dealing) = is_left(dealt) else {
        return Err(not_any("--dealt", dealt));
    };
    Ok(Asked::Story {
        setting,
        story,
        choices,
        dealing,
    })
}

// The refusal of a value that isn't `any`.
fn not_any<'a>(name: &'static str, value: Option<&'a str>) -> Refused<'a>
    ensures { (asked : Option AskedIs) → asked ≡ None → IsRunRefused asked result }
{
    match value {
        Some(value) => Refused::Run(Some(Culprit::NotAny { name, value })),
        None => Refused::Run(None),
    }
}

// What is asked for with what clap reads of the words.
fn story_of<'a>(found: &ArgMatches<'a>) -> Result<Asked<'a>, Refused<'a>>
    ensures asked { IfOk result (λ a. story_of (rows_of (found_of found.now)) ≡ Some (asked_view a)) }
    ensures limits { IfOk result (λ a. HasLimits (asked_view a)) }
    ensures refused { IfErr result (IsRunRefused (story_of (rows_of (found_of found.now)))) }
{
    match found.get_str("SETTING") {
        Some(setting) => story_for(found, setting),
        None => Err(Refused::Run(None)),
    }
}

// The same, where SETTING is named.
fn story_for<'a>(found: &ArgMatches<'a>, setting: &'a str) -> Result<Asked<'a>, Refused<'a>>
    ensures asked { IfOk result (λ a. story_for setting.now (rows_of (found_of found.now)) ≡ Some (asked_view a)) }
    ensures limits { IfOk result (λ a. HasLimits (asked_view a)) }
    ensures refused { IfErr result (IsRunRefused (story_for setting.now (rows_of (found_of found.now)))) }
{
    let (policy, dealt) = (found.get_str("policy"), found.get_str("dealt"));
    match found.get_str("STORY") {
        Some(story) => story_with(setting, story, policy, dealt),
        None => Err(Refused::Run(None)),
    }
}

/// What the words behind `judge --story` ask for.
pub(crate) fn story_asked<'a>(alloc: Global, words: &'a [String]) -> Result<Asked<'a>, Refused<'a>>
    ensures asked { IfOk result (λ a. story_in (fault_of story (texts words.now)) (texts words.now)
        ≡ Some (asked_view a)) }
    ensures limits { IfOk result (λ a. HasLimits (asked_view a)) }
    ensures refused { IfErr result (IsRefusedBy (fault_of story (texts words.now))
        (story_in (fault_of story (texts words.now)) (texts words.now))) }
{
    let matches = matches_in(alloc, words)?;
    story_of(&matches)
}
