// The words as clap and coop_cli read them.
ghost use Rattle.std.specs.Prelude.{◌≡◌, IfErr, IfOk, [], Some, drop};
ghost use Rattle.clap.specs.Faults.{fault_of};
ghost use Rattle.clap.specs.Matches.{found_of};
ghost use Rattle.clap.specs.Simple.{subcommand_of, subcommand_rows_of};
ghost use Rattle.clap.specs.Walk.{rows_of};
ghost use Rattle.command_words.specs.Matched.{texts};
ghost use Rattle.inspect_words.specs.Asked.{HasLimits, IsRefusedBy, IsRefusedFor, IsRunRefused, IsSaidOf, asked_by};
ghost use Rattle.inspect_words.specs.Asked.{asked_in, asked_of, asked_view, draw_from, draw_of, explain_of, judge_of};
ghost use Rattle.inspect_words.specs.Asked.{setting_of};
ghost use Rattle.inspect_words.specs.Command.{inspect};

use crate::asked::Asked;
use crate::command::command;
use crate::culprit::{Culprit, bare_in, order_culprit, value_in};
use crate::form::form_of;
use crate::refused::Refused;
use crate::story_words::{behind_story, story_asked};
use crate::window::window_of;
use clap::ArgMatches;
use clap::error::ErrorKind;
use command_words::{Call, Refused as RunRefused, options_of};
use std::alloc::Global;

/// What the words after the program's name ask for.
///
/// # Errors
///
/// `Said` exactly where clap finds a fault in the words, or where they ask for help or the version; `Run` only where
/// clap takes them and `coop_cli` doesn't take those of the run. `Memory` may come at any time. Nothing is left behind.
pub fn asked_of<'a>(alloc: Global, words: &'a [String]) -> Result<Asked<'a>, Refused<'a>>
    ensures asked { IfOk result (λ a. asked_of (texts words.now) ≡ Some (asked_view a)) }
    ensures limits { IfOk result (λ a. HasLimits (asked_view a)) }
    ensures refused { IfErr result (IsRefusedFor (texts words.now)) }
{
    if let Some(behind) = behind_story(words) {
        return story_asked(alloc, behind);
    }
    plainly_asked(alloc, words)
}

// What words ask for that don't begin with `judge --story`.
fn plainly_asked<'a>(alloc: Global, words: &'a [String]) -> Result<Asked<'a>, Refused<'a>>
    ensures asked { IfOk result (λ a. asked_in (fault_of inspect (texts words.now)) (texts words.now)
        ≡ Some (asked_view a)) }
    ensures limits { IfOk result (λ a. HasLimits (asked_view a)) }
    ensures refused { IfErr result (IsRefusedBy (fault_of inspect (texts words.now))
        (asked_in (fault_of inspect (texts words.now)) (texts words.now))) }
{
    let matches = matches_in(alloc, words)?;
    match matches.subcommand() {
        Some((name, found)) => asked_by(alloc, name, found, behind_name(words)),
        None => Err(Refused::Run(None)),
    }
}

// What the words behind the name of a subcommand ask for.
fn asked_by<'a>(
    alloc: Global,
    name: &str,
    found: &ArgMatches<'a>,
    words: &'a [String],
) -> Result<Asked<'a>, Refused<'a>>
    ensures asked { IfOk result (λ a. asked_by name.now (rows_of (found_of found.now)) (texts words.now)
        ≡ Some (asked_view a)) }
    ensures limits { IfOk result (λ a. HasLimits (asked_view a)) }
    ensures refused { IfErr result (IsRunRefused (asked_by name.now (rows_of (found_of found.now)) (texts words.now))) }
{
    if name == "explain" {
        return explained(alloc, found, words);
    }
    if name == "judge" {
        return judged(alloc, found, words);
    }
    if name == "setting" {
        return setting_told(alloc, found, words);
    }
    drawn(found)
}

// What clap reads of the words.
fn matches_in<'a>(alloc: Global, words: &'a [String]) -> Result<ArgMatches<'a>, Refused<'a>>
    ensures taken { IfOk result (λ m. (fault_of inspect (texts words.now) ≡ [])
        × (subcommand_rows_of m ≡ subcommand_of inspect (texts words.now))) }
    ensures refused { IfErr result (IsSaidOf (fault_of inspect (texts words.now))) }
{
    let command = command(alloc)?;
    match command.try_get_matches_from(words) {
        Ok(matches) => Ok(matches),
        Err(error) => match error.kind() {
            ErrorKind::OutOfMemory => Err(Refused::Memory),
            _ => Err(Refused::Said(error)),
        },
    }
}

// The words behind the subcommand's name.
fn behind_name(words: &[String]) -> &[String]
    ensures { result.now ≡ drop 1 words.now }
{
    match words {
        [] => words,
        [_, behind @ ..] => behind,
    }
}

fn explained<'a>(
    alloc: Global,
    found: &ArgMatches<'a>,
    words: &'a [String],
) -> Result<Asked<'a>, Refused<'a>>
    ensures asked { IfOk result (λ a. explain_of (texts words.now) ≡ Some (asked_view a)) }
    ensures limits { IfOk result (λ a. HasLimits (asked_view a)) }
    ensures refused { IfErr result (IsRunRefused (explain_of (texts words.now))) }
{
    match options_of(alloc, Call::Run, words) {
        Ok(run) => Ok(Asked::Explain { run }),
        Err(RunRefused::Usage) => Err(Refused::Run(culprit_in(found, words))),
        Err(RunRefused::Memory) => Err(Refused::Memory),
    }
}

fn judged<'a>(
    alloc: Global,
    found: &ArgMatches<'a>,
    words: &'a [String],
) -> Result<Asked<'a>, Refused<'a>>
    ensures asked { IfOk result (λ a. judge_of (texts words.now) ≡ Some (asked_view a)) }
    ensures limits { IfOk result (λ a. HasLimits (asked_view a)) }
    ensures refused { IfErr result (IsRunRefused (judge_of (texts words.now))) }
{
    let Some((output, before)) = words.split_last() else {
        return Err(Refused::Run(None));
    };
    match options_of(alloc, Call::RunBoxed, before) {
        Ok(run) => Ok(Asked::Judge { run, output }),
        Err(RunRefused::Usage) => Err(Refused::Run(Some(culprit_in(found, before).unwrap_or(
            Culprit::Last { word: output },
        )))),
        Err(RunRefused::Memory) => Err(Refused::Memory),
    }
}

fn setting_told<'a>(
    alloc: Global,
    found: &ArgMatches<'a>,
    words: &'a [String],
) -> Result<Asked<'a>, Refused<'a>>
    ensures asked { IfOk result (λ a. setting_of (texts words.now) ≡ Some (asked_view a)) }
    ensures limits { IfOk result (λ a. HasLimits (asked_view a)) }
    ensures refused { IfErr result (IsRunRefused (setting_of (texts words.now))) }
{
    match options_of(alloc, Call::RunBoxed, words) {
        Ok(run) => Ok(Asked::Setting { run }),
        Err(RunRefused::Usage) => Err(Refused::Run(culprit_in(found, words))),
        Err(RunRefused::Memory) => Err(Refused::Memory),
    }
}

fn drawn<'a>(found: &ArgMatches<'a>) -> Result<Asked<'a>, Refused<'a>>
    ensures asked { IfOk result (λ a. draw_of (rows_of (found_of found.now)) ≡ Some (asked_view a)) }
    ensures limits { IfOk result (λ a. HasLimits (asked_view a)) }
    ensures refused { IfErr result (IsRunRefused (draw_of (rows_of (found_of found.now)))) }
{
    match found.get_str("OUTPUT") {
        Some(output) => drawn_from(found, output),
        None => Err(Refused::Run(None)),
    }
}

// The same, where OUTPUT is named.
fn drawn_from<'a>(found: &ArgMatches<'a>, output: &'a str) -> Result<Asked<'a>, Refused<'a>>
    ensures asked { IfOk result (λ a. draw_from output.now (rows_of (found_of found.now)) ≡ Some (asked_view a)) }
    ensures limits { IfOk result (λ a. HasLimits (asked_view a)) }
    ensures refused { IfErr result (IsRunRefused (draw_from output.now (rows_of (found_of found.now)))) }
{
    let (from, to) = (found.get_str("from"), found.get_str("to"));
    let form = form_of(found.get_str("html"));
    match window_of(from, to) {
        Some(window) => Ok(Asked::Draw {
            output,
            window,
            form,
        }),
        None => Err(Refused::Run(order_culprit(from, to))),
    }
}

// The word for which coop_cli refuses the words of a run, behind the name of the subcommand, that clap takes.
fn culprit_in<'a>(found: &ArgMatches<'a>, words: &'a [String]) -> Option<Culprit<'a>> {
    if let Some(culprit) = bare_in(words, 2) {
        return Some(culprit);
    }
    value_in(found)
}
