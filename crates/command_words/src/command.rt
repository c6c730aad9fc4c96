//! The words as `clap` reads them.
ghost use Rattle.std.specs.Prelude.{◌≡◌, Err, IfOk, None, Some, codes, false};
ghost use Rattle.std.specs.List.{list_any};
ghost use Rattle.clap.specs.Words.{app_of, found_of, rule_of};
ghost use Rattle.command_words.specs.Pairs.{Pairs, is_bare, pairs_of};
ghost use Rattle.command_words.specs.Matched.{HasPairs, texts};
ghost use Rattle.command_words.specs.Knows.{known_to, plain_known};
ghost use Rattle.command_words.specs.Command.{app, given_flag, given_option, given_place, with_options};

use crate::call::{Call, Refused};
use clap::error::ErrorKind;
use clap::{Arg, ArgAction, ArgMatches, Command};
use std::alloc::{AllocError, Global};

/// Reads the words: the matches hold the pairs of names and values that they give.
pub(crate) fn matches_in<'a>(
    alloc: Global,
    call: Call,
    words: &'a [String],
) -> Result<ArgMatches<'a>, Refused>
    ensures ok { IfOk result (λ m. (pairs : Pairs) × (pairs_of (known_to call) (texts words.now) ≡ Some pairs)
        × HasPairs (known_to call) (found_of m) pairs) }
    ensures usage { result ≡ Err Refused.Usage → pairs_of (known_to call) (texts words.now) ≡ None }
{
    if has_bare(words) {
        return Err(Refused::Usage);
    }
    let command = command(alloc, call)?;
    match command.try_get_matches_from(words) {
        Ok(matches) => Ok(matches),
        Err(error) => match error.kind() {
            ErrorKind::OutOfMemory => Err(Refused::Memory),
            _ => Err(Refused::Usage),
        },
    }
}

// Whether a word is empty or the lone `-`, which `clap` would take as a value or a place.
fn has_bare(words: &[String]) -> bool
    ensures { result ≡ list_any is_bare (texts words.now) }
{
    for word in words {
        if is_bare(word.as_str()) {
            return true;
        }
    }
    false
}

fn is_bare(word: &str) -> bool
    ensures { result ≡ is_bare word.now }
{
    match word.as_bytes() {
        [] => true,
        [byte] => *byte == b'-',
        _ => false,
    }
}

// The command with all that the call knows.
fn command<'a>(alloc: Global, call: Call) -> Result<Command<'a>, AllocError>
    ensures { IfOk result (λ c. app_of c ≡ app (codes "coop_cli") (known_to call)) }
{
    let start = Command::new(alloc, "coop_cli")
        .no_binary_name(true)
        .disable_help_flag(true);
    let known = with_known(alloc, start, call)?;
    known.arg(place(alloc, "TABLE"))?.arg(place(alloc, "BATCH"))
}

// The options that the call knows.
fn with_known<'a>(
    alloc: Global,
    command: Command<'a>,
    call: Call,
) -> Result<Command<'a>, AllocError>
    ensures { IfOk result (λ c. app_of c ≡ with_options (app_of command.entry) (known_to call)) }
{
    let plain = with_plain(alloc, command)?;
    match call {
        Call::Run => Ok(plain),
        Call::RunBoxed => plain
            .arg(option(alloc, "policy"))?
            .arg(flag(alloc, "compare")),
    }
}

// The options that both calls know.
fn with_plain<'a>(alloc: Global, command: Command<'a>) -> Result<Command<'a>, AllocError>
    ensures { IfOk result (λ c. app_of c ≡ with_options (app_of command.entry) plain_known) }
{
    command
        .arg(option(alloc, "threads"))?
        .arg(option(alloc, "frames"))?
        .arg(option(alloc, "rows"))?
        .arg(option(alloc, "layout"))?
        .arg(option(alloc, "parts"))?
        .arg(option(alloc, "scratch"))?
        .arg(flag(alloc, "summary"))?
        .arg(flag(alloc, "trace"))
}

fn option<'a>(alloc: Global, name: &'a str) -> Arg<'a>
    ensures rule { rule_of result ≡ given_option name.now }
    ensures local { result.global ≡ false }
{
    Arg::new(alloc, name).long(name).action(ArgAction::Set)
}

fn flag<'a>(alloc: Global, name: &'a str) -> Arg<'a>
    ensures rule { rule_of result ≡ given_flag name.now }
    ensures local { result.global ≡ false }
{
    Arg::new(alloc, name).long(name).action(ArgAction::SetTrue)
}

fn place<'a>(alloc: Global, name: &'a str) -> Arg<'a>
    ensures rule { rule_of result ≡ given_place name.now }
    ensures local { result.global ≡ false }
{
    Arg::new(alloc, name).action(ArgAction::Set).required(true)
}
