// The words as clap reads them.
ghost use Rattle.std.specs.Prelude.{◌≡◌, IfErr, IfOk, [], Ok, Some};
ghost use Rattle.clap.specs.Faults.{fault_of};
ghost use Rattle.clap.specs.Matches.{found_of};
ghost use Rattle.clap.specs.Walk.{rows_of};
ghost use Rattle.clap.specs.Simple.{subcommand_of, subcommand_rows_of};
ghost use Rattle.prepare_words.specs.Asked.{IsRefusedFor, IsRuleFault, asked_of, asked_view, done_by, looked_by};
ghost use Rattle.prepare_words.specs.Asked.{texts, written_by};
ghost use Rattle.prepare_words.specs.Command.{prepare};

use crate::asked::Asked;
use crate::command::command;
use crate::fault::{Fault, Word};
use crate::refused::Refused;
use crate::writing_words::{file_in, writing_of};
use clap::ArgMatches;
use clap::error::ErrorKind;
use std::alloc::Global;

/// What the words after the program's name ask for.
///
/// # Errors
///
/// `Said` exactly where clap finds a fault in the words, or where they ask for help or the version; `Rule` with the
/// first fault in the value of an option, only where clap finds none. `Fault::Memory` may come at any time.
pub fn asked_of<'a>(alloc: Global, words: &'a [String]) -> Result<Asked<'a>, Refused<'a>>
    ensures asked { IfOk result (λ a. asked_of (texts words.now) ≡ Some (Ok (asked_view a))) }
    ensures refused { IfErr result (IsRefusedFor (texts words.now)) }
{
    let matches = matches_in(alloc, words)?;
    match matches.subcommand() {
        Some((name, found)) => asked_by(alloc, name, found),
        None => Err(Refused::Rule(Fault::Value {
            word: Word::File,
            value: "",
        })),
    }
}

// What clap's matches of a subcommand ask for.
fn asked_by<'a>(alloc: Global, name: &str, found: &ArgMatches<'a>) -> Result<Asked<'a>, Refused<'a>>
    ensures asked { IfOk result (λ a. done_by name.now (rows_of (found_of found.now)) ≡ Ok (asked_view a)) }
    ensures refused { IfErr result (IsRuleFault (done_by name.now (rows_of (found_of found.now)))) }
{
    if name == "look" {
        return looked_by(found);
    }
    written_by(alloc, found)
}

// What clap's matches of `look` ask for.
fn looked_by<'a>(found: &ArgMatches<'a>) -> Result<Asked<'a>, Refused<'a>>
    ensures asked { IfOk result (λ a. looked_by (rows_of (found_of found.now)) ≡ Ok (asked_view a)) }
    ensures refused { IfErr result (IsRuleFault (looked_by (rows_of (found_of found.now)))) }
{
    match file_in(found) {
        Ok(file) => Ok(Asked::Look(file)),
        Err(fault) => Err(Refused::Rule(fault)),
    }
}

// What clap's matches of `write` ask for.
fn written_by<'a>(alloc: Global, found: &ArgMatches<'a>) -> Result<Asked<'a>, Refused<'a>>
    ensures asked { IfOk result (λ a. written_by (rows_of (found_of found.now)) ≡ Ok (asked_view a)) }
    ensures refused { IfErr result (IsRuleFault (written_by (rows_of (found_of found.now)))) }
{
    match writing_of(alloc, found) {
        Ok(writing) => Ok(Asked::Write(writing)),
        Err(fault) => Err(Refused::Rule(fault)),
    }
}

// What clap reads of the words.
fn matches_in<'a>(alloc: Global, words: &'a [String]) -> Result<ArgMatches<'a>, Refused<'a>>
    ensures taken { IfOk result (λ m. (fault_of prepare (texts words.now) ≡ [])
        × (subcommand_rows_of m ≡ subcommand_of prepare (texts words.now))) }
    ensures refused { IfErr result (IsRefusedFor (texts words.now)) }
{
    let command = command(alloc)?;
    match command.try_get_matches_from(words) {
        Ok(matches) => Ok(matches),
        Err(error) => match error.kind() {
            ErrorKind::OutOfMemory => Err(Refused::Rule(Fault::Memory)),
            _ => Err(Refused::Said(error)),
        },
    }
}
