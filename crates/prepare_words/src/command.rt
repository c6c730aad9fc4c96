// The command, as clap has it.
ghost use Rattle.std.specs.Prelude.{◌≡◌, IfOk};
ghost use Rattle.clap.specs.Simple.{App, app_of};
ghost use Rattle.prepare_words.specs.Command.{IsCommand, date_rules, export_place, look};
ghost use Rattle.prepare_words.specs.Command.{number_rules, prepare, record_rules};
ghost use Rattle.prepare_words.specs.Command.{table_rules, with_rules, write};

use crate::places::{flag, option, options, place};
use clap::Command;
use std::alloc::{AllocError, Global};

/// The command with its subcommands.
pub(crate) fn command<'a>(alloc: Global) -> Result<Command<'a>, AllocError>
    ensures { IfOk result (λ c. app_of c ≡ prepare) }
{
    let first = look(alloc)?;
    let second = write(alloc)?;
    let subcommands = vec![in alloc; first, second]?;
    Command::new(alloc, "coop_prepare")
        .no_binary_name(true)
        .disable_help_subcommand(true)
        .arg_required_else_help(true)
        .subcommand_required(true)
        .version("2026-12-02")
        .about("Makes of an export the CSV that coop_cli takes")
        .subcommands(subcommands)
}

// `look FILE`
fn look<'a>(alloc: Global) -> Result<Command<'a>, AllocError>
    ensures { IfOk result (λ c. (a : App) × IsCommand a c × (a.top ≡ look)) }
{
    let start = Command::new(alloc, "look").about(
        "Tells what FILE is, what coop_cli needs of it, and the command that makes that",
    );
    start.arg(place(alloc, "FILE", "The export; a pipe does as well"))
}

// `write [a rule]... FILE`
fn write<'a>(alloc: Global) -> Result<Command<'a>, AllocError>
    ensures { IfOk result (λ c. (a : App) × IsCommand a c × (a.top ≡ write)) }
{
    let start = Command::new(alloc, "write").about(
        "Writes the CSV that coop_cli takes to standard output, made of FILE by these rules",
    );
    let records = with_records(alloc, start)?;
    let table = with_table(alloc, records)?;
    let numbers = with_numbers(alloc, table)?;
    let dates = with_dates(alloc, numbers)?;
    dates.arg(place(alloc, "FILE", "The export; a pipe does as well"))
}

// How the records of the export are found, and whether it is told what was done.
fn with_records<'a>(alloc: Global, command: Command<'a>) -> Result<Command<'a>, AllocError>
    ensures { (a : App) → IsCommand a command.entry → IfOk result (IsCommand (with_rules a record_rules)) }
{
    let rules = vec![in alloc;
        flag(
            alloc,
            "auto",
            "What isn't asked for is done as look says, but for what changes a value or leaves out a record"
        ),
        flag(
            alloc,
            "quiet",
            "It isn't told which rules were taken and what they changed"
        ),
        option(
            alloc,
            "delimiter",
            "BYTE",
            "The byte between two fields, tab, or blanks for runs of them [default: ,]"
        ),
        option(
            alloc,
            "quote",
            "BYTE",
            "The byte around a field [default: \"]"
        ),
        option(
            alloc,
            "encoding",
            "NAME",
            "How characters are written: utf-8, latin-1, windows-1252 or utf-16 [default: utf-8]"
        ),
        option(
            alloc,
            "skip",
            "N",
            "So many records above the names are left out [default: 0]"
        ),
        flag(
            alloc,
            "no-header",
            "There are no names: the columns are called c1, c2, .."
        ),
        option(
            alloc,
            "ragged",
            "HOW",
            "A record that is too short: refuse or pad [default: refuse]"
        ),
    ]?;
    command.args(rules)
}

// Which columns are written.
fn with_table<'a>(alloc: Global, command: Command<'a>) -> Result<Command<'a>, AllocError>
    ensures { (a : App) → IsCommand a command.entry → IfOk result (IsCommand (with_rules a table_rules)) }
{
    let rules = vec![in alloc;
        options(
            alloc,
            "columns",
            "LIST",
            "The columns, in this order: a,b,4-9 [default: all]"
        ),
        options(
            alloc,
            "rename",
            "OLD=NEW",
            "A column is written under another name"
        ),
        flag(alloc, "trim", "White space around each field is left out"),
    ]?;
    command.args(rules)
}

// What becomes of the fields of numbers.
fn with_numbers<'a>(alloc: Global, command: Command<'a>) -> Result<Command<'a>, AllocError>
    ensures { (a : App) → IsCommand a command.entry → IfOk result (IsCommand (with_rules a number_rules)) }
{
    let rules = vec![in alloc;
        options(
            alloc,
            "numbers",
            "LIST",
            "The columns of numbers, in which the rules below act: a,b,4-9"
        ),
        options(
            alloc,
            "missing",
            "MARK",
            "A field that is this mark becomes empty"
        ),
        flag(alloc, "decimal-comma", "The decimal mark is a comma"),
        option(alloc, "thousands", "BYTE", "The byte that parts thousands"),
        flag(
            alloc,
            "exponents",
            "A power of ten may stand behind a number, as in 1.5e3: it is written out"
        ),
        option(
            alloc,
            "places",
            "N",
            "A number with more than so many digits behind the point refuses its record: 0 to 9"
        ),
        flag(
            alloc,
            "round",
            "Such a number is rounded instead, half to even"
        ),
    ]?;
    command.args(rules)
}

// What becomes of the fields of dates.
fn with_dates<'a>(alloc: Global, command: Command<'a>) -> Result<Command<'a>, AllocError>
    ensures { (a : App) → IsCommand a command.entry → IfOk result (IsCommand (with_rules a date_rules)) }
{
    let rules = vec![in alloc;
        options(
            alloc,
            "date-columns",
            "LIST",
            "The columns of dates, in which --dates and --missing act: a,b,4-9"
        ),
        option(
            alloc,
            "dates",
            "ORDER",
            "Dates have the day first or the month, dmy or mdy, and are written as YYYY-MM-DD"
        ),
    ]?;
    command.args(rules)
}
