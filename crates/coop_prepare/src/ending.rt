// How a preparation ended.
ghost use Rattle.coop_prepare.specs.Endings.{IsBroken, IsEnded};

use crate::reply::Reply;
use crate::telling::told;
use prepare_rules::{Cause, Column, Failure, Refusal, Report};
use prepare_words::Writing;
use std::alloc::{AllocError, Global};

/// What is said where all records were read, or one was refused: what the rules did, and the refusal.
pub(crate) fn ended(alloc: Global, writing: &Writing<'_>, report: Report) -> Reply
    ensures { IsEnded report.refusal result }
{
    let done = told(alloc, writing, &report.tally);
    match report.refusal {
        Some(refusal) => {
            let line = refused(alloc, writing, &refusal);
            Reply::told(alloc, 3, behind(alloc, done, line))
        }
        None => Reply::told(alloc, 0, done),
    }
}

/// Both texts, one behind the other.
pub(crate) fn behind(
    alloc: Global,
    first: Result<String, AllocError>,
    second: Result<String, AllocError>,
) -> Result<String, AllocError> {
    let (first, second) = (first?, second?);
    format!(in alloc; "{first}{second}")
}

/// What is said where the preparation was broken off.
pub(crate) fn broken(alloc: Global, file: &str, failure: Failure) -> Reply
    ensures { IsBroken failure result }
{
    match failure {
        Failure::Input => Reply::told(
            alloc,
            4,
            format!(in alloc; "stopped 4: {file} can't be read\n"),
        ),
        Failure::Output => Reply::fault(alloc, 6, b"stopped 6: standard output takes no more\n"),
        Failure::TooLong => Reply::fault(alloc, 9, b"stopped 9: too many records\n"),
        Failure::Memory => Reply::fault(alloc, 7, b"stopped 7: memory\n"),
    }
}

/// The line of a refusal.
pub(crate) fn refused(
    alloc: Global,
    writing: &Writing<'_>,
    refusal: &Refusal,
) -> Result<String, AllocError> {
    let number = refusal.number;
    match refusal.cause {
        Cause::NoColumn { word } => lacking(alloc, "--columns", writing.columns.as_slice(), word),
        Cause::NoNumbers { word } => lacking(alloc, "--numbers", writing.numbers.as_slice(), word),
        Cause::NoDates { word } => {
            lacking(alloc, "--date-columns", writing.dates.as_slice(), word)
        }
        Cause::NumberAndDate { word } => both(alloc, writing.dates.as_slice(), word),
        Cause::NoName { word } => {
            let name = match writing.renames.get(word) {
                Some(rename) => rename.from,
                None => "",
            };
            format!(in alloc; "stopped 3: there is no column '{name}' for --rename\n")
        }
        cause => match refusal.line {
            Some(line) => format!(in alloc; "stopped 3: record {number}, line {line}: {cause}\n"),
            None => format!(in alloc; "stopped 3: record {number}: {cause}\n"),
        },
    }
}

// The line of a column that is one of numbers and of dates.
fn both(alloc: Global, columns: &[Column<'_>], word: usize) -> Result<String, AllocError> {
    match columns.get(word) {
        Some(Column::Named(name)) => {
            format!(in alloc; "stopped 3: column '{name}' is one of numbers and of dates\n")
        }
        Some(Column::Placed(place)) => {
            format!(in alloc; "stopped 3: column {place} is one of numbers and of dates\n")
        }
        None => format!(in alloc; "stopped 3: a column is one of numbers and of dates\n"),
    }
}

// The line of a column that isn't there.
fn lacking(
    alloc: Global,
    option: &str,
    columns: &[Column<'_>],
    word: usize,
) -> Result<String, AllocError> {
    match columns.get(word) {
        Some(Column::Named(name)) => {
            format!(in alloc; "stopped 3: there is no column '{name}' for {option}\n")
        }
        Some(Column::Placed(place)) => {
            format!(in alloc; "stopped 3: there is no column {place} for {option}\n")
        }
        None => format!(in alloc; "stopped 3: there is no such column for {option}\n"),
    }
}
