// The words of the command line.
ghost use Rattle.std.specs.Prelude.{◌≤◌, ◌≡◌, IfSome};
ghost use Rattle.command_words.specs.declared.limits.TheConstants.{MOST_FRAMES, MOST_GENERATED_ROWS, MOST_WORKERS};

use crate::experiment::{Experiment, MOST_QUERIES};
use crate::kind::Kind;
use clap::{Arg, ArgAction, ArgMatches, Command, value_parser};
use command_words::{MOST_FRAMES, MOST_GENERATED_ROWS, MOST_WORKERS};
use std::alloc::{AllocError, Global};
use table_core::MOST_CHUNK_ROWS;

// What `--policy` may be: a policy, or a plain buffer manager for comparison.
const NAMES: [&str; 7] = [
    "all",
    "relevance",
    "elevator",
    "normal",
    "attach",
    "in-order",
    "in-order-attached",
];

// An option of a name, with what `--help` says of it.
fn option<'a>(alloc: Global, name: &'a str, help: &'a str) -> Arg<'a> {
    Arg::new(alloc, name).long(name).help(help)
}

// An option whose value is a number within limits.
fn number<'a>(alloc: Global, name: &'a str, least: u32, most: u32, help: &'a str) -> Arg<'a> {
    let numbers = value_parser!(u32).range(i64::from(least)..=i64::from(most));
    option(alloc, name, help)
        .value_name("N")
        .value_parser(numbers)
}

// A flag.
fn flag<'a>(alloc: Global, name: &'a str, help: &'a str) -> Arg<'a> {
    option(alloc, name, help).action(ArgAction::SetTrue)
}

// The command with the numbers of an experiment.
fn with_numbers<'a>(alloc: Global, command: Command<'a>) -> Result<Command<'a>, AllocError> {
    let most_us = 1_000_000;
    let options = vec![in alloc;
        number(
            alloc,
            "streams",
            1,
            MOST_WORKERS,
            "Streams, each on a worker of its own"
        )
        .default_value("16"),
        number(alloc, "queries", 1, MOST_QUERIES, "Queries of a stream").default_value("4"),
        number(alloc, "rows", 1, MOST_CHUNK_ROWS, "Rows of a chunk").default_value("64"),
        number(
            alloc,
            "table-rows",
            1,
            MOST_GENERATED_ROWS,
            "Rows of the table"
        )
        .default_value("62500"),
        number(alloc, "get-us", 0, most_us, "Microseconds of a get").default_value("1000"),
        number(
            alloc,
            "fast-us",
            0,
            most_us,
            "Microseconds of a fast query for each chunk"
        )
        .default_value("0"),
        number(
            alloc,
            "slow-us",
            0,
            most_us,
            "Microseconds of a slow query for each chunk"
        )
        .default_value("1000"),
        number(
            alloc,
            "processors",
            1,
            MOST_WORKERS,
            "Queries that work on a chunk at once [default: each]"
        ),
        number(
            alloc,
            "stagger-us",
            0,
            most_us,
            "Microseconds from the begin of one stream to that of the next"
        )
        .default_value("0"),
        number(
            alloc,
            "frames",
            1,
            MOST_FRAMES,
            "Frames of the buffer [default: for a quarter of the chunks]"
        ),
        number(
            alloc,
            "seed",
            0,
            u32::MAX,
            "The seed of the table and of the queries"
        )
        .default_value("7"),
    ]?;
    command.args(options)
}

/// The command line that the program reads.
pub(crate) fn command<'a>(alloc: Global) -> Result<Command<'a>, AllocError> {
    let policy = option(
        alloc,
        "policy",
        "The policy, or the plain buffer manager, under which the streams run",
    )
    .value_parser(NAMES.as_slice())
    .default_value("all");
    let about =
        "Plays streams of range queries over a table whose chunks take their time to be read";
    let command = Command::new(alloc, "scan_streams").about(about);
    let numbers = with_numbers(alloc, command)?;
    let others = vec![in alloc;
        policy,
        flag(alloc, "whole", "Each query is fast, over the whole table"),
        flag(alloc, "each", "Prints the time of each query"),
        flag(
            alloc,
            "trace",
            "Prints the chunks of each query, and those that were handed out, in their order"
        ),
        flag(alloc, "check", "Prints only what every schedule gives"),
    ]?;
    numbers.args(others)
}

// The number of an option, within its limits.
fn given(matches: &ArgMatches<'_>, name: &str, least: u32, most: u32) -> u32
    requires order { least ≤ most }
    ensures least { least ≤ result }
    ensures most { result ≤ most }
{
    matches
        .get_one::<u32>(name)
        .unwrap_or(least)
        .clamp(least, most)
}

// Frames for a quarter of the chunks, or the least that the streams need, if that is more.
fn quarter(chunks: u32, streams: u32) -> u32
    requires chunks { chunks ≤ MOST_GENERATED_ROWS }
    requires streams { streams ≤ MOST_WORKERS }
    ensures some { 1 ≤ result }
    ensures few { result ≤ MOST_FRAMES }
{
    (chunks.div_ceil(4)).max(3 * streams + 1)
}

/// The experiment that the words ask for.
pub(crate) fn experiment_of(matches: &ArgMatches<'_>) -> Experiment {
    let streams = given(matches, "streams", 1, MOST_WORKERS);
    let chunk_rows = given(matches, "rows", 1, MOST_CHUNK_ROWS);
    let table_rows = given(matches, "table-rows", 1, MOST_GENERATED_ROWS);
    let frames = match matches.get_one::<u32>("frames") {
        Some(frames) => frames.clamp(1, MOST_FRAMES),
        None => quarter(table_rows.div_ceil(chunk_rows), streams),
    };
    let processors = match matches.get_one::<u32>("processors") {
        Some(processors) => processors.clamp(1, MOST_WORKERS),
        None => MOST_WORKERS,
    };
    Experiment {
        streams,
        queries: given(matches, "queries", 1, MOST_QUERIES),
        chunk_rows,
        table_rows,
        frames,
        get_us: given(matches, "get-us", 0, u32::MAX),
        fast_us: given(matches, "fast-us", 0, u32::MAX),
        slow_us: given(matches, "slow-us", 0, u32::MAX),
        processors,
        stagger_us: given(matches, "stagger-us", 0, u32::MAX),
        kind: matches.get_flag("whole").then_some(Kind::whole()),
        seed: given(matches, "seed", 0, u32::MAX),
    }
}
