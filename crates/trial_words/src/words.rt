//! The words of the manual, and words on the edges of its rules.
use command_words::{
    Batch, Call, Layout, PolicyName, Refused, Request, Table, options_of, scratch_of,
};
use std::alloc::Global;
use std::process::Abort;
use std::test::Fail;

// The words of a line, which stand between bars.
pub(crate) fn words_of(alloc: Global, line: &str) -> Result<Vec<String>, Fail> {
    let mut words = Vec::new(alloc);
    for word in line.split('|') {
        words.push(String::from_str(alloc, word)?)?;
    }
    Ok(words)
}

const DEFAULTS: Request<'static> = Request {
    workers: 4,
    frames: None,
    per: 1024,
    layout: Layout::Row,
    parts: 1,
    scratch: None,
    policy: PolicyName::Relevance,
    summary: false,
    trace: false,
    compare: false,
    table: "a",
    batch: "b",
};

// Words, and what they ask of each call.
const GIVEN: &[(&str, Request<'static>)] = &[
    ("a|b", DEFAULTS),
    (
        "--threads|1|--frames|4|--rows|2|a|b",
        Request {
            workers: 1,
            frames: Some(4),
            per: 2,
            ..DEFAULTS
        },
    ),
    (
        "--threads|02|a|--frames=33554432|b|--rows|0000016384",
        Request {
            workers: 2,
            frames: Some(33554432),
            per: 16384,
            ..DEFAULTS
        },
    ),
    (
        "a|--layout=column|--|-b",
        Request {
            layout: Layout::Column,
            batch: "-b",
            ..DEFAULTS
        },
    ),
    (
        "--layout|row|--parts=32|a|b",
        Request {
            parts: 32,
            ..DEFAULTS
        },
    ),
    (
        "--scratch=-x|a|b",
        Request {
            scratch: Some("-x"),
            ..DEFAULTS
        },
    ),
    (
        "--scratch|s=t|a|b",
        Request {
            scratch: Some("s=t"),
            ..DEFAULTS
        },
    ),
    (
        "--scratch=s=t|a|b",
        Request {
            scratch: Some("s=t"),
            ..DEFAULTS
        },
    ),
    (
        "--scratch=-|a|b",
        Request {
            scratch: Some("-"),
            ..DEFAULTS
        },
    ),
    (
        "--|--|--",
        Request {
            table: "--",
            batch: "--",
            ..DEFAULTS
        },
    ),
    (
        "--|--summary|--trace",
        Request {
            table: "--summary",
            batch: "--trace",
            ..DEFAULTS
        },
    ),
    (
        "--summary|a|b|--trace",
        Request {
            summary: true,
            trace: true,
            ..DEFAULTS
        },
    ),
    (
        "help|version",
        Request {
            table: "help",
            batch: "version",
            ..DEFAULTS
        },
    ),
    (
        "gen:7:20|gen",
        Request {
            table: "gen:7:20",
            batch: "gen",
            ..DEFAULTS
        },
    ),
    (
        "gen|gen:",
        Request {
            table: "gen",
            batch: "gen:",
            ..DEFAULTS
        },
    ),
    (
        "./gen:|./gen",
        Request {
            table: "./gen:",
            batch: "./gen",
            ..DEFAULTS
        },
    ),
];

// Tests that the words of a line give this.
fn gives(
    rt: &impl Abort,
    alloc: Global,
    call: Call,
    line: &str,
    wanted: Result<Request<'_>, Refused>,
) -> Result<(), Fail> {
    let words = words_of(alloc, line)?;
    assert!(rt; options_of(alloc, call, &words) == wanted, "{line}");
    Ok(())
}

// Tests that the words of each line give this, whichever call they are of.
fn both_give(rt: &impl Abort, alloc: Global, rows: &[(&str, Request<'_>)]) -> Result<(), Fail> {
    for (line, wanted) in rows {
        gives(rt, alloc, Call::Run, line, Ok(*wanted))?;
        gives(rt, alloc, Call::RunBoxed, line, Ok(*wanted))?;
    }
    Ok(())
}

#[test]
fn what_words_give(rt: HostRuntime) -> Result<(), Fail> {
    both_give(&rt, rt.alloc(), GIVEN)
}

// Words that only a call with policies in boxes takes, and what they ask of it.
const POLICIES: &[(&str, Request<'static>)] = &[
    (
        "--policy|attach|a|b",
        Request {
            policy: PolicyName::Attach,
            ..DEFAULTS
        },
    ),
    (
        "--policy=normal|a|b",
        Request {
            policy: PolicyName::Normal,
            ..DEFAULTS
        },
    ),
    (
        "--policy=elevator|a|b",
        Request {
            policy: PolicyName::Elevator,
            ..DEFAULTS
        },
    ),
    ("--policy=relevance|a|b", DEFAULTS),
    (
        "--compare|a|b",
        Request {
            workers: 1,
            compare: true,
            ..DEFAULTS
        },
    ),
    (
        "a|b|--threads=01|--compare",
        Request {
            workers: 1,
            compare: true,
            ..DEFAULTS
        },
    ),
];

// Tests that the words of each line give this to a call with policies in boxes, and nothing to the other.
fn boxed_give(rt: &impl Abort, alloc: Global, rows: &[(&str, Request<'_>)]) -> Result<(), Fail> {
    for (line, wanted) in rows {
        gives(rt, alloc, Call::RunBoxed, line, Ok(*wanted))?;
        gives(rt, alloc, Call::Run, line, Err(Refused::Usage))?;
    }
    Ok(())
}

#[test]
fn what_words_with_policies_give(rt: HostRuntime) -> Result<(), Fail> {
    boxed_give(&rt, rt.alloc(), POLICIES)
}

// Words that are refused.
const REFUSED: &[&str] = &[
    "",
    "a",
    "a|b|c",
    "a|-",
    "-|a",
    "a|",
    "|a|b",
    "--help",
    "--help|a|b",
    "--version|a|b",
    "-h|a|b",
    "-V|a|b",
    "--threads|a|b",
    "--threads=0|a|b",
    "--threads=33|a|b",
    "--threads|33|a|b",
    "--threads=|a|b",
    "--threads||a|b",
    "--threads|-1|a|b",
    "--threads=+1|a|b",
    "--threads=1 |a|b",
    "--threads=00000000001|a|b",
    "--threads|2|--threads|2|a|b",
    "--threads=1|--threads=1|a|b",
    "--frames=0|a|b",
    "--frames=33554433|a|b",
    "--frames=99999999999999999999|a|b",
    "--rows=0|a|b",
    "--rows=16385|a|b",
    "--parts=0|a|b",
    "--parts=33|a|b",
    "--summary|--summary|a|b",
    "--summary=|a|b",
    "--summary=true|a|b",
    "--summ|a|b",
    "--thread=1|a|b",
    "--Threads=1|a|b",
    "--scratch=|a|b",
    "--scratch|-|a|b",
    "--scratch||a|b",
    "a|b|--threads",
    "a|b|--scratch",
    "--threads|--|a|b",
    "--scratch|--summary|a|b",
    "--layout=Row|a|b",
    "--layout=rows|a|b",
    "--policy=fast|a|b",
    "--policy=Normal|a|b",
    "--policy=|a|b",
    "--compare|--policy=normal|a|b",
    "--compare|--trace|a|b",
    "--summary|--compare|a|b",
    "--compare|--threads=2|a|b",
    "--compare=|a|b",
    "gen:|b",
    "gen:1|b",
    "gen:1:|b",
    "gen::1|b",
    "gen:1:1048577|b",
    "gen:18446744073709551616:1|b",
    "gen:000000000000000000001:1|b",
    "gen:1:2:3|b",
    "gen:-1:1|b",
    "a|b|--|-",
    "a|b|--|c",
    "---|a|b",
    "-a|b",
];

// Tests that the words of a line name this scratch file, or none.
fn keeps(rt: &impl Abort, alloc: Global, line: &str, wanted: Option<&str>) -> Result<(), Fail> {
    let words = words_of(alloc, line)?;
    assert!(rt; scratch_of(alloc, &words) == Ok(wanted), "{line}");
    Ok(())
}

// Tests that the words of each line are refused, and name no scratch file.
fn are_refused(rt: &impl Abort, alloc: Global, lines: &[&str]) -> Result<(), Fail> {
    for line in lines {
        gives(rt, alloc, Call::Run, line, Err(Refused::Usage))?;
        gives(rt, alloc, Call::RunBoxed, line, Err(Refused::Usage))?;
        keeps(rt, alloc, line, None)?;
    }
    Ok(())
}

#[test]
fn what_is_refused(rt: HostRuntime) -> Result<(), Fail> {
    are_refused(&rt, rt.alloc(), REFUSED)?;
    let none = options_of(rt.alloc(), Call::Run, &[]);
    assert!(rt; none == Err(Refused::Usage));
    Ok(())
}

// Words, and the scratch file that they name.
const SCRATCHES: &[(&str, Option<&str>)] = &[
    ("--scratch|s|a.csv|b.sql", Some("s")),
    ("a.csv|b.sql", None),
    ("--policy|fast|--scratch|s|a|b", None),
    ("--policy|attach|--scratch|s|a|b", Some("s")),
    ("--compare|--scratch=s|a|b", Some("s")),
    ("--scratch|s|a", None),
];

fn all_keep(rt: &impl Abort, alloc: Global, rows: &[(&str, Option<&str>)]) -> Result<(), Fail> {
    for (line, wanted) in rows {
        keeps(rt, alloc, line, *wanted)?;
    }
    Ok(())
}

#[test]
fn the_scratch_file_of_words(rt: HostRuntime) -> Result<(), Fail> {
    all_keep(&rt, rt.alloc(), SCRATCHES)
}

// Words in the place of a table, and what they name.
const TABLES: &[(&str, Option<Table<'static>>)] = &[
    (
        "gen:7:200000",
        Some(Table::Generated {
            seed: 7,
            rows: 200000,
        }),
    ),
    ("gen:0:0", Some(Table::Generated { seed: 0, rows: 0 })),
    (
        "gen:18446744073709551615:0001048576",
        Some(Table::Generated {
            seed: 18446744073709551615,
            rows: 1048576,
        }),
    ),
    (
        "gen:00000000000000000007:1",
        Some(Table::Generated { seed: 7, rows: 1 }),
    ),
    ("gen", Some(Table::File("gen"))),
    ("Gen:1:1", Some(Table::File("Gen:1:1"))),
    ("./gen:1:1", Some(Table::File("./gen:1:1"))),
    ("gen:", None),
    ("gen:1:00000000001", None),
];

fn all_name(rt: &impl Abort, rows: &[(&str, Option<Table<'_>>)]) {
    for (word, wanted) in rows {
        assert!(rt; Table::named(word) == *wanted, "{word}");
    }
}

#[test]
fn what_the_places_name(rt: HostRuntime) {
    all_name(&rt, TABLES);
    assert!(rt; Batch::named("gen") == Batch::Generated);
    assert!(rt; Batch::named("gen:1:1") == Batch::File("gen:1:1"));
}
