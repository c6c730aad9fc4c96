// What no contract says: that the lines have the words that people expect, and that calls succeed with ample memory.
use run_output::{write_overflow, write_policy_line, write_refusal, write_stopped, write_summary};
use run_stops::Stop;
use scan_story::Cause;
use sql_bind::{BindRefusal, StatementRefusal};
use sql_tokens::TextRefusal;
use std::alloc::{AllocError, Global};
use std::process::Abort;
use std::test::Fail;
use table_core::Bytes;

fn bytes_of(alloc: Global, text: &[u8]) -> Result<Bytes, AllocError> {
    Ok(Bytes::new(Vec::from_slice(alloc, text)?))
}

// A stop, and its status and its line.
const STOPS: &[(Stop, u8, &[u8])] = &[
    (Stop::Usage, 2, b"stopped 2: usage\n"),
    (Stop::TableTooLong, 3, b"stopped 3: table text too long\n"),
    (Stop::NoHeader, 3, b"stopped 3: no header\n"),
    (Stop::Columns { columns: 17 }, 3, b"stopped 3: 17 columns\n"),
    (
        Stop::LongName { column: 1 },
        3,
        b"stopped 3: name of column 1 too long\n",
    ),
    (
        Stop::TwiceNamed {
            first: 0,
            second: 1,
        },
        3,
        b"stopped 3: columns 0 and 1 have one name\n",
    ),
    (
        Stop::TwiceNamed {
            first: 4294967294,
            second: 4294967295,
        },
        3,
        b"stopped 3: columns 4294967294 and 4294967295 have one name\n",
    ),
    (
        Stop::Ragged { row: 2, fields: 1 },
        3,
        b"stopped 3: row 2 has 1 fields\n",
    ),
    (Stop::TooManyRows, 3, b"stopped 3: too many rows\n"),
    (
        Stop::Chunks { chunks: 1025 },
        3,
        b"stopped 3: 1025 chunks\n",
    ),
    (Stop::TableFault, 4, b"stopped 4: table read fault\n"),
    (Stop::BatchFault, 4, b"stopped 4: batch read fault\n"),
    (
        Stop::NotStored { piece: 0 },
        5,
        b"stopped 5: piece 0 not stored\n",
    ),
    (
        Stop::FramesNeeded { frames: 12 },
        8,
        b"stopped 8: 12 frames needed\n",
    ),
    (
        Stop::FrameWords {
            words: 18446744073709551615,
        },
        8,
        b"stopped 8: 18446744073709551615 words in frames\n",
    ),
    (Stop::BatchTooLong, 9, b"stopped 9: batch text too long\n"),
    (
        Stop::Statements { statements: 257 },
        9,
        b"stopped 9: 257 statements\n",
    ),
    (Stop::Scans { scans: 258 }, 9, b"stopped 9: 258 scans\n"),
    (Stop::Memory, 7, b""),
];

fn expect_lines(rt: &impl Abort, rows: &[(Stop, u8, &[u8])]) {
    for (stop, status, line) in rows {
        assert!(rt; stop.line().as_slice() == *line, "{stop:?}");
        assert!(rt; stop.status() == *status, "{stop:?}");
    }
}

#[test]
fn each_stop_has_its_status_and_its_line(rt: HostRuntime) {
    expect_lines(&rt, STOPS)
}

// Tests that the line of a refused statement is this one, and that it stands behind what was written before.
fn refuses(
    rt: &impl Abort,
    alloc: Global,
    query: u32,
    why: StatementRefusal,
    line: &[u8],
) -> Result<(), Fail> {
    let mut out = bytes_of(alloc, b"before\n")?;
    write_refusal(&mut out, query, &why)?;
    assert_eq!(rt; out.as_slice().strip_prefix(b"before\n"), Some(line));
    Ok(())
}

const TEXTS: [(u32, TextRefusal, &[u8]); 4] = [
    (1, TextRefusal::Syntax, b"refused 1: syntax\n"),
    (2, TextRefusal::TooNested, b"refused 2: too nested\n"),
    (3, TextRefusal::TooManyItems, b"refused 3: too many items\n"),
    (256, TextRefusal::Memory, b"refused 256: memory\n"),
];

#[test]
fn each_refusal_has_its_line(rt: HostRuntime) -> Result<(), Fail> {
    for (query, why, line) in TEXTS {
        refuses(&rt, rt.alloc(), query, StatementRefusal::Text(why), line)?;
    }
    let memory = StatementRefusal::Query(BindRefusal::Memory);
    refuses(&rt, rt.alloc(), 256, memory, b"refused 256: memory\n")
}

// The ways in which a name is refused.
#[derive(Clone, Copy)]
pub(crate) enum Named {
    Table,
    Column,
    Kind,
    Plain,
}

// The refusal of this name.
pub(crate) fn refusal_of(
    alloc: Global,
    way: Named,
    name: &[u8],
) -> Result<StatementRefusal, AllocError> {
    let name = bytes_of(alloc, name)?;
    Ok(StatementRefusal::Query(match way {
        Named::Table => BindRefusal::UnknownTable { name },
        Named::Column => BindRefusal::UnknownColumn { name },
        Named::Kind => BindRefusal::WrongKind { name },
        Named::Plain => BindRefusal::NotGrouped { name },
    }))
}

const NAMES: [(u32, Named, &[u8], &[u8]); 4] = [
    (1, Named::Table, b"u", b"refused 1: unknown table 'u'\n"),
    (2, Named::Column, b"zz", b"refused 2: unknown column 'zz'\n"),
    (1, Named::Kind, b"dept", b"refused 1: wrong kind 'dept'\n"),
    (
        3,
        Named::Plain,
        b"it's\n'",
        b"refused 3: not grouped 'it''s\n'''\n",
    ),
];

#[test]
fn names_are_quoted(rt: HostRuntime) -> Result<(), Fail> {
    for (query, way, name, line) in NAMES {
        let why = refusal_of(rt.alloc(), way, name)?;
        refuses(&rt, rt.alloc(), query, why, line)?;
    }
    Ok(())
}

const LOST: [(u32, Cause, &[u8]); 3] = [
    (
        1,
        Cause::Read {
            before: 1,
            after: 2,
        },
        b"refused 1: read fault\n",
    ),
    (
        4294967295,
        Cause::Damage {
            piece: 4294967295,
            word: 4,
        },
        b"refused 4294967295: damaged piece 4294967295\n",
    ),
    (256, Cause::Memory, b"refused 256: memory\n"),
];

#[test]
fn each_stopped_query_has_its_line(rt: HostRuntime) -> Result<(), Fail> {
    for (query, why, line) in LOST {
        let mut out = Bytes::new(Vec::new(rt.alloc()));
        write_stopped(&mut out, query, why)?;
        assert_eq!(rt; out.as_slice(), line);
    }
    Ok(())
}

#[test]
fn totals_have_their_places(rt: HostRuntime) -> Result<(), Fail> {
    let mut out = Bytes::new(Vec::new(rt.alloc()));
    write_overflow(&mut out, 1, 1, 9223372036854775808, 0)?;
    write_overflow(&mut out, 1, 1, 9223372036854775808, 2)?;
    write_overflow(&mut out, 256, 32, -9223372036854775809, 9)?;
    let lines = b"refused 1: sum overflow item 1 total 9223372036854775808\n\
refused 1: sum overflow item 1 total 92233720368547758.08\n\
refused 256: sum overflow item 32 total -9223372036.854775809\n";
    assert_eq!(rt; out.as_slice(), lines.as_slice());
    Ok(())
}

#[test]
fn the_summary_and_the_line_of_a_policy(rt: HostRuntime) -> Result<(), Fail> {
    let mut out = Bytes::new(Vec::new(rt.alloc()));
    write_summary(&mut out, 8, 7, 18446744073709551615, 200000)?;
    write_policy_line(&mut out, "relevance", 9, 5, 13, 0)?;
    let lines = b"summary: 8 queries, 7 answered, 18446744073709551615 deliveries, 200000 rows\n\
relevance: 9 reads, 5 evictions, 13 deliveries, 0 stops\n";
    assert_eq!(rt; out.as_slice(), lines.as_slice());
    Ok(())
}
