// Both layouts: the same answers, and what each of them reads.
use super::told::{Story, Told, expect_told};
use super::{Case, SUMS, SUMS_PRINTED, WORDS, ends_so, expect_cases};
use coop_outside::MemDepot;
use help_stories::tables::TABLE_A;
use std::alloc::Global;
use std::process::Abort;
use std::random::RandomSource;
use std::sync::Wait;
use std::test::Fail;
use std::thread::Threads;

const COLUMNS: &str = "--threads 1 --rows 2 --layout column a.csv b.sql";

const BY_COLUMNS: &[Case<'static>] = &[
    (COLUMNS, TABLE_A, SUMS, 0, SUMS_PRINTED),
    (
        COLUMNS,
        TABLE_A,
        "SELECT SUM(pay) FROM t WHERE id >= 4;",
        0,
        "query 1\n35\n",
    ),
    (
        COLUMNS,
        TABLE_A,
        "SELECT COUNT(*), SUM(pay) FROM t WHERE id > 9;",
        0,
        "query 1\n0, NULL\n",
    ),
    (
        COLUMNS,
        TABLE_A,
        "SELECT COUNT(*) FROM t WHERE NOT pay > 15;",
        0,
        "query 1\n2\n",
    ),
    (
        COLUMNS,
        "v\n9223372036854775807\n1\n",
        "SELECT SUM(v) FROM t",
        1,
        "refused 1: sum overflow item 1 total 9223372036854775808\n",
    ),
    (
        COLUMNS,
        "g,v\n,1\nx,2\n,3\n",
        "SELECT g, SUM(v) FROM t GROUP BY g",
        0,
        "query 1\nNULL, 4\n'x', 2\n",
    ),
];

#[test]
fn answers_by_columns(rt: HostRuntime) -> Result<(), Fail> {
    expect_cases(&rt, rt.alloc(), BY_COLUMNS)
}

// A statement, and what it prints.
type Printed<'a> = (&'a str, &'a str);

// Under the words each statement over the table prints this.
fn expect_printed<R: Abort + RandomSource + Threads + Wait + Sync>(
    rt: &R,
    alloc: Global,
    words: &str,
    table: &str,
    rows: &[Printed<'_>],
) -> Result<(), Fail> {
    for (statement, output) in rows {
        let is_printed = ends_so(
            rt,
            alloc,
            &(words, table, *statement, 0, *output),
            MemDepot::new(alloc),
        )?;
        assert!(rt; is_printed, "{statement}");
    }
    Ok(())
}

// The same under each of these words.
fn expect_each_way<R: Abort + RandomSource + Threads + Wait + Sync>(
    rt: &R,
    alloc: Global,
    ways: &[&str],
    table: &str,
    rows: &[Printed<'_>],
) -> Result<(), Fail> {
    for words in ways {
        expect_printed(rt, alloc, words, table, rows)?;
    }
    Ok(())
}

// Statements, and the first rows that they print.
const ORDERED: &[Printed<'static>] = &[
    (
        "SELECT id, pay FROM t ORDER BY pay DESC, id LIMIT 3",
        "query 1\n4, 40\n2, 20\n1, 10\n",
    ),
    ("SELECT id FROM t ORDER BY pay LIMIT 1", "query 1\n3\n"),
    (
        "SELECT dept FROM t WHERE id > 1 ORDER BY dept LIMIT 10",
        "query 1\n'a'\n'b'\n'b'\n'c'\n",
    ),
    ("SELECT id FROM t LIMIT 0", "query 1\n"),
];

// The words under which they are printed.
const ORDERED_BY: &[&str] = &[
    WORDS,
    "--threads 2 --rows 2 a.csv b.sql",
    COLUMNS,
    "--threads 1 --frames 4 --rows 2 --parts 2 a.csv b.sql",
];

#[test]
fn first_rows_in_an_order(rt: HostRuntime) -> Result<(), Fail> {
    expect_each_way(&rt, rt.alloc(), ORDERED_BY, TABLE_A, ORDERED)
}

const TO_64_BITS: &str = "v\n9223372036854775807\n1\n-1\n";

const GREATEST: &[Printed<'static>] = &[("SELECT SUM(v) FROM t", "query 1\n9223372036854775807\n")];

// Both layouts, on one worker and on two, with one to three rows a chunk.
const EACH_WAY: &[&str] = &[
    "--threads 1 --rows 1 --layout row a.csv b.sql",
    "--threads 1 --rows 2 --layout row a.csv b.sql",
    "--threads 1 --rows 3 --layout row a.csv b.sql",
    "--threads 2 --rows 1 --layout row a.csv b.sql",
    "--threads 2 --rows 2 --layout row a.csv b.sql",
    "--threads 2 --rows 3 --layout row a.csv b.sql",
    "--threads 1 --rows 1 --layout column a.csv b.sql",
    "--threads 1 --rows 2 --layout column a.csv b.sql",
    "--threads 1 --rows 3 --layout column a.csv b.sql",
    "--threads 2 --rows 1 --layout column a.csv b.sql",
    "--threads 2 --rows 2 --layout column a.csv b.sql",
    "--threads 2 --rows 3 --layout column a.csv b.sql",
];

#[test]
fn a_sum_that_passes_64_bits_on_the_way(rt: HostRuntime) -> Result<(), Fail> {
    expect_each_way(&rt, rt.alloc(), EACH_WAY, TO_64_BITS, GREATEST)
}

const COUNT_AND_SUMS: &str =
    "SELECT COUNT(*) FROM t; SELECT dept, SUM(pay), COUNT(pay) FROM t GROUP BY dept;";

const WITHOUT_ROWS: &[Told<'static>] = &[
    Told {
        words: WORDS,
        table: "id,dept,pay\n",
        batch: COUNT_AND_SUMS,
        fail_gets: &[],
        fail_puts: &[],
        status: 0,
        output: &["query 1\n0\nquery 2\n"],
        puts: Some(0),
        gets: Some(0),
        taken: None,
        story: Story::Any,
    },
    Told {
        words: COLUMNS,
        table: "id,dept,pay\n",
        batch: COUNT_AND_SUMS,
        fail_gets: &[],
        fail_puts: &[],
        status: 0,
        output: &["query 1\n0\nquery 2\n"],
        puts: Some(0),
        gets: Some(0),
        taken: None,
        story: Story::Any,
    },
];

#[test]
fn a_table_without_rows(rt: HostRuntime) -> Result<(), Fail> {
    expect_told(&rt, rt.alloc(), WITHOUT_ROWS)
}

const READ: &[Told<'static>] = &[Told {
    words: WORDS,
    table: TABLE_A,
    batch: "SELECT SUM(pay) FROM t WHERE id >= 4;",
    fail_gets: &[],
    fail_puts: &[],
    status: 0,
    output: &["query 1\n35\n"],
    puts: Some(3),
    gets: Some(2),
    taken: Some(&[(1, 0, 0, &[1, 2])]),
    story: Story::Any,
}];

#[test]
fn what_is_read(rt: HostRuntime) -> Result<(), Fail> {
    expect_told(&rt, rt.alloc(), READ)
}

const ONE_COLUMN: &[Told<'static>] = &[Told {
    words: COLUMNS,
    table: TABLE_A,
    batch: "SELECT SUM(pay) FROM t;",
    fail_gets: &[],
    fail_puts: &[],
    status: 0,
    output: &["query 1\n65\n"],
    puts: Some(9),
    gets: Some(3),
    taken: None,
    story: Story::Reads(&[(0, 2), (1, 5), (2, 8)]),
}];

#[test]
fn one_column_is_read(rt: HostRuntime) -> Result<(), Fail> {
    expect_told(&rt, rt.alloc(), ONE_COLUMN)
}

const NOTHING_READ: &[Told<'static>] = &[Told {
    words: WORDS,
    table: TABLE_A,
    batch: "SELECT COUNT(*) FROM t WHERE id > 9;",
    fail_gets: &[],
    fail_puts: &[],
    status: 0,
    output: &["query 1\n0\n"],
    puts: None,
    gets: Some(0),
    taken: None,
    story: Story::Any,
}];

#[test]
fn nothing_is_read_that_no_row_needs(rt: HostRuntime) -> Result<(), Fail> {
    expect_told(&rt, rt.alloc(), NOTHING_READ)
}

const TOO_FEW_FRAMES: &[Case<'static>] = &[(
    "--threads 1 --rows 2 --layout column --frames 11 a.csv b.sql",
    TABLE_A,
    "SELECT SUM(pay) FROM t;",
    8,
    "stopped 8: 12 frames needed\n",
)];

#[test]
fn frames_by_columns(rt: HostRuntime) -> Result<(), Fail> {
    expect_cases(&rt, rt.alloc(), TOO_FEW_FRAMES)
}
