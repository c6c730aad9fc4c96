// Refused queries, and runs that stop.
use super::{COUNT, Case, WORDS, expect_cases};
use help_stories::tables::TABLE_A;
use std::test::Fail;

const REFUSED: &[Case<'static>] = &[
    (
        WORDS,
        TABLE_A,
        "SELECT SUM(dept) FROM t; SELECT x FROM; SELECT COUNT(*) FROM t",
        1,
        "refused 1: wrong kind 'dept'\nrefused 2: syntax\nquery 3\n5\n",
    ),
    (
        WORDS,
        TABLE_A,
        "SELECT COUNT(*) FROM u; SELECT zz FROM t; SELECT id FROM t",
        1,
        "refused 1: unknown table 'u'\nrefused 2: unknown column 'zz'\nrefused 3: not grouped 'id'\n",
    ),
    (
        WORDS,
        TABLE_A,
        "SELECT id FROM t LIMIT 4097; SELECT COUNT(*) FROM t LIMIT 1",
        1,
        "refused 1: too many items\nrefused 2: syntax\n",
    ),
];

#[test]
fn refused_queries(rt: HostRuntime) -> Result<(), Fail> {
    expect_cases(&rt, rt.alloc(), REFUSED)
}

const STOPPED: &[Case<'static>] = &[
    ("", TABLE_A, COUNT, 2, "stopped 2: usage\n"),
    (
        "--threads 33 a.csv b.sql",
        TABLE_A,
        COUNT,
        2,
        "stopped 2: usage\n",
    ),
    (
        "--threads 2 --threads 2 a.csv b.sql",
        TABLE_A,
        COUNT,
        2,
        "stopped 2: usage\n",
    ),
    (
        "--compare a.csv b.sql",
        TABLE_A,
        COUNT,
        2,
        "stopped 2: usage\n",
    ),
    (WORDS, "", COUNT, 3, "stopped 3: no header\n"),
    (
        WORDS,
        "a,a\n",
        COUNT,
        3,
        "stopped 3: columns 0 and 1 have one name\n",
    ),
    (
        WORDS,
        "a,b\n1,2\n3\n",
        COUNT,
        3,
        "stopped 3: row 2 has 1 fields\n",
    ),
    (
        "--rows 1 gen:1:1025 b.sql",
        "",
        COUNT,
        3,
        "stopped 3: 1025 chunks\n",
    ),
    (
        "c.csv b.sql",
        TABLE_A,
        COUNT,
        4,
        "stopped 4: table read fault\n",
    ),
    (
        "a.csv c.sql",
        TABLE_A,
        COUNT,
        4,
        "stopped 4: batch read fault\n",
    ),
    (
        "--threads 1 --frames 3 --rows 2 a.csv b.sql",
        TABLE_A,
        COUNT,
        8,
        "stopped 8: 4 frames needed\n",
    ),
    (
        "--threads 1 --frames 3 --rows 2 a.csv c.sql",
        TABLE_A,
        COUNT,
        8,
        "stopped 8: 4 frames needed\n",
    ),
    (
        "--frames 33554432 a.csv b.sql",
        TABLE_A,
        COUNT,
        8,
        "stopped 8: 671088640 words in frames\n",
    ),
    (
        "--parts 32 --threads 1 --rows 2 a.csv b.sql",
        TABLE_A,
        "SELECT 1;SELECT 1;SELECT 1;SELECT 1;SELECT 1;SELECT 1;SELECT 1;SELECT 1;SELECT 1",
        9,
        "stopped 9: 288 scans\n",
    ),
];

#[test]
fn runs_that_stop(rt: HostRuntime) -> Result<(), Fail> {
    expect_cases(&rt, rt.alloc(), STOPPED)
}
