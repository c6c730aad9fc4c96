// The stories of runs with one worker, and the chunks that their scans took.
use super::told::{Story, Told, expect_told};
use super::{COUNT, COUNT_TWICE, SUMS, SUMS_PRINTED, WORDS};
use help_stories::stories::{FAULT, FIRST_OF_SIX, FROM_2, IN_PLACE_OF_0, IN_PLACE_OF_2, ONE_COUNT};
use help_stories::tables::{SIX_ROWS, TABLE_A};
use scan_story::Entry;
use std::test::Fail;

const TRACED: &str = "--threads 1 --frames 4 --rows 2 --trace a.csv b.sql";

const IN_PARTS: &str = "--threads 1 --frames 4 --rows 2 --parts 2 a.csv b.sql";

const ONE_TRACE: &[Told<'static>] = &[Told {
    words: TRACED,
    table: TABLE_A,
    batch: COUNT,
    fail_gets: &[],
    fail_puts: &[],
    status: 0,
    output: &["query 1\n5\n", ONE_COUNT],
    puts: None,
    gets: None,
    taken: None,
    story: Story::Entries(17),
}];

#[test]
fn the_trace_of_one_count(rt: HostRuntime) -> Result<(), Fail> {
    expect_told(&rt, rt.alloc(), ONE_TRACE)
}

const ONE_STOPPED: &[Told<'static>] = &[Told {
    words: TRACED,
    table: TABLE_A,
    batch: COUNT_TWICE,
    fail_gets: &[2],
    fail_puts: &[],
    status: 1,
    output: &["refused 1: read fault\nquery 2\n5\n", FAULT],
    puts: None,
    gets: Some(4),
    taken: None,
    story: Story::Any,
}];

#[test]
fn a_read_fault_stops_one_of_two_counts(rt: HostRuntime) -> Result<(), Fail> {
    expect_told(&rt, rt.alloc(), ONE_STOPPED)
}

const SIX_SHARED: &[Told<'static>] = &[Told {
    words: "--threads 1 --frames 4 --rows 1 --trace a.csv b.sql",
    table: SIX_ROWS,
    batch: COUNT_TWICE,
    fail_gets: &[],
    fail_puts: &[],
    status: 0,
    output: &[
        "query 1\n6\nquery 2\n6\n",
        FIRST_OF_SIX,
        FROM_2,
        IN_PLACE_OF_2,
        IN_PLACE_OF_0,
    ],
    puts: None,
    gets: Some(8),
    taken: Some(&[
        (1, 0, 0, &[0, 1, 2, 3, 4, 5]),
        (2, 0, 0, &[2, 3, 4, 5, 0, 1]),
    ]),
    story: Story::Any,
}];

#[test]
fn two_counts_share_the_reads_of_a_six_chunk_table(rt: HostRuntime) -> Result<(), Fail> {
    expect_told(&rt, rt.alloc(), SIX_SHARED)
}

const NO_CHUNK: &[Told<'static>] = &[Told {
    words: TRACED,
    table: TABLE_A,
    batch: "SELECT COUNT(*), SUM(pay) FROM t WHERE id > 9;",
    fail_gets: &[],
    fail_puts: &[],
    status: 0,
    output: &["query 1\n0, NULL\nregister 0 1\nend 0 1\n"],
    puts: None,
    gets: Some(0),
    taken: None,
    story: Story::Any,
}];

#[test]
fn a_filter_that_needs_no_chunk(rt: HostRuntime) -> Result<(), Fail> {
    expect_told(&rt, rt.alloc(), NO_CHUNK)
}

const TWO_PARTS: &[Told<'static>] = &[
    Told {
        words: "--threads 2 --rows 2 --parts 2 a.csv b.sql",
        table: TABLE_A,
        batch: SUMS,
        fail_gets: &[],
        fail_puts: &[],
        status: 0,
        output: &[SUMS_PRINTED],
        puts: None,
        gets: None,
        taken: Some(&[(1, 0, 0, &[0, 2]), (1, 1, 1, &[1])]),
        story: Story::Any,
    },
    Told {
        words: IN_PARTS,
        table: TABLE_A,
        batch: SUMS,
        fail_gets: &[],
        fail_puts: &[],
        status: 0,
        output: &[SUMS_PRINTED],
        puts: None,
        gets: Some(3),
        taken: Some(&[(1, 0, 0, &[0, 2]), (1, 1, 0, &[1])]),
        story: Story::Any,
    },
];

#[test]
fn one_query_in_two_parts(rt: HostRuntime) -> Result<(), Fail> {
    expect_told(&rt, rt.alloc(), TWO_PARTS)
}

const FAULTY_PART: &[Told<'static>] = &[Told {
    words: IN_PARTS,
    table: TABLE_A,
    batch: COUNT,
    fail_gets: &[2],
    fail_puts: &[],
    status: 1,
    output: &["refused 1: read fault\n"],
    puts: None,
    gets: Some(3),
    taken: None,
    story: Story::Has(Entry::End {
        worker: 0,
        query: 2,
    }),
}];

#[test]
fn a_part_that_meets_a_fault(rt: HostRuntime) -> Result<(), Fail> {
    expect_told(&rt, rt.alloc(), FAULTY_PART)
}

const NO_STORY: &[Told<'static>] = &[Told {
    words: WORDS,
    table: TABLE_A,
    batch: COUNT,
    fail_gets: &[],
    fail_puts: &[1],
    status: 5,
    output: &["stopped 5: piece 0 not stored\n"],
    puts: None,
    gets: None,
    taken: Some(&[]),
    story: Story::Entries(0),
}];

#[test]
fn stops_leave_no_story(rt: HostRuntime) -> Result<(), Fail> {
    expect_told(&rt, rt.alloc(), NO_STORY)
}
