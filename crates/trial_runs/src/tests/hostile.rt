// Hostile tables and batches: each is accepted, or stops the run, or is refused, as the limits say.
use super::{COUNT, Case, WORDS, ends_so, expect_cases, run_beside};
use coop_outside::MemDepot;
use cscan::NoGate;
use help_stories::tables::TABLE_A;
use std::alloc::Global;
use std::process::Abort;
use std::random::RandomSource;
use std::sync::Wait;
use std::test::Fail;
use std::thread::Threads;

const DEFAULTS: &str = "a.csv b.sql";

const A_ROW_A_CHUNK: &str = "--rows 1 a.csv b.sql";

const HOSTILE_TABLES: &[Case<'static>] = &[
    (
        DEFAULTS,
        "a,b,c,d,e,f,g,h,i,j,k,l,m,n,o,p\n",
        COUNT,
        0,
        "query 1\n0\n",
    ),
    (
        DEFAULTS,
        "a,b,c,d,e,f,g,h,i,j,k,l,m,n,o,p,q\n",
        COUNT,
        3,
        "stopped 3: 17 columns\n",
    ),
    (
        DEFAULTS,
        "a,b,b,a\n",
        COUNT,
        3,
        "stopped 3: columns 1 and 2 have one name\n",
    ),
    (
        DEFAULTS,
        "a,b\n1,2\n3\n4,5,6\n",
        COUNT,
        3,
        "stopped 3: row 2 has 1 fields\n",
    ),
];

#[test]
fn hostile_tables(rt: HostRuntime) -> Result<(), Fail> {
    expect_cases(&rt, rt.alloc(), HOSTILE_TABLES)
}

// A text: its front, so many times its part, and its end.
#[derive(Clone, Copy)]
struct Long<'a> {
    front: &'a str,
    part: &'a str,
    count: u32,
    end: &'a str,
}

fn written(alloc: Global, long: Long<'_>) -> Result<String, Fail> {
    let mut text = String::from_str(alloc, long.front)?;
    for _ in 0..long.count {
        text.push_str(long.part)?;
    }
    text.push_str(long.end)?;
    Ok(text)
}

// Words, a long table or batch, the status and the output.
type LongCase<'a> = (&'a str, Long<'a>, u8, &'a str);

// Each case, with a long table and a count, ends as it should.
fn expect_long_tables<R: Abort + RandomSource + Threads + Wait + Sync>(
    rt: &R,
    alloc: Global,
    cases: &[LongCase<'_>],
) -> Result<(), Fail> {
    for (words, long, status, output) in cases {
        let table = written(alloc, *long)?;
        let case = (*words, table.as_str(), COUNT, *status, *output);
        let is_right = ends_so(rt, alloc, &case, MemDepot::new(alloc))?;
        assert!(rt; is_right, "{output}");
    }
    Ok(())
}

// Names of 128 and 129 bytes, and 1024 and 1025 chunks.
const LONG_TABLES: &[LongCase<'static>] = &[
    (
        DEFAULTS,
        Long {
            front: "a,",
            part: "n",
            count: 128,
            end: "\n",
        },
        0,
        "query 1\n0\n",
    ),
    (
        DEFAULTS,
        Long {
            front: "a,",
            part: "n",
            count: 129,
            end: "\n",
        },
        3,
        "stopped 3: name of column 1 too long\n",
    ),
    (
        A_ROW_A_CHUNK,
        Long {
            front: "a\n",
            part: "1\n",
            count: 1024,
            end: "",
        },
        0,
        "query 1\n1024\n",
    ),
    (
        A_ROW_A_CHUNK,
        Long {
            front: "a\n",
            part: "1\n",
            count: 1025,
            end: "",
        },
        3,
        "stopped 3: 1025 chunks\n",
    ),
];

#[test]
fn long_tables(rt: HostRuntime) -> Result<(), Fail> {
    expect_long_tables(&rt, rt.alloc(), LONG_TABLES)
}

const TOO_MANY_ROWS: &[LongCase<'static>] = &[(
    DEFAULTS,
    Long {
        front: "a\n",
        part: "1\n",
        count: 2097153,
        end: "",
    },
    3,
    "stopped 3: too many rows\n",
)];

#[test]
fn a_table_with_too_many_rows(rt: HostRuntime) -> Result<(), Fail> {
    expect_long_tables(&rt, rt.alloc(), TOO_MANY_ROWS)
}

// Whether the output over a cell of bytes that are no UTF-8 has them.
fn are_kept<R: RandomSource + Threads + Wait + Sync>(
    rt: &R,
    alloc: Global,
    table: &[u8],
    output: &[u8],
) -> Result<bool, Fail> {
    let least = b"SELECT MIN(a) FROM t";
    let depot = MemDepot::new(alloc);
    let left = run_beside(rt, alloc, DEFAULTS, table, least, depot, &NoGate)?;
    Ok(left.ended.status == 0 && left.output.as_slice() == output)
}

#[test]
fn a_cell_of_bytes_that_are_no_utf_8(rt: HostRuntime) -> Result<(), Fail> {
    assert!(rt; are_kept(&rt, rt.alloc(), b"a\n\xff\xfe\n", b"query 1\n'\xff\xfe'\n")?);
    Ok(())
}

const HOSTILE_BATCHES: &[Case<'static>] = &[
    (WORDS, TABLE_A, "SELECT 'a", 1, "refused 1: syntax\n"),
    (
        WORDS,
        TABLE_A,
        "SELECT COUNT(*) FROM t WHERE id = 9223372036854775808",
        1,
        "refused 1: syntax\n",
    ),
    (
        WORDS,
        TABLE_A,
        "SELECT COUNT(*) FROM t WHERE id = -9223372036854775808",
        0,
        "query 1\n0\n",
    ),
    (
        "--threads 1 --frames 3 c.csv b.sql",
        TABLE_A,
        COUNT,
        4,
        "stopped 4: table read fault\n",
    ),
    (
        WORDS,
        TABLE_A,
        "SELECT zz, yy FROM t WHERE dept = 1",
        1,
        "refused 1: unknown column 'zz'\n",
    ),
];

#[test]
fn hostile_batches(rt: HostRuntime) -> Result<(), Fail> {
    expect_cases(&rt, rt.alloc(), HOSTILE_BATCHES)
}

// Each case, with table A and a long batch, ends as it should.
fn expect_long_batches<R: Abort + RandomSource + Threads + Wait + Sync>(
    rt: &R,
    alloc: Global,
    cases: &[LongCase<'_>],
) -> Result<(), Fail> {
    for (words, long, status, output) in cases {
        let batch = written(alloc, *long)?;
        let case = (*words, TABLE_A, batch.as_str(), *status, *output);
        let is_right = ends_so(rt, alloc, &case, MemDepot::new(alloc))?;
        assert!(rt; is_right, "{output}");
    }
    Ok(())
}

// 257 statements, 258 scans, and a text too long.
const LONG_BATCHES: &[LongCase<'static>] = &[
    (
        WORDS,
        Long {
            front: "",
            part: COUNT,
            count: 257,
            end: "",
        },
        9,
        "stopped 9: 257 statements\n",
    ),
    (
        "--threads 1 --frames 4 --rows 2 --parts 2 a.csv b.sql",
        Long {
            front: "",
            part: COUNT,
            count: 129,
            end: "",
        },
        9,
        "stopped 9: 258 scans\n",
    ),
    (
        WORDS,
        Long {
            front: "",
            part: " ",
            count: 1048577,
            end: "",
        },
        9,
        "stopped 9: batch text too long\n",
    ),
];

#[test]
fn long_batches(rt: HostRuntime) -> Result<(), Fail> {
    expect_long_batches(&rt, rt.alloc(), LONG_BATCHES)
}

// A count with a condition in so many parentheses.
fn nested(alloc: Global, depth: u32) -> Result<String, Fail> {
    let opened = Long {
        front: "SELECT COUNT(*) FROM t WHERE ",
        part: "(",
        count: depth,
        end: "id = 1",
    };
    let front = written(alloc, opened)?;
    let closed = Long {
        front: front.as_str(),
        part: ")",
        count: depth,
        end: "",
    };
    written(alloc, closed)
}

// Each count with so many parentheses ends as it should.
fn expect_nested<R: Abort + RandomSource + Threads + Wait + Sync>(
    rt: &R,
    alloc: Global,
    rows: &[(u32, u8, &str)],
) -> Result<(), Fail> {
    for (depth, status, output) in rows {
        let batch = nested(alloc, *depth)?;
        let case = (WORDS, TABLE_A, batch.as_str(), *status, *output);
        let is_right = ends_so(rt, alloc, &case, MemDepot::new(alloc))?;
        assert!(rt; is_right, "{depth}");
    }
    Ok(())
}

const NESTED: &[(u32, u8, &str)] = &[
    (255, 0, "query 1\n1\n"),
    (256, 1, "refused 1: too nested\n"),
];

#[test]
fn nested_conditions(rt: HostRuntime) -> Result<(), Fail> {
    expect_nested(&rt, rt.alloc(), NESTED)
}

// The answers to so many counts of table A.
fn counted(alloc: Global, queries: u32) -> Result<String, Fail> {
    let mut text = String::new(alloc);
    for query in 1..=queries {
        let answer = format!(in alloc; "query {query}\n5\n")?;
        text.push_str(answer.as_str())?;
    }
    Ok(text)
}

#[test]
fn the_most_statements(rt: HostRuntime) -> Result<(), Fail> {
    let most = Long {
        front: "",
        part: COUNT,
        count: 256,
        end: "",
    };
    let answers = counted(rt.alloc(), 256)?;
    expect_long_batches(&rt, rt.alloc(), &[(WORDS, most, 0, answers.as_str())])
}
