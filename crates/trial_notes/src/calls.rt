// What coop_inspect says, over files in memory: whole texts.
use crate::smallest_picture::SMALLEST_PICTURE;
use coop_outside::{Bytes, MemShelf, MemSink};
use inspect_calls::inspect;
use std::alloc::Global;
use std::hash::RandomState;
use std::process::Abort;
use std::random::RandomSource;
use std::test::Fail;
use std::thread::Threads;

// Files by their names.
const FILES: &[(&str, &[u8])] = &[
    ("table", b"id,dept,pay\n1,a,10\n2,b,20\n3,a,\n"),
    ("other", b"id,dept,pay\n1,a,10\n2,b,20\n"),
    ("batch", b"SELECT COUNT(*) FROM t;\n"),
    ("query", b"SELECT SUM(pay) FROM t WHERE id > 1;\n"),
    (
        "mistakes",
        b"SELECT dept, SUM(pay) FROM t GROUP BY dept;\nSELECT COUNT(*)\n  FORM t;\n",
    ),
    // Each thing that is known from other SQL, a statement a line.
    (
        "foreign",
        b"SELECT DISTINCT dept FROM t;
SELECT id, avg(pay) FROM t;
SELECT SUM(pay) AS total FROM t;
SELECT id FROM t WHERE id IN (1, 2) LIMIT 9;
SELECT id FROM t WHERE id between 1 AND 2 LIMIT 9;
SELECT id FROM t WHERE dept LIKE 'n%' LIMIT 9;
SELECT dept FROM t GROUP BY dept HAVING SUM(pay) > 1;
SELECT id FROM t JOIN u;
SELECT * FROM t;
SELECT id FROM t WHERE dept = \"a\" LIMIT 9;
SELECT \"avg\" (id) FROM t;
",
    ),
    // A byte order mark, a text that isn't closed, and a sign of several bytes.
    (
        "marked",
        b"\xef\xbb\xbfSELECT id FROM t LIMIT 1; SELECT idd FROM t;
SELECT \xc3\xa9 FROM t;
SELECT id FROM t WHERE dept = 'it''s;",
    ),
    // What coop_cli prints of the batch with one worker and the whole table in one chunk.
    (
        "out",
        b"query 1\n3\nregister 0 1\nplan 0 1 0\nfill 0 0 0\nfilled 0 0 0\ndeliver 0 1 0\nrelease 0 1 0\nend 0 1\n",
    ),
    // The same, cut inside of a line, cut behind one, and with a line changed.
    ("cut", b"query 1\n3\nregister 0 1\nplan 0 1 0\nfill 0 0 0"),
    (
        "short",
        b"query 1\n3\nregister 0 1\nplan 0 1 0\nfill 0 0 0\n",
    ),
    (
        "changed",
        b"query 1\n3\nregister 0 1\nplan 0 1 0\nfill 0 4 0\n",
    ),
    (
        "wrong",
        b"query 1\n4\nregister 0 1\nplan 0 1 0\nfill 0 0 0\n",
    ),
    // A line that may not come, and a later one that is no entry.
    (
        "hidden",
        b"query 1\n3\nregister 0 1\nplan 0 1 0\nfill 0 4 0\nfilled 0 0",
    ),
    ("bytes", b"query 1\n3\nregister 0 1\nplan 0 1 \xff\n"),
    ("sign", b"query 1\n3\nregister 0 1\nplan 0 1 \xc3\xa9\n"),
    ("answers", b"query 1\n3\n"),
    // With the summary, and with that of another story.
    (
        "summed",
        b"query 1\n3\nsummary: 1 queries, 1 answered, 1 deliveries, 3 rows\nregister 0 1\nplan 0 1 0\nfill 0 0 0\nfilled 0 0 0\ndeliver 0 1 0\nrelease 0 1 0\nend 0 1\n",
    ),
    (
        "other-sum",
        b"query 1\n3\nsummary: 1 queries, 1 answered, 2 deliveries, 3 rows\nregister 0 1\nplan 0 1 0\nfill 0 0 0\nfilled 0 0 0\ndeliver 0 1 0\nrelease 0 1 0\nend 0 1\n",
    ),
    ("empty", b""),
];

// The line of a summary with a delivery too much.
const OTHER_SUMMARY: &str =
    "not legal: line 3 isn't what a run with this story prints, from byte 33 on: expected \
    summary: 1 queries, 1 answered, 1 deliveries, 3 rows, found summary: 1 queries, 1 answered, 2 deliveries, 3 rows
";

// Words, the status, and what goes to standard output and to standard error.
const SAID: &[(&str, u8, &str, &str)] = &[
    ("draw|out", 0, SMALLEST_PICTURE, ""),
    (
        "draw|--to|8|out",
        2,
        "",
        "error: --to 8 lies behind the last entry, 7\n",
    ),
    (
        "draw|--from|8|--to|9|out",
        2,
        "",
        "error: --from 8 lies behind the last entry, 7\n",
    ),
    (
        "setting|--threads|1|table|batch",
        0,
        "workers 1 frames 4 chunks 1 groups 1 policy relevance\nquery 1 worker 0 chunks 0 columns 0\n",
        "",
    ),
    (
        "setting|--threads|2|--frames|40|--rows|1|--layout|column|--parts|2|--policy|normal|table|query",
        0,
        "workers 2 frames 40 chunks 3 groups 3 policy normal\nquery 1 worker 0 chunks 1 columns 0,2\nquery 2 worker 1 chunks 2 columns 0,2\n",
        "",
    ),
    (
        "setting|--rows|2|--policy|attach|table|empty",
        0,
        "workers 4 frames 13 chunks 2 groups 1 policy attach\n",
        "",
    ),
    ("setting|none|batch", 4, "", "stopped 4: table read fault\n"),
    (
        "draw|--html|--to|8|out",
        2,
        "",
        "error: --to 8 lies behind the last entry, 7\n",
    ),
    ("draw|--html|none", 4, "", "stopped 4: output read fault\n"),
    ("draw|none", 4, "", "stopped 4: output read fault\n"),
    (
        "draw|cut",
        3,
        "",
        "stopped 3: line 5 of the output is no entry\n",
    ),
    (
        "draw|bytes",
        3,
        "",
        "stopped 3: line 4 of the output is no entry\n",
    ),
    ("draw|answers", 3, "", "stopped 3: no trace in the output\n"),
    ("draw|empty", 3, "", "stopped 3: no trace in the output\n"),
    (
        "judge|--threads|1|table|batch|out",
        0,
        "legal: 7 entries, 1 reads, at most 1\nregister 1, plan 1, evict 0, fill 1, filled 1, failed 0, deliver 1, release 1, stop 0, end 1\n",
        "",
    ),
    (
        "judge|--threads|1|table|batch|cut",
        1,
        "not legal: line 5 is no entry, found fill 0 0 0 and the end\n",
        "",
    ),
    (
        "judge|--threads|1|table|batch|sign",
        1,
        "not legal: line 4 is no entry, found plan 0 1 \u{e9}\n",
        "",
    ),
    (
        "judge|--threads|1|table|batch|hidden",
        1,
        "not legal: line 5 may not come: there is no such frame, found fill 0 4 0\n",
        "",
    ),
    (
        "judge|--threads|1|table|batch|short",
        1,
        "not legal: a query isn't over, or something is left open, at the end before line 6, found the end\n",
        "",
    ),
    (
        "judge|--threads|1|table|batch|changed",
        1,
        "not legal: line 5 may not come: there is no such frame, found fill 0 4 0\n",
        "",
    ),
    (
        "judge|--threads|1|table|batch|wrong",
        1,
        "not legal: line 2 isn't what query 1 prints, from byte 1 on: expected 3, found 4\n",
        "",
    ),
    (
        "judge|--threads|1|other|batch|out",
        1,
        "not legal: line 2 isn't what query 1 prints, from byte 1 on: expected 2, found 3\n",
        "",
    ),
    (
        "judge|--threads|1|table|batch|empty",
        1,
        "not legal: line 1 isn't what query 1 prints, from byte 1 on: expected query 1, found the end\n",
        "",
    ),
    (
        "judge|--threads|1|--summary|table|batch|answers",
        1,
        "not legal: no summary stands behind the answers, at line 3, found the end\n",
        "",
    ),
    (
        "judge|--threads|1|--summary|table|batch|out",
        1,
        "not legal: no summary stands behind the answers, at line 3, found register 0 1\n",
        "",
    ),
    (
        "judge|--threads|1|--summary|table|batch|summed",
        0,
        "legal: 7 entries, 1 reads, at most 1\nregister 1, plan 1, evict 0, fill 1, filled 1, failed 0, deliver 1, release 1, stop 0, end 1\n",
        "",
    ),
    (
        "judge|--threads|1|--summary|table|batch|other-sum",
        1,
        OTHER_SUMMARY,
        "",
    ),
    (
        "judge|--threads|1|table|batch|answers",
        1,
        "not legal: no trace stands behind the answers, at line 3, found the end\n",
        "",
    ),
    (
        "judge|none|batch|out",
        4,
        "",
        "stopped 4: table read fault\n",
    ),
    (
        "explain|table|query",
        0,
        "rows 3
column 1 \"id\": INT, 0 NULL, least 1, greatest 3
column 2 \"dept\": TEXT, 0 NULL, 2 distinct, least 'a', greatest 'b'
column 3 \"pay\": INT, 1 NULL, least 10, greatest 20
1: SELECT SUM ( \"pay\" ) FROM \"t\" WHERE \"id\" > 1
  reads \"id\", \"pay\"
  chunks 1 of 1
  nothing is left out: \"id\" is compared with a number that its zone in each chunk allows
",
        "",
    ),
    (
        "explain|table|foreign",
        1,
        "rows 3
column 1 \"id\": INT, 0 NULL, least 1, greatest 3
column 2 \"dept\": TEXT, 0 NULL, 2 distinct, least 'a', greatest 'b'
column 3 \"pay\": INT, 1 NULL, least 10, greatest 20
refused 1: syntax
  at 1:17 dept
  could stand there: FROM or ','
  DISTINCT is not in this language: GROUP BY the columns (docs/SQL.md)
refused 2: syntax
  at 2:15 (
  could stand there: FROM or ','
  AVG is not in this language: SUM and COUNT (docs/SQL.md)
refused 3: syntax
  at 3:17 AS
  could stand there: FROM or ','
  AS is not in this language: answers have no names, and the table is t (docs/SQL.md)
refused 4: syntax
  at 4:27 IN
  could stand there: IS or a comparison
  IN is not in this language: a comparison with each value, and OR between them (docs/SQL.md)
refused 5: syntax
  at 5:27 between
  could stand there: IS or a comparison
  BETWEEN is not in this language: >= the one and <= the other, and AND between them (docs/SQL.md)
refused 6: syntax
  at 6:29 LIKE
  could stand there: IS or a comparison
  LIKE is not in this language: texts compare by bytes, as in >= 'n' AND < 'o' (docs/SQL.md)
refused 7: syntax
  at 7:34 HAVING
  could stand there: ',' or the end
  HAVING is not in this language: leave it out, and choose among the lines of the answer (docs/SQL.md)
refused 8: syntax
  at 8:18 JOIN
  could stand there: WHERE, GROUP, ORDER, LIMIT or the end
  JOIN is not in this language: a batch is over one table, which is made before (docs/SQL.md)
refused 9: syntax
  at 9:8 *
  could stand there: a column's name, COUNT, SUM, MIN or MAX
  * for all columns is not in this language: name the columns; COUNT(*) counts rows (docs/SQL.md)
refused 10: syntax
  at 10:31 \"a\"
  could stand there: a number, a decimal, a text or '-'
  a text in double quotes is not in this language: single quotes; in double quotes stands a name (docs/SQL.md)
refused 11: syntax
  at 11:14 (
  could stand there: FROM or ','
",
        "",
    ),
    (
        "explain|table|marked",
        1,
        "rows 3
column 1 \"id\": INT, 0 NULL, least 1, greatest 3
column 2 \"dept\": TEXT, 0 NULL, 2 distinct, least 'a', greatest 'b'
column 3 \"pay\": INT, 1 NULL, least 10, greatest 20
1: SELECT \"id\" FROM \"t\" LIMIT 1
  reads \"id\"
  chunks 1 of 1
  nothing is left out: there is no WHERE
refused 2: unknown column 'idd'
  at 1:34 idd
refused 3: syntax
  at 2:8 \u{e9}
refused 4: syntax
  at 3:31 '
",
        "",
    ),
    (
        "explain|table|mistakes",
        1,
        "rows 3
column 1 \"id\": INT, 0 NULL, least 1, greatest 3
column 2 \"dept\": TEXT, 0 NULL, 2 distinct, least 'a', greatest 'b'
column 3 \"pay\": INT, 1 NULL, least 10, greatest 20
1: SELECT \"dept\" , SUM ( \"pay\" ) FROM \"t\" GROUP BY \"dept\"
  reads \"dept\", \"pay\"
  chunks 1 of 1
  nothing is left out: there is no WHERE
refused 2: syntax
  at 3:3 FORM
  could stand there: FROM or ','
",
        "",
    ),
];

fn words_of(alloc: Global, line: &str) -> Result<Vec<String>, Fail> {
    let mut words = Vec::new(alloc);
    for word in line.split('|') {
        words.push(String::from_str(alloc, word)?)?;
    }
    Ok(words)
}

fn shelf_of(alloc: Global, texts: &[(&str, &[u8])]) -> Result<MemShelf, Fail> {
    let mut files = Vec::new(alloc);
    for (name, text) in texts {
        let bytes = Bytes::new(Vec::from_slice(alloc, *text)?);
        files.push((String::from_str(alloc, *name)?, bytes))?;
    }
    Ok(MemShelf {
        files,
        fail_reads: Vec::new(alloc),
        calls: 0,
        faults: 0,
    })
}

fn sink(alloc: Global) -> MemSink {
    MemSink {
        taken: Bytes::new(Vec::new(alloc)),
        per_call: 4096,
        fail_writes: Vec::new(alloc),
        calls: 0,
        faults: 0,
    }
}

/// Fails where a call of these words over these files says another text, or ends with another status.
pub(crate) fn each_says<R: Abort + RandomSource + Threads + Sync>(
    rt: &R,
    alloc: Global,
    texts: &[(&str, &[u8])],
    said: &[(&str, u8, &str, &str)],
) -> Result<(), Fail> {
    for (line, status, text, fault) in said {
        let (mut out, mut err) = (sink(alloc), sink(alloc));
        let words = words_of(alloc, *line)?;
        let keys = RandomState::new(rt)?;
        let ended = inspect(
            rt,
            alloc,
            keys,
            &words,
            &mut shelf_of(alloc, texts)?,
            &mut out,
            &mut err,
        );
        assert!(rt; ended == *status, "{line}");
        assert!(rt; out.taken.as_slice() == text.as_bytes(), "{line}");
        assert!(rt; err.taken.as_slice() == fault.as_bytes(), "{line}");
    }
    Ok(())
}

#[test]
fn each_call_says_just_its_text(rt: HostRuntime) -> Result<(), Fail> {
    each_says(&rt, rt.alloc(), FILES, SAID)
}
