// What coop_inspect says of stories in settings, both as text: whole texts, worked by hand.
use crate::calls::each_says;
use std::test::Fail;

// Files by their names: settings, and stories of engines that are nobody's.
const FILES: &[(&str, &[u8])] = &[
    (
        "one",
        b"workers 1 frames 4 chunks 1 groups 1 policy relevance\nquery 1 worker 0 chunks 0 columns 0\n",
    ),
    (
        "two-chunks",
        b"workers 1 frames 4 chunks 2 groups 1 policy normal\nquery 1 worker 0 chunks 0,1 columns 0\n",
    ),
    (
        "free",
        b"workers 1 frames 4 chunks 2 groups 1 policy any\nquery 1 worker 0 chunks 0,1 columns 0\n",
    ),
    (
        "two-workers",
        b"workers 2 frames 7 chunks 1 groups 1 policy normal\nquery 1 worker 0 chunks 0 columns 0\n",
    ),
    (
        "two-queries",
        b"workers 1 frames 4 chunks 1 groups 1 policy any
query 1 worker 0 chunks 0 columns 0
query 2 worker 0 chunks 0 columns 0
",
    ),
    // Settings that contradict themselves, and what is none.
    (
        "no-worker",
        b"workers 0 frames 4 chunks 1 groups 1 policy any\n",
    ),
    (
        "few-frames",
        b"workers 2 frames 6 chunks 1 groups 1 policy any\n",
    ),
    (
        "twice",
        b"workers 1 frames 4 chunks 1 groups 1 policy any
query 1 worker 0 chunks 0 columns 0
query 1 worker 0 chunks - columns 0
",
    ),
    (
        "past",
        b"workers 1 frames 4 chunks 1 groups 1 policy any\nquery 1 worker 0 chunks 0,1 columns 0\n",
    ),
    (
        "cut-setting",
        b"workers 1 frames 4 chunks 1 groups 1 policy any\nquery 1 worker 0 chunks 0 columns 0",
    ),
    ("bytes", b"\xff\x00\n"),
    ("sign", b"\xc3\xa9\n"),
    ("nothing", b""),
    // Chunk 0 on worker 0, and on worker 1.
    (
        "right",
        b"register 0 1\nplan 0 1 0\nfill 0 0 0\nfilled 0 0 0\ndeliver 0 1 0\nrelease 0 1 0\nend 0 1\n",
    ),
    (
        "on-one",
        b"register 1 1\nplan 1 1 0\nfill 1 0 0\nfilled 1 0 0\ndeliver 1 1 0\nrelease 1 1 0\nend 1 1\n",
    ),
    (
        "on-two",
        b"register 2 1\nplan 2 1 0\nfill 2 0 0\nfilled 2 0 0\ndeliver 2 1 0\nrelease 2 1 0\nend 2 1\n",
    ),
    // Chunk 1 first, which normal doesn't take.
    (
        "backwards",
        b"register 0 1
plan 0 1 1
fill 0 0 1
filled 0 0 1
deliver 0 1 1
release 0 1 1
plan 0 1 0
fill 0 1 0
filled 0 1 0
deliver 0 1 0
release 0 1 0
end 0 1
",
    ),
    // Chunk 1, that query 1 of the setting `one` doesn't need; query 2, that it hasn't.
    ("another-need", b"register 0 1\nplan 0 1 1\n"),
    ("another-query", b"register 0 2\n"),
    // Two entries that may not come, and behind them what is no entry.
    ("two-offences", b"register 0 1\nfill 0 0 0\nend 0 1\nplan"),
    (
        "no-entry",
        b"register 0 1\nplan 0 1 0\nfill 0 0\nfill 0 9 0\n",
    ),
    ("cut", b"register 0 1\nplan 0 1 0\n"),
    // The counts of faults go on, and they fall.
    (
        "faults",
        b"register 0 1
plan 0 1 0
fill 0 0 0
failed 0 1 0 fault 5 6
register 0 2
plan 0 2 0
fill 0 0 0
failed 0 2 0 fault 6 7
",
    ),
    (
        "fell",
        b"register 0 1
plan 0 1 0
fill 0 0 0
failed 0 1 0 fault 5 6
register 0 2
plan 0 2 0
fill 0 0 0
failed 0 2 0 fault 3 4
",
    ),
];

const ONE_CHUNK: &str = "legal: 7 entries
register 1, plan 1, evict 0, fill 1, filled 1, failed 0, deliver 1, release 1, stop 0, end 1
";

const TWO_CHUNKS: &str = "legal: 12 entries
register 1, plan 2, evict 0, fill 2, filled 2, failed 0, deliver 2, release 2, stop 0, end 1
";

// Words, the status, and what goes to standard output and to standard error.
const SAID: &[(&str, u8, &str, &str)] = &[
    ("judge|--story|one|right", 0, ONE_CHUNK, ""),
    ("judge|--story|--policy|any|one|right", 0, ONE_CHUNK, ""),
    (
        "judge|--story|two-chunks|backwards",
        1,
        "not legal: line 2 loads another chunk than 0, which was better: 0 steps before 1 steps, found plan 0 1 1\n",
        "",
    ),
    (
        "judge|--story|--policy|any|two-chunks|backwards",
        0,
        TWO_CHUNKS,
        "",
    ),
    ("judge|--story|free|backwards", 0, TWO_CHUNKS, ""),
    (
        "judge|--story|two-workers|on-one",
        1,
        "not legal: line 1 may not come: the query is another worker's, found register 1 1\n",
        "",
    ),
    (
        "judge|--story|--dealt|any|two-workers|on-one",
        0,
        ONE_CHUNK,
        "",
    ),
    (
        "judge|--story|--dealt|any|two-workers|on-two",
        1,
        "not legal: line 1 may not come: the query is another worker's, found register 2 1\n",
        "",
    ),
    (
        "judge|--story|one|another-need",
        1,
        "not legal: line 2 may not come: the query doesn't need the chunk, or its pieces are all in frames, \
            found plan 0 1 1\n",
        "",
    ),
    (
        "judge|--story|--dealt|any|one|another-query",
        1,
        "not legal: line 1 may not come: the query is another worker's, found register 0 2\n",
        "",
    ),
    (
        "judge|--story|one|two-offences",
        1,
        "not legal: line 2 may not come: no load of the worker is underway, found fill 0 0 0\n",
        "",
    ),
    (
        "judge|--story|one|no-entry",
        1,
        "not legal: line 3 is no entry, found fill 0 0\n",
        "",
    ),
    (
        "judge|--story|one|cut",
        1,
        "not legal: a query isn't over, or something is left open, at the end before line 3, found the end\n",
        "",
    ),
    (
        "judge|--story|one|nothing",
        1,
        "not legal: a query isn't over, or something is left open, at the end before line 1, found the end\n",
        "",
    ),
    (
        "judge|--story|one|sign",
        1,
        "not legal: line 1 is no entry, found \u{e9}\n",
        "",
    ),
    (
        "judge|--story|two-queries|faults",
        0,
        "legal: 8 entries
register 2, plan 2, evict 0, fill 2, filled 0, failed 2, deliver 0, release 0, stop 0, end 0
",
        "",
    ),
    (
        "judge|--story|two-queries|fell",
        1,
        "not legal: line 8 may not come: the count of faults had come to 6 before, found failed 0 2 0 fault 3 4\n",
        "",
    ),
    (
        "judge|--story|no-worker|right",
        3,
        "",
        "stopped 3: line 1 of the setting: there have to be 1 to 32 workers\n",
    ),
    (
        "judge|--story|few-frames|right",
        3,
        "",
        "stopped 3: line 1 of the setting: frames have to be at least (3 * workers + 1) * groups\n",
    ),
    (
        "judge|--story|twice|right",
        3,
        "",
        "stopped 3: line 3 of the setting: the query has a line before\n",
    ),
    (
        "judge|--story|past|right",
        3,
        "",
        "stopped 3: line 2 of the setting: the table has no such chunk\n",
    ),
    (
        "judge|--story|cut-setting|right",
        3,
        "",
        "stopped 3: line 2 of the setting isn't query Q worker W chunks C,.. columns G,..\n",
    ),
    (
        "judge|--story|bytes|right",
        3,
        "",
        "stopped 3: line 1 of the setting isn't workers W frames F chunks C groups G policy P\n",
    ),
    (
        "judge|--story|none|right",
        4,
        "",
        "stopped 4: setting read fault\n",
    ),
    (
        "judge|--story|one|none",
        4,
        "",
        "stopped 4: story read fault\n",
    ),
];

#[test]
fn a_story_is_judged_in_a_setting(rt: HostRuntime) -> Result<(), Fail> {
    each_says(&rt, rt.alloc(), FILES, SAID)
}
