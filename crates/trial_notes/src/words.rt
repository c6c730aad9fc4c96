// Verdicts on outputs that keep the rules of stories, and that no run with these words prints.
use crate::calls::each_says;
use std::test::Fail;

// A table of one row and a batch of three counts, and outputs of them. A piece of the table has two words.
const FILES: &[(&str, &[u8])] = &[
    ("table", b"a\n1\n"),
    (
        "batch",
        b"SELECT COUNT(*) FROM t;\nSELECT COUNT(*) FROM t;\nSELECT COUNT(*) FROM t;\n",
    ),
    (
        "in_order",
        b"query 1\n1\nquery 2\n1\nquery 3\n1
register 0 1\nplan 0 1 0\nfill 0 0 0\nfilled 0 0 0\ndeliver 0 1 0\nrelease 0 1 0\nend 0 1
register 0 2\ndeliver 0 2 0\nrelease 0 2 0\nend 0 2
register 0 3\ndeliver 0 3 0\nrelease 0 3 0\nend 0 3
",
    ),
    (
        "backwards",
        b"query 1\n1\nquery 2\n1\nquery 3\n1
register 0 3\nplan 0 3 0\nfill 0 0 0\nfilled 0 0 0\ndeliver 0 3 0\nrelease 0 3 0\nend 0 3
register 0 2\ndeliver 0 2 0\nrelease 0 2 0\nend 0 2
register 0 1\ndeliver 0 1 0\nrelease 0 1 0\nend 0 1
",
    ),
    (
        "one_fault",
        b"refused 1: read fault\nquery 2\n1\nquery 3\n1
register 0 1\nplan 0 1 0\nfill 0 0 0\nfailed 0 1 0 fault 5 6
register 0 2\nplan 0 2 0\nfill 0 0 0\nfilled 0 0 0\ndeliver 0 2 0\nrelease 0 2 0\nend 0 2
register 0 3\ndeliver 0 3 0\nrelease 0 3 0\nend 0 3
",
    ),
    (
        "count_fell",
        b"refused 1: read fault\nrefused 2: read fault\nquery 3\n1
register 0 1\nplan 0 1 0\nfill 0 0 0\nfailed 0 1 0 fault 5 6
register 0 2\nplan 0 2 0\nfill 0 0 0\nfailed 0 2 0 fault 0 1
register 0 3\nplan 0 3 0\nfill 0 0 0\nfilled 0 0 0\ndeliver 0 3 0\nrelease 0 3 0\nend 0 3
",
    ),
    (
        "count_rises",
        b"refused 1: read fault\nrefused 2: read fault\nquery 3\n1
register 0 1\nplan 0 1 0\nfill 0 0 0\nfailed 0 1 0 fault 5 6
register 0 2\nplan 0 2 0\nfill 0 0 0\nfailed 0 2 0 fault 6 9
register 0 3\nplan 0 3 0\nfill 0 0 0\nfilled 0 0 0\ndeliver 0 3 0\nrelease 0 3 0\nend 0 3
",
    ),
    (
        "word_3",
        b"refused 1: damaged piece 0\nquery 2\n1\nquery 3\n1
register 0 1\nplan 0 1 0\nfill 0 0 0\nfailed 0 1 0 damage 3
register 0 2\nplan 0 2 0\nfill 0 0 0\nfilled 0 0 0\ndeliver 0 2 0\nrelease 0 2 0\nend 0 2
register 0 3\ndeliver 0 3 0\nrelease 0 3 0\nend 0 3
",
    ),
    (
        "word_1",
        b"refused 1: damaged piece 0\nquery 2\n1\nquery 3\n1
register 0 1\nplan 0 1 0\nfill 0 0 0\nfailed 0 1 0 damage 1
register 0 2\nplan 0 2 0\nfill 0 0 0\nfilled 0 0 0\ndeliver 0 2 0\nrelease 0 2 0\nend 0 2
register 0 3\ndeliver 0 3 0\nrelease 0 3 0\nend 0 3
",
    ),
    (
        "all_at_once",
        b"refused 1: damaged piece 0\nrefused 2: read fault\nrefused 3: read fault
register 0 3\nplan 0 3 0\nfill 0 0 0\nfailed 0 3 0 fault 5 6
register 0 2\nplan 0 2 0\nfill 0 0 0\nfailed 0 2 0 fault 0 1
register 0 1\nplan 0 1 0\nfill 0 0 0\nfailed 0 1 0 damage 3
",
    ),
];

// Words, the status, and what goes to standard output and to standard error.
const SAID: &[(&str, u8, &str, &str)] = &[
    (
        "judge|--threads|1|--frames|4|--rows|1|table|batch|in_order",
        0,
        "legal: 15 entries, 1 reads, at most 3\nregister 3, plan 1, evict 0, fill 1, filled 1, failed 0, deliver 3, release 3, stop 0, end 3\n",
        "",
    ),
    (
        "judge|--threads|1|--frames|4|--rows|1|table|batch|all_at_once",
        1,
        "not legal: line 4 may not come: the worker registers query 1 next, found register 0 3\n",
        "",
    ),
    (
        "judge|--threads|1|--frames|4|--rows|1|--scratch|f|table|batch|all_at_once",
        1,
        "not legal: line 4 may not come: the worker registers query 1 next, found register 0 3\n",
        "",
    ),
    (
        "judge|--threads|1|--frames|4|--rows|1|table|batch|backwards",
        1,
        "not legal: line 7 may not come: the worker registers query 1 next, found register 0 3\n",
        "",
    ),
    (
        "judge|--threads|1|--frames|4|--rows|1|table|batch|one_fault",
        1,
        "not legal: line 9 may not come: without --scratch no read fails, found failed 0 1 0 fault 5 6\n",
        "",
    ),
    (
        "judge|--threads|1|--frames|4|--rows|1|--scratch|f|table|batch|one_fault",
        0,
        "legal: 15 entries, 2 reads, at most 3\nregister 3, plan 2, evict 0, fill 2, filled 1, failed 1, deliver 2, release 2, stop 0, end 2\n",
        "",
    ),
    (
        "judge|--threads|1|--frames|4|--rows|1|--scratch|f|table|batch|count_fell",
        1,
        "not legal: line 12 may not come: the count of faults had come to 6 before, found failed 0 2 0 fault 0 1\n",
        "",
    ),
    (
        "judge|--threads|1|--frames|4|--rows|1|--scratch|f|table|batch|count_rises",
        0,
        "legal: 15 entries, 3 reads, at most 3\nregister 3, plan 3, evict 0, fill 3, filled 1, failed 2, deliver 1, release 1, stop 0, end 1\n",
        "",
    ),
    (
        "judge|--threads|1|--frames|4|--rows|1|--scratch|f|table|batch|word_3",
        1,
        "not legal: line 9 may not come: the piece has no such word, found failed 0 1 0 damage 3\n",
        "",
    ),
    (
        "judge|--threads|1|--frames|4|--rows|1|--scratch|f|table|batch|word_1",
        0,
        "legal: 15 entries, 2 reads, at most 3\nregister 3, plan 2, evict 0, fill 2, filled 1, failed 1, deliver 2, release 2, stop 0, end 2\n",
        "",
    ),
    (
        "judge|--threads|1|--frames|4|--rows|1|table|batch|word_1",
        1,
        "not legal: line 9 may not come: without --scratch no read fails, found failed 0 1 0 damage 1\n",
        "",
    ),
];

#[test]
fn outputs_that_no_run_prints_are_not_legal(rt: HostRuntime) -> Result<(), Fail> {
    each_says(&rt, rt.alloc(), FILES, SAID)
}
