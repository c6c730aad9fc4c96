// What makes scans wait, in small.

/// One run: its words, a statement and how often it stands in the batch, how many microseconds a get takes, and how
/// many one query works on each chunk.
#[derive(Clone, Copy)]
pub(super) struct Case<'a> {
    pub(super) words: &'a str,
    pub(super) statement: &'a str,
    pub(super) times: u32,
    pub(super) get_us: u32,
    pub(super) slow_query: u32,
    pub(super) slow_us: u32,
}

const SUMS: &str = "SELECT grp, COUNT(*), SUM(val) FROM t GROUP BY grp;\n";

/// Sixteen columns over eight rows.
pub(super) const WIDE: &str = "a,b,c,d,e,f,g,h,i,j,k,l,m,n,o,p\n\
    1,2,3,4,5,6,7,8,9,10,11,12,13,14,15,16\n\
    2,3,4,5,6,7,8,9,10,11,12,13,14,15,16,17\n\
    3,4,5,6,7,8,9,10,11,12,13,14,15,16,17,18\n\
    4,5,6,7,8,9,10,11,12,13,14,15,16,17,18,19\n\
    5,6,7,8,9,10,11,12,13,14,15,16,17,18,19,20\n\
    6,7,8,9,10,11,12,13,14,15,16,17,18,19,20,21\n\
    7,8,9,10,11,12,13,14,15,16,17,18,19,20,21,22\n\
    8,9,10,11,12,13,14,15,16,17,18,19,20,21,22,23\n";

const ALL_COLUMNS: &str = "SELECT SUM(a), SUM(b), SUM(c), SUM(d), SUM(e), SUM(f), SUM(g), SUM(h), \
    SUM(i), SUM(j), SUM(k), SUM(l), SUM(m), SUM(n), SUM(o), SUM(p) FROM t;\n";

/// Cases that are answered as if nobody had to wait.
pub(super) const WAITING: &[Case<'static>] = &[
    // a get takes half a second, for eight scans of four chunks
    Case {
        words: "--threads 8 --rows 16 gen:7:64 b.sql",
        statement: SUMS,
        times: 8,
        get_us: 500_000,
        slow_query: 0,
        slow_us: 0,
    },
    // as many scans as a batch may have, on as many workers
    Case {
        words: "--threads 32 --rows 16 gen:7:128 b.sql",
        statement: SUMS,
        times: 256,
        get_us: 0,
        slow_query: 0,
        slow_us: 0,
    },
    // sixteen pieces a chunk, on eight workers
    Case {
        words: "--threads 8 --rows 2 --layout column a.csv b.sql",
        statement: ALL_COLUMNS,
        times: 16,
        get_us: 1_000,
        slow_query: 0,
        slow_us: 0,
    },
];

/// One scan among 32 works on each of its 32 chunks for 20 ms; the others need some microseconds for one.
pub(super) const SLOW_SCAN: Case<'static> = Case {
    words: "--threads 32 --rows 16 gen:7:512 b.sql",
    statement: SUMS,
    times: 32,
    get_us: 0,
    slow_query: 5,
    slow_us: 20_000,
};

/// How many chunks the others of `SLOW_SCAN` take together.
pub(super) const CHUNKS_OF_OTHERS: u64 = 31 * 32;

/// Gets take long, and one of them fails.
pub(super) const FAILING: Case<'static> = Case {
    words: "--threads 8 --rows 16 gen:7:64 b.sql",
    statement: SUMS,
    times: 8,
    get_us: 50_000,
    slow_query: 0,
    slow_us: 0,
};

/// The get of `FAILING` that fails, counted from 1.
pub(super) const FAILING_GET: u64 = 2;
