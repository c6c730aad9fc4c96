// Answers by the worked examples.
use super::{COUNT, Case, SUMS, SUMS_PRINTED, WORDS, ends_so, expect_cases};
use coop_outside::{MemDepot, SpoiltDepot};
use help_stories::tables::TABLE_A;
use std::test::Fail;

const ORDERS: &str =
    "l_orderkey,l_partkey,l_suppkey,l_linenumber,l_quantity,l_extendedprice,l_discount,l_tax,l_returnflag,l_linestatus,l_shipdate,l_commitdate,l_receiptdate,l_shipinstruct,l_shipmode,l_comment
1,155,77,1,17,21168.23,0.04,0.02,N,O,1996-03-13,1996-02-12,1996-03-22,DELIVER IN PERSON,TRUCK,\"left, early\"
1,673,73,2,36,45983.16,0.09,0.06,N,O,1996-04-12,1996-02-28,1996-04-20,TAKE BACK RETURN,MAIL,late
2,106,11,1,38,44694.46,0.00,0.05,N,O,1998-12-01,1998-11-14,1998-12-05,NONE,RAIL,
";

const PRICES: &str = "id,p\n1,1.50\n2,-0.25\n3,\n4,3\n";

const OVER_TABLE_A: &[Case<'static>] = &[
    (WORDS, TABLE_A, COUNT, 0, "query 1\n5\n"),
    (WORDS, TABLE_A, SUMS, 0, SUMS_PRINTED),
    (
        WORDS,
        TABLE_A,
        "SELECT SUM(pay) FROM t WHERE id >= 4;",
        0,
        "query 1\n35\n",
    ),
    (
        WORDS,
        TABLE_A,
        "SELECT COUNT(*), SUM(pay) FROM t WHERE id > 9;",
        0,
        "query 1\n0, NULL\n",
    ),
    (
        WORDS,
        TABLE_A,
        "SELECT COUNT(*) FROM t WHERE NOT pay > 15;",
        0,
        "query 1\n2\n",
    ),
    (WORDS, TABLE_A, "; -- nothing", 0, ""),
    (
        "--summary --rows 2 a.csv b.sql",
        TABLE_A,
        "SELECT COUNT(*) FROM t; SELECT x FROM; SELECT SUM(pay) FROM t WHERE id >= 4",
        1,
        "query 1\n5\nrefused 2: syntax\nquery 3\n35\nsummary: 3 queries, 2 answered, 5 deliveries, 5 rows\n",
    ),
];

#[test]
fn answers_over_table_a(rt: HostRuntime) -> Result<(), Fail> {
    expect_cases(&rt, rt.alloc(), OVER_TABLE_A)
}

const OVER_OTHER_TABLES: &[Case<'static>] = &[
    (
        WORDS,
        "x\n1\n\"\"\n\n3\n",
        "SELECT COUNT(*), COUNT(x), SUM(x) FROM t",
        0,
        "query 1\n3, 2, 4\n",
    ),
    (
        "a.csv b.sql",
        ORDERS,
        "SELECT l_returnflag, l_linestatus, COUNT(*), SUM(l_quantity) FROM t WHERE l_shipdate <= '1998-09-02' GROUP BY \
l_returnflag, l_linestatus;",
        0,
        "query 1\n'N', 'O', 2, 53\n",
    ),
    (
        "a.csv b.sql",
        ORDERS,
        "SELECT SUM(l_extendedprice), MIN(l_discount), MAX(l_tax) FROM t",
        0,
        "query 1\n111845.85, 0.00, 0.06\n",
    ),
    (
        WORDS,
        "g,v\n,1\nx,2\n,3\n",
        "SELECT g, SUM(v) FROM t GROUP BY g",
        0,
        "query 1\nNULL, 4\n'x', 2\n",
    ),
    (
        WORDS,
        "n\nO'Brien\nAda\n",
        "SELECT MIN(n), MAX(n) FROM t",
        0,
        "query 1\n'Ada', 'O''Brien'\n",
    ),
    (
        WORDS,
        PRICES,
        "SELECT COUNT(p), SUM(p), MIN(p) FROM t WHERE p < 2.505",
        0,
        "query 1\n2, 1.25, -0.25\n",
    ),
    (
        WORDS,
        PRICES,
        "SELECT SUM(p), MAX(p) FROM t",
        0,
        "query 1\n4.25, 3.00\n",
    ),
];

#[test]
fn answers_over_other_tables(rt: HostRuntime) -> Result<(), Fail> {
    expect_cases(&rt, rt.alloc(), OVER_OTHER_TABLES)
}

const AT_THE_EDGE: &[Case<'static>] = &[
    (
        WORDS,
        "v\n9223372036854775807\n1\n",
        "SELECT SUM(v) FROM t",
        1,
        "refused 1: sum overflow item 1 total 9223372036854775808\n",
    ),
    (
        WORDS,
        "p\n92233720368547758.07\n0.01\n",
        "SELECT SUM(p) FROM t",
        1,
        "refused 1: sum overflow item 1 total 92233720368547758.08\n",
    ),
    (
        WORDS,
        "x\n1.0000000001\n",
        "SELECT SUM(x) FROM t",
        1,
        "refused 1: wrong kind 'x'\n",
    ),
];

#[test]
fn sums_at_the_edge_of_64_bits(rt: HostRuntime) -> Result<(), Fail> {
    expect_cases(&rt, rt.alloc(), AT_THE_EDGE)
}

const SUM: &str = "SELECT SUM(pay) FROM t;";

const SPOILT: Case<'static> = (WORDS, TABLE_A, SUM, 0, "query 1\n105\n");

const UNSPOILT: &[Case<'static>] = &[(WORDS, TABLE_A, SUM, 0, "query 1\n65\n")];

#[test]
fn answers_come_from_the_depot(rt: HostRuntime) -> Result<(), Fail> {
    let depot = SpoiltDepot {
        inner: MemDepot::new(rt.alloc()),
        piece: 0,
        word: 3,
        value: 50,
    };
    assert!(rt; ends_so(&rt, rt.alloc(), &SPOILT, depot)?);
    expect_cases(&rt, rt.alloc(), UNSPOILT)
}

const REPORT: &str = "-- what each region sold
SELECT region, COUNT(*), SUM(amount) FROM t GROUP BY region;
-- the two greatest orders
SELECT day, region, amount FROM t ORDER BY amount DESC LIMIT 2;
SELECT MIN(day), MAX(day) FROM t WHERE amount >= 40;
SELECT SUM(region) FROM t;
";

const OF_THE_MANUAL: &[Case<'static>] = &[(
    "--summary a.csv b.sql",
    "day,region,amount\n2026-01-05,north,120.50\n2026-01-05,south,80.00\n2026-01-06,north,\n2026-01-07,west,42.25\n\
2026-01-07,south,19.75\n",
    REPORT,
    1,
    "query 1\n'north', 2, 120.50\n'south', 2, 99.75\n'west', 1, 42.25\nquery 2\n'2026-01-05', 'north', 120.50\n\
'2026-01-05', 'south', 80.00\nquery 3\n'2026-01-05', '2026-01-07'\nrefused 4: wrong kind 'region'\n\
summary: 4 queries, 3 answered, 3 deliveries, 5 rows\n",
)];

#[test]
fn the_example_of_the_manual(rt: HostRuntime) -> Result<(), Fail> {
    expect_cases(&rt, rt.alloc(), OF_THE_MANUAL)
}
