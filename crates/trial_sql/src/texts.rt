// Texts with their queries or refusals, written by hand from the rules of `docs/SQL.md`.

use crate::line::Line;
use sql_text::{Literal, QCond, QItem, QOrder, Query, TextRefusal, read_query};
use sql_writing::write_query;
use std::alloc::{AllocError, Global};
use std::process::Abort;
use std::test::Fail;
use table_core::{Bytes, Op};

fn show_item(item: &QItem, out: &mut Line) {
    let (mark, name) = match item {
        QItem::CountAll => (&b"#"[..], &b""[..]),
        QItem::Count(name) => (&b"#"[..], name.as_slice()),
        QItem::Sum(name) => (&b"+"[..], name.as_slice()),
        QItem::Min(name) => (&b"<"[..], name.as_slice()),
        QItem::Max(name) => (&b">"[..], name.as_slice()),
        QItem::Plain(name) => (&b""[..], name.as_slice()),
    };
    out.put(mark);
    out.put(name);
}

fn sign(op: Op) -> &'static [u8] {
    match op {
        Op::Eq => b"=",
        Op::Ne => b"!",
        Op::Lt => b"<",
        Op::Le => b"{",
        Op::Gt => b">",
        Op::Ge => b"}",
    }
}

fn show_literal(literal: &Literal, out: &mut Line) {
    match literal {
        Literal::Int(n) => out.put_number(*n),
        Literal::Dec { digits, places } => {
            out.put_number(*digits);
            out.put(b"e");
            out.put_number(i64::from(*places));
        }
        Literal::Text(text) => {
            out.put(b"'");
            out.put(text.as_slice());
            out.put(b"'");
        }
    }
}

fn show_comparison(column: &Bytes, op: Op, value: &Literal, out: &mut Line) {
    out.put(column.as_slice());
    out.put(sign(op));
    show_literal(value, out);
}

fn show_cond(depth: u32, cond: &QCond, out: &mut Line) {
    if depth == 0 {
        return;
    }
    match cond {
        QCond::Compare { column, op, value } => show_comparison(column, *op, value, out),
        QCond::IsNull { column, negated } => {
            out.put(column.as_slice());
            out.put(if *negated { b" some" } else { b" null" });
        }
        QCond::And(left, right) => {
            out.put(b"(");
            show_cond(depth - 1, left, out);
            out.put(b"&");
            show_cond(depth - 1, right, out);
            out.put(b")");
        }
        QCond::Or(left, right) => {
            out.put(b"(");
            show_cond(depth - 1, left, out);
            out.put(b"|");
            show_cond(depth - 1, right, out);
            out.put(b")");
        }
        QCond::Not(inner) => {
            out.put(b"~");
            show_cond(depth - 1, inner, out);
        }
    }
}

fn show_names(mark: &[u8], names: &[Bytes], out: &mut Line) {
    let mut before = mark;
    for name in names {
        out.put(before);
        out.put(name.as_slice());
        before = b",";
    }
}

fn show_items(items: &[QItem], out: &mut Line) {
    let mut before: &[u8] = b"";
    for item in items {
        out.put(before);
        show_item(item, out);
        before = b",";
    }
}

fn show_where(cond: &Option<QCond>, out: &mut Line) {
    if let Some(cond) = cond {
        out.put(b" ?");
        show_cond(9, cond, out);
    }
}

fn show_order(orders: &[QOrder], out: &mut Line) {
    let mut before: &[u8] = b" ^";
    for order in orders {
        out.put(before);
        out.put(order.column.as_slice());
        out.put(if order.descending { b"-" } else { b"" });
        before = b",";
    }
}

fn show_limit(limit: Option<u32>, out: &mut Line) {
    if let Some(limit) = limit {
        out.put(b" =");
        out.put_number(i64::from(limit));
    }
}

fn show_query(query: &Query) -> Line {
    let mut out = Line::new();
    show_items(&query.items, &mut out);
    out.put(b" ");
    out.put(query.table.as_slice());
    show_where(&query.cond, &mut out);
    show_names(b" /", &query.keys, &mut out);
    show_order(&query.order, &mut out);
    show_limit(query.limit, &mut out);
    out
}

fn show_refusal(refusal: TextRefusal) -> Line {
    Line::of(match refusal {
        TextRefusal::Syntax => b"syntax",
        TextRefusal::TooNested => b"too nested",
        TextRefusal::TooManyItems => b"too many items",
        TextRefusal::Memory => b"memory",
    })
}

fn answer(rt: &impl Abort, alloc: Global, text: &[u8]) -> Line {
    assert!(rt; text.len() <= 1 << 21);
    match read_query(alloc, text) {
        Ok(query) => show_query(&query),
        Err(refusal) => show_refusal(refusal),
    }
}

// Tests how the query of each text is shown, or why it is refused.
fn expect_queries(rt: &impl Abort, alloc: Global, rows: &[(&[u8], &[u8])]) {
    for (text, want) in rows {
        assert!(rt; answer(rt, alloc, text).is(want), "{text:?}");
    }
}

// A query is shown as its items (# counts, + sums, < and > are least and greatest), its table, ? and its condition with
// a parenthesis round each AND and OR, / and its keys, ^ and its orders, = and its limit.
const QUERIES: &[(&[u8], &[u8])] = &[
    (b"SELECT COUNT(*) FROM t", b"# t"),
    (b"select count ( * )\nfrom t -- all", b"# t"),
    (
        b"SELECT COUNT(a), SUM(b), MIN(c), MAX(d), e FROM t GROUP BY e, f",
        b"#a,+b,<c,>d,e t /e,f",
    ),
    (b"SELECT a FROM t", b"a t"),
    (b"SELECT a, b FROM u WHERE a=1GROUP BY b", b"a,b u ?a=1 /b"),
    (
        b"SELECT \"a b\", \"\"\"\" FROM \"select\"",
        b"a b,\" select",
    ),
    (b"SELECT a FROM t LIMIT 0", b"a t =0"),
    (b"SELECT a FROM t LIMIT 4096", b"a t =4096"),
    (
        b"SELECT a FROM t LIMIT 00000000000000000000000000000000000000000000007",
        b"a t =7",
    ),
    (
        b"SELECT a, b FROM t WHERE a IS NULL ORDER BY b DESC, a ASC, c LIMIT 3",
        b"a,b t ?a null ^b-,a,c =3",
    ),
    (
        b"SELECT a FROM t ORDER BY \"desc\" LIMIT 1",
        b"a t ^desc =1",
    ),
];

#[test]
fn each_text_is_its_query(rt: HostRuntime) {
    expect_queries(&rt, rt.alloc(), QUERIES);
}

// What stands up to the table, or breaks off there.
const FRONTS: &[(&[u8], &[u8])] = &[
    (b"", b"syntax"),
    (b"SELECT", b"syntax"),
    (b"-- nothing", b"syntax"),
    (b"SELECT FROM t", b"syntax"),
    (b"SELECT a", b"syntax"),
    (b"SELECT a FROM", b"syntax"),
    (b"SELECT a, FROM t", b"syntax"),
    (b"SELECT a b FROM t", b"syntax"),
    (b"SELECT * FROM t", b"syntax"),
    (b"SELECT COUNT(1) FROM t", b"syntax"),
    (b"SELECT COUNT() FROM t", b"syntax"),
    (b"SELECT SUM(*) FROM t", b"syntax"),
    (b"SELECT COUNT a FROM t", b"syntax"),
    (b"SELECT a FROM t, u", b"syntax"),
    (b"SELECT a FROM t;", b"syntax"),
    (b"SELECT limit FROM t", b"syntax"),
    (b"SELECT \"\" FROM t", b"syntax"),
    (b"SELECT x FROM", b"syntax"),
    (b"SELECT a\0 FROM t", b"syntax"),
];

#[test]
fn a_text_without_sound_items_and_a_table_is_refused(rt: HostRuntime) {
    expect_queries(&rt, rt.alloc(), FRONTS);
}

// What stands behind the table.
const TAILS: &[(&[u8], &[u8])] = &[
    (b"SELECT a FROM t WHERE", b"syntax"),
    (b"SELECT a FROM t GROUP a", b"syntax"),
    (b"SELECT a FROM t GROUP BY", b"syntax"),
    (b"SELECT a FROM t GROUP BY a,", b"syntax"),
    (b"SELECT a FROM t GROUP BY a WHERE a = 1", b"syntax"),
    (b"SELECT a FROM t GROUP BY a ASC", b"syntax"),
    (b"SELECT a FROM t GROUP BY a LIMIT 1", b"syntax"),
    (b"SELECT a FROM t GROUP BY a ORDER BY a LIMIT 1", b"syntax"),
    (b"SELECT a FROM t ORDER BY a", b"syntax"),
    (b"SELECT a FROM t ORDER BY LIMIT 1", b"syntax"),
    (b"SELECT a FROM t ORDER BY a ASC DESC LIMIT 1", b"syntax"),
    (b"SELECT a, MAX(b) FROM t ORDER BY a LIMIT 1", b"syntax"),
    (b"SELECT a FROM t WHERE a = \xC3\xA9", b"syntax"),
];

#[test]
fn a_text_with_an_unsound_tail_is_refused(rt: HostRuntime) {
    expect_queries(&rt, rt.alloc(), TAILS);
}

// Limits that aren't numbers, are too great, or stand where none may.
const LIMITS: &[(&[u8], &[u8])] = &[
    (b"SELECT a FROM t LIMIT", b"syntax"),
    (b"SELECT a FROM t LIMIT -1", b"syntax"),
    (b"SELECT a FROM t LIMIT 1.0", b"syntax"),
    (b"SELECT a FROM t LIMIT 1 1", b"syntax"),
    (b"SELECT a FROM t LIMIT 1 ORDER BY a", b"syntax"),
    (b"SELECT COUNT(*) FROM t LIMIT 1", b"syntax"),
    (b"SELECT a FROM t LIMIT 4097", b"too many items"),
    (
        b"SELECT a FROM t LIMIT 99999999999999999999999999999999999999999999999999",
        b"too many items",
    ),
    (
        b"SELECT a FROM t LIMIT 18446744073709551616",
        b"too many items",
    ),
    (b"SELECT MIN(a) FROM t LIMIT 4097", b"syntax"),
    (b"SELECT a FROM t LIMIT 4097 !", b"syntax"),
];

#[test]
fn a_text_with_an_unsound_limit_is_refused(rt: HostRuntime) {
    expect_queries(&rt, rt.alloc(), LIMITS);
}

// The answer for a query with this condition.
fn answer_where(rt: &impl Abort, alloc: Global, condition: &[u8]) -> Result<Line, AllocError> {
    let mut text = b"SELECT a FROM t WHERE ".to_vec(alloc)?;
    text.extend_from_slice(condition)?;
    Ok(answer(rt, alloc, &text))
}

// Whether the answer is the tree of its query's condition, or a refusal where that is wanted.
fn is_tree(shown: &Line, want: &[u8]) -> bool {
    if want == b"syntax".as_slice() {
        return shown.is(want);
    }
    shown.as_slice().strip_prefix(b"a t ?") == Some(want)
}

// Tests how each condition is shown behind its query, or that it is refused.
fn expect_conditions(rt: &impl Abort, alloc: Global, rows: &[(&[u8], &[u8])]) -> Result<(), Fail> {
    for (condition, want) in rows {
        let shown = answer_where(rt, alloc, condition)?;
        assert!(rt; is_tree(&shown, want), "{condition:?}");
    }
    Ok(())
}

// What stands behind WHERE: comparisons and tests for NULL.
const COMPARISONS: &[(&[u8], &[u8])] = &[
    (b"a = 1", b"a=1"),
    (b"a <> 1", b"a!1"),
    (b"a != 1", b"a!1"),
    (b"a < 1", b"a<1"),
    (b"a <= 1", b"a{1"),
    (b"a > 1", b"a>1"),
    (b"a >= 1", b"a}1"),
    (b"a=-1", b"a=-1"),
    (b"a = - 1", b"a=-1"),
    (b"a = 'x'", b"a='x'"),
    (b"a = ''", b"a=''"),
    (b"a = 'it''s'", b"a='it's'"),
    (b"\"a\"\"b\" = 1", b"a\"b=1"),
    (b"a IS NULL", b"a null"),
    (b"a IS NOT NULL", b"a some"),
];

#[test]
fn each_comparison_is_shown(rt: HostRuntime) -> Result<(), Fail> {
    expect_conditions(&rt, rt.alloc(), COMPARISONS)
}

// Comparisons with numbers at the ends of what a literal may be.
const NUMBERS: &[(&[u8], &[u8])] = &[
    (b"a = 9223372036854775807", b"a=9223372036854775807"),
    (b"a = 9223372036854775808", b"syntax"),
    (b"a = -9223372036854775808", b"a=-9223372036854775808"),
    (b"a = -9223372036854775809", b"syntax"),
    (b"a = 99999999999999999999999999", b"syntax"),
    (b"a = 1.5", b"a=15e1"),
    (b"a = -0.05", b"a=-5e2"),
    (b"a = 0.123456789", b"a=123456789e9"),
    (b"a = 0.1234567890", b"syntax"),
    (b"a = 922337203685477580.7", b"a=9223372036854775807e1"),
    (b"a = 922337203685477580.8", b"syntax"),
    (b"a = -922337203685477580.8", b"a=-9223372036854775808e1"),
];

#[test]
fn each_number_is_exact_or_is_refused(rt: HostRuntime) -> Result<(), Fail> {
    expect_conditions(&rt, rt.alloc(), NUMBERS)
}

// Conditions that are joined, and what is none.
const JOINED: &[(&[u8], &[u8])] = &[
    (b"a=1 AND b=2 AND c=3", b"((a=1&b=2)&c=3)"),
    (b"a=1 OR b=2 OR c=3", b"((a=1|b=2)|c=3)"),
    (b"a=1 OR b=2 AND c=3", b"(a=1|(b=2&c=3))"),
    (b"a=1 AND b=2 OR c=3", b"((a=1&b=2)|c=3)"),
    (b"a=1 AND (b=2 AND c=3)", b"(a=1&(b=2&c=3))"),
    (b"(a=1 OR b=2) AND c=3", b"((a=1|b=2)&c=3)"),
    (b"((a=1))", b"a=1"),
    (b"NOT a=1 AND b=2", b"(~a=1&b=2)"),
    (b"NOT (a=1 AND b=2)", b"~(a=1&b=2)"),
    (b"NOT NOT a IS NULL", b"~~a null"),
    (b"1 = a", b"syntax"),
    (b"a = b", b"syntax"),
    (b"a = NULL", b"syntax"),
    (b"a = +1", b"syntax"),
    (b"(a=1", b"syntax"),
    (b"a=1 AND", b"syntax"),
];

#[test]
fn each_condition_is_its_tree_or_is_refused(rt: HostRuntime) -> Result<(), Fail> {
    expect_conditions(&rt, rt.alloc(), JOINED)
}

// A front, a part, how many times it stands, and an end.
type Long<'a> = (&'a [u8], &'a [u8], u32, &'a [u8]);

// The front, so many times the part, and the end.
fn repeated(alloc: Global, long: &Long<'_>) -> Result<Vec<u8>, AllocError> {
    let (front, part, count, end) = *long;
    let mut text = front.to_vec(alloc)?;
    for _ in 0..count {
        text.extend_from_slice(part)?;
    }
    text.extend_from_slice(end)?;
    Ok(text)
}

// Long texts, and what each of them is.
const OVER: &[(Long<'static>, &[u8])] = &[
    (
        (b"SELECT COUNT(*) FROM t WHERE ", b"(", 255, b""),
        b"syntax",
    ),
    (
        (b"SELECT COUNT(*) FROM t WHERE ", b"(", 256, b""),
        b"too nested",
    ),
    (
        (b"SELECT COUNT(*) FROM t WHERE ", b"(", 257, b""),
        b"too nested",
    ),
    (
        (b"SELECT COUNT(*) FROM t WHERE ", b"(", 256, b"!"),
        b"syntax",
    ),
    (
        (b"SELECT a FROM t WHERE ", b"NOT ", 257, b"a = 1"),
        b"too nested",
    ),
    (
        (b"SELECT COUNT(*)", b", COUNT(*)", 32, b" FROM t"),
        b"too many items",
    ),
    (
        (b"SELECT a", b", a", 32, b" FROM t LIMIT 1"),
        b"too many items",
    ),
    (
        (b"SELECT a FROM t GROUP BY a", b", a", 32, b""),
        b"too many items",
    ),
    (
        (b"SELECT a FROM t ORDER BY a", b", a", 32, b" LIMIT 1"),
        b"too many items",
    ),
    ((b"SELECT a", b", a", 100000, b" FROM t"), b"too many items"),
    ((b"SELECT a", b", a", 100000, b""), b"syntax"),
    ((b"", b"(", 1048576, b""), b"too nested"),
    ((b"", b"'", 1048576, b""), b"syntax"),
    ((b"", b" ", 1048576, b""), b"syntax"),
];

fn expect_over(rt: &impl Abort, alloc: Global, rows: &[(Long<'_>, &[u8])]) -> Result<(), Fail> {
    for (long, want) in rows {
        let text = repeated(alloc, long)?;
        assert!(rt;
            answer(rt, alloc, &text).is(want),
            "{:?} {}",
            long.0,
            long.2
        );
    }
    Ok(())
}

#[test]
fn the_limits_are_exact(rt: HostRuntime) -> Result<(), Fail> {
    expect_over(&rt, rt.alloc(), OVER)
}

const WITHIN: &[Long<'static>] = &[
    (b"SELECT a FROM t WHERE a = 1", b" OR a = 1", 256, b""),
    (b"SELECT a FROM t WHERE a = 1", b" AND a = 1", 256, b""),
    (b"SELECT a FROM t WHERE ", b"NOT ", 256, b"a = 1"),
    (b"SELECT COUNT(*)", b", COUNT(*)", 31, b" FROM t"),
    (b"SELECT a FROM t GROUP BY a", b", a", 31, b""),
    (b"SELECT a FROM t ORDER BY a", b", a", 31, b" LIMIT 1"),
];

fn is_read(rt: &impl Abort, alloc: Global, text: &[u8]) -> bool {
    assert!(rt; text.len() <= 1 << 21);
    read_query(alloc, text).is_ok()
}

fn expect_read(rt: &impl Abort, alloc: Global, rows: &[Long<'_>]) -> Result<(), Fail> {
    for long in rows {
        let text = repeated(alloc, long)?;
        assert!(rt; is_read(rt, alloc, &text), "{:?}", long.0);
    }
    Ok(())
}

#[test]
fn what_is_just_within_the_limits_is_read(rt: HostRuntime) -> Result<(), Fail> {
    expect_read(&rt, rt.alloc(), WITHIN)
}

// Texts, and how their queries are written.
const WRITTEN: &[(&[u8], &[u8])] = &[
    (b"select count(*) from t", b"SELECT COUNT ( * ) FROM \"t\""),
    (
        b"SELECT SUM(a), b FROM t WHERE b IS NULL GROUP BY b, c",
        b"SELECT SUM ( \"a\" ) , \"b\" FROM \"t\" WHERE \"b\" IS NULL GROUP BY \"b\" , \"c\"",
    ),
    (
        b"SELECT \"x\"\"y\" FROM t ORDER BY a DESC, b LIMIT 1",
        b"SELECT \"x\"\"y\" FROM \"t\" ORDER BY \"a\" DESC , \"b\" ASC LIMIT 1",
    ),
    (
        b"SELECT a FROM t WHERE a != 1 OR b = - 1 AND NOT (c = 'x''y' OR d IS NOT NULL)",
        b"SELECT \"a\" FROM \"t\" WHERE \"a\" <> 1 OR \"b\" = -1 AND NOT ( \"c\" = 'x''y' OR \"d\" IS NOT NULL )",
    ),
    (
        b"SELECT a FROM t WHERE ((a=1 AND b=2)) AND (c=3 AND d=4)",
        b"SELECT \"a\" FROM \"t\" WHERE \"a\" = 1 AND \"b\" = 2 AND ( \"c\" = 3 AND \"d\" = 4 )",
    ),
    (
        b"SELECT a FROM t WHERE (a=1 OR b=2) OR (c=3 OR d=4)",
        b"SELECT \"a\" FROM \"t\" WHERE \"a\" = 1 OR \"b\" = 2 OR ( \"c\" = 3 OR \"d\" = 4 )",
    ),
    (
        b"SELECT a FROM t WHERE (a=1 OR b=2) AND c=-00.05",
        b"SELECT \"a\" FROM \"t\" WHERE ( \"a\" = 1 OR \"b\" = 2 ) AND \"c\" = -0.05",
    ),
    (
        b"SELECT COUNT(*) FROM t WHERE NOT pay > 15",
        b"SELECT COUNT ( * ) FROM \"t\" WHERE NOT \"pay\" > 15",
    ),
    (
        b"SELECT a FROM t WHERE a = -9223372036854775808 AND b < -0 AND c >= 007 AND d <= 1.50",
        b"SELECT \"a\" FROM \"t\" WHERE \"a\" = -9223372036854775808 AND \"b\" < 0 AND \"c\" >= 7 AND \"d\" <= 1.50",
    ),
    (
        b"SELECT a FROM t WHERE NOT (NOT (a = 1 AND b = ''))",
        b"SELECT \"a\" FROM \"t\" WHERE NOT NOT ( \"a\" = 1 AND \"b\" = '' )",
    ),
];

fn rewritten(rt: &impl Abort, alloc: Global, text: &[u8]) -> Option<Vec<u8>> {
    assert!(rt; text.len() <= 1 << 21);
    let Ok(query) = read_query(alloc, text) else {
        return None;
    };
    match write_query(alloc, &query) {
        Ok(bytes) => Some(bytes.into_vec()),
        Err(_) => None,
    }
}

// Whether both texts have the same answer.
fn are_alike(rt: &impl Abort, alloc: Global, text: &[u8], other: &[u8]) -> bool {
    answer(rt, alloc, text).is(answer(rt, alloc, other).as_slice())
}

// Whether the text's query is written so, and is the same query still.
fn is_written(rt: &impl Abort, alloc: Global, text: &[u8], want: &[u8]) -> bool {
    match rewritten(rt, alloc, text) {
        Some(written) => written.as_slice() == want && are_alike(rt, alloc, text, &written),
        None => false,
    }
}

fn expect_written(rt: &impl Abort, alloc: Global, rows: &[(&[u8], &[u8])]) {
    for (text, want) in rows {
        assert!(rt; is_written(rt, alloc, text, want), "{text:?}");
    }
}

#[test]
fn a_query_is_written_and_read_back(rt: HostRuntime) {
    expect_written(&rt, rt.alloc(), WRITTEN);
}
