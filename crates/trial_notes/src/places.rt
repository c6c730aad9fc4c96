// Refused statements with their places, written by hand from the grammar of `docs/SQL.md`.
ghost use Rattle.std.specs.Prelude.{◌≡◌, ◌≤◌, ◌<◌, All, length};
ghost use Rattle.std.specs.Bool.{OnTrue};
ghost use Rattle.table_core.specs.Value.{places_of};

use inspect_places::{Place, line_and_column, statement_place, write_stands};
use sql_bind::{StatementRefusal, plan_of};
use sql_tokens::{Span, split};
use std::alloc::{AllocError, Global};
use std::process::Abort;
use std::test::Fail;
use table_core::{Bytes, Column, Dict, Kind, Schema, places_of_kind};

// A batch, and of each refused statement LINE:COLUMN, the token and, behind a colon, what could stand there.
const PLACES: &[(&[u8], &[u8])] = &[
    // each clause cut short
    (b"SELECT", b"1:7 : a column's name, COUNT, SUM, MIN or MAX"),
    (b"SELECT id", b"1:10 : FROM or ','"),
    (b"SELECT COUNT", b"1:13 : '('"),
    (b"SELECT COUNT(", b"1:14 : a column's name or '*'"),
    (b"SELECT SUM(", b"1:12 : a column's name"),
    (b"SELECT MAX(id", b"1:14 : ')'"),
    (
        b"SELECT id,",
        b"1:11 : a column's name, COUNT, SUM, MIN or MAX",
    ),
    (b"SELECT id FROM", b"1:15 : the table's name, t"),
    (
        b"SELECT id FROM t WHERE",
        b"1:23 : a column's name, NOT or '('",
    ),
    (b"SELECT id FROM t WHERE id", b"1:26 : IS or a comparison"),
    (
        b"SELECT id FROM t WHERE id <",
        b"1:28 : a number, a decimal, a text or '-'",
    ),
    (
        b"SELECT id FROM t WHERE id = -",
        b"1:30 : a number or a decimal",
    ),
    (b"SELECT id FROM t WHERE id IS", b"1:29 : NOT or NULL"),
    (b"SELECT id FROM t WHERE id IS NOT", b"1:33 : NULL"),
    (b"SELECT id FROM t WHERE (id = 1", b"1:31 : AND, OR or ')'"),
    (
        b"SELECT id FROM t WHERE id = 1 AND",
        b"1:34 : a column's name, NOT or '('",
    ),
    (b"SELECT id FROM t GROUP", b"1:23 : BY"),
    (b"SELECT id FROM t GROUP BY", b"1:26 : a column's name"),
    (b"SELECT id FROM t GROUP BY id,", b"1:30 : a column's name"),
    (
        b"SELECT id FROM t ORDER BY id",
        b"1:29 : LIMIT, ASC, DESC or ','",
    ),
    // a wrong word, a missing one, a wrong order
    (b"UPDATE t", b"1:1 UPDATE: SELECT"),
    (
        b"SELECT FROM t",
        b"1:8 FROM: a column's name, COUNT, SUM, MIN or MAX",
    ),
    (
        b"SELECT * FROM t",
        b"1:8 *: a column's name, COUNT, SUM, MIN or MAX",
    ),
    (b"SELECT id FORM t", b"1:11 FORM: FROM or ','"),
    (b"SELECT id WHERE id = 1", b"1:11 WHERE: FROM or ','"),
    (b"SELECT SUM(*) FROM t", b"1:12 *: a column's name"),
    (b"SELECT id FROM 't'", b"1:16 't': the table's name, t"),
    (
        b"SELECT id FROM t, u",
        b"1:17 ,: WHERE, GROUP, ORDER, LIMIT or the end",
    ),
    (
        b"SELECT SUM(id) FROM t ORDER BY id LIMIT 1",
        b"1:23 ORDER: WHERE, GROUP or the end",
    ),
    (
        b"SELECT id FROM t WHERE 1 = id",
        b"1:24 1: a column's name, NOT or '('",
    ),
    (
        b"SELECT id FROM t WHERE id = NULL",
        b"1:29 NULL: a number, a decimal, a text or '-'",
    ),
    (
        b"SELECT id FROM t WHERE (id = 1))",
        b"1:32 ): GROUP, ORDER, LIMIT, AND, OR or the end",
    ),
    (
        b"SELECT id FROM t WHERE ((id = 1) GROUP BY id",
        b"1:34 GROUP: AND, OR or ')'",
    ),
    (
        b"SELECT id FROM t GROUP BY id WHERE id = 1",
        b"1:30 WHERE: ',' or the end",
    ),
    (
        b"SELECT id FROM t ORDER BY id ASC DESC LIMIT 1",
        b"1:34 DESC: LIMIT or ','",
    ),
    // behind LIMIT the bound is told, whatever stands there
    (b"SELECT id FROM t LIMIT", b"1:23 : a number up to 4096"),
    (b"SELECT id FROM t LIMIT x", b"1:24 x: a number up to 4096"),
    (b"SELECT id FROM t LIMIT -1", b"1:24 -: a number up to 4096"),
    (
        b"SELECT id FROM t ORDER BY id LIMIT 2.5",
        b"1:36 2.5: a number up to 4096",
    ),
    (
        b"SELECT id FROM t ORDER BY \"limit\" 1",
        b"1:35 1: LIMIT, ASC, DESC or ','",
    ),
    (
        b"SELECT id FROM t LIMIT 1 ORDER BY id",
        b"1:26 ORDER: the end",
    ),
    // no token
    (b"SELECT id FROM t WHERE dept = 'a", b"1:31 ': "),
    (
        b"SELECT id FROM t WHERE dept = 'a' AND \"pay = 1",
        b"1:39 \": ",
    ),
    (b"SELECT \"\" FROM t", b"1:8 \": "),
    (b"SELECT id FROM t WHERE id ! 1", b"1:27 !: "),
    (b"SELECT id FROM t WHERE id = .5", b"1:29 .: "),
    (b"SELECT id FROM t\nWHERE id = 1.", b"2:13 .: "),
    // the quote that opens, though two of a kind stand behind it
    (b"SELECT id FROM t WHERE dept = 'it''s", b"1:31 ': "),
    (b"SELECT id FROM t WHERE dept = 'a''", b"1:31 ': "),
    (b"SELECT \"a\"\"b FROM t", b"1:8 \": "),
    (b"SELECT id FROM t WHERE dept = 'a' 'b", b"1:35 ': "),
    // a sign of several bytes, whole
    (b"SELECT id FROM t \xe2\x82\xac", b"1:18 \xe2\x82\xac: "),
    // numbers out of range
    (
        b"SELECT id FROM t WHERE id = 9223372036854775808",
        b"1:29 9223372036854775808: a number up to 9223372036854775807, a decimal with at most 9 places, a text or '-'",
    ),
    (
        b"SELECT id FROM t WHERE id = -9223372036854775809",
        b"1:30 9223372036854775809: a number up to 9223372036854775808 or a decimal with at most 9 places",
    ),
    (
        b"SELECT id FROM t WHERE id = 0.1234567890",
        b"1:29 0.1234567890: a number up to 9223372036854775807, a decimal with at most 9 places, a text or '-'",
    ),
    // limits
    (
        b"SELECT id FROM t LIMIT 4097",
        b"1:24 4097: a number up to 4096",
    ),
    (
        b"SELECT a,b,c,d,e,f,g,h,i,j,k,l,m,n,o,p,q,r,s,t,u,v,w,x,y,z,a,b,c,d,e,f,g FROM t",
        b"1:71 ,: FROM",
    ),
    // names
    (b"SELECT t FROM u", b"1:15 u: "),
    (b"SELECT id, idd FROM t", b"1:12 idd: "),
    (b"SELECT t FROM t WHERE \"a\"\"b\" = 1", b"1:8 t: "),
    (
        b"SELECT id FROM t WHERE \"a\"\"b\" = 1 AND z = 1",
        b"1:24 \"a\"\"b\": ",
    ),
    (b"SELECT MIN(dept), SUM(dept) FROM t", b"1:23 dept: "),
    (
        b"SELECT id FROM t WHERE dept = 'a' OR dept = -1",
        b"1:38 dept: ",
    ),
    (
        b"SELECT id FROM t WHERE pay IS NULL OR pay = 'a' LIMIT 1",
        b"1:39 pay: ",
    ),
    (b"SELECT SUM(pay), pay FROM t GROUP BY id", b"1:18 pay: "),
    (b"SELECT id FROM t ORDER BY id, nr LIMIT 1", b"1:31 nr: "),
    // several statements, on several lines
    (
        b"SELECT id FROM t LIMIT 1;\n-- two\nSELECT id\n  FORM t;\nSELECT id, nr\nFROM t;",
        b"4:3 FORM: FROM or ','\n5:12 nr: ",
    ),
    (
        b"\n\nSELECT id FROM t\n;SELECT",
        b"3:8 id: \n4:8 : a column's name, COUNT, SUM, MIN or MAX",
    ),
];

// The columns id, dept, pay and price with two places.
const COLUMNS: [(&[u8], Kind); 4] = [
    (b"id", Kind::Int),
    (b"dept", Kind::Text),
    (b"pay", Kind::Int),
    (b"price", Kind::Dec { places: 2 }),
];

fn schema(alloc: Global) -> Result<Schema, AllocError> {
    let mut columns = Vec::new(alloc);
    for (name, kind) in COLUMNS {
        let name = Bytes::new(name.to_vec(alloc)?);
        columns.push(Column { name, kind })?;
    }
    Ok(Schema::new(columns))
}

fn dicts(alloc: Global) -> Result<Vec<Dict>, AllocError> {
    let mut dicts = Vec::new(alloc);
    for _ in COLUMNS {
        dicts.push(Dict::new(alloc))?;
    }
    Ok(dicts)
}

fn can_bind(schema: &Schema, dicts: &[Dict]) -> bool
    ensures few { OnTrue result (length schema.now ≤ 16) }
    ensures places { OnTrue result (All (λ c. places_of c.kind ≤ 9) schema.now) }
    ensures dicts { OnTrue result (length dicts.now ≡ length schema.now) }
{
    schema.len() <= 16
        && dicts.len() == schema.len()
        && schema
            .columns()
            .iter()
            .all(|column| places_of_kind(column.kind) <= 9)
}

// Why the statement is refused, if it is.
fn refusal(
    rt: &impl Abort,
    alloc: Global,
    text: &[u8],
    schema: &Schema,
) -> Result<Option<StatementRefusal>, Fail> {
    let dicts = dicts(alloc)?;
    assert!(rt; can_bind(schema, &dicts));
    assert!(rt; text.len() <= 100000);
    match plan_of(alloc, text, schema, &dicts) {
        Ok(_) => Ok(None),
        Err(refusal) => Ok(Some(refusal)),
    }
}

// The place of the refusal, if the statement is refused.
fn place(rt: &impl Abort, alloc: Global, text: &[u8]) -> Result<Option<Place>, Fail> {
    let schema = schema(alloc)?;
    let Some(refusal) = refusal(rt, alloc, text, &schema)? else {
        return Ok(None);
    };
    assert!(rt; text.len() <= 100000);
    Ok(Some(statement_place(alloc, text, schema.columns(), &refusal)?))
}

fn part<'a>(rt: &impl Abort, bytes: &'a [u8], from: usize, to: usize) -> &'a [u8] {
    assert!(rt; from <= to && to <= bytes.len());
    &bytes[from..to]
}

// Puts a line at the end: where the statement of this span is refused, and what could stand there.
fn show(
    rt: &impl Abort,
    alloc: Global,
    batch: &[u8],
    span: Span,
    out: &mut Vec<u8>,
) -> Result<(), Fail> {
    let text = part(rt, batch, span.from as usize, span.to as usize);
    let Some(place) = place(rt, alloc, text)? else {
        return Ok(());
    };
    if !out.is_empty() {
        out.push(b'\n')?;
    }
    let token = part(rt, text, place.span.from as usize, place.span.to as usize);
    let at = span.from as usize + place.span.from as usize;
    assert!(rt; at <= batch.len());
    let spot = line_and_column(batch, at);
    out.extend_from_slice(format!(in alloc; "{spot} ")?.as_bytes())?;
    out.extend_from_slice(token)?;
    let mut stands = Bytes::new(Vec::new(alloc));
    write_stands(&mut stands, &place)?;
    out.extend_from_slice(b": ")?;
    out.extend_from_slice(stands.as_slice())?;
    Ok(())
}

fn shown(rt: &impl Abort, alloc: Global, batch: &[u8]) -> Result<Vec<u8>, Fail> {
    assert!(rt; batch.len() <= 1 << 20);
    let mut out = Vec::new(alloc);
    for span in &split(alloc, batch)? {
        show(rt, alloc, batch, *span, &mut out)?;
    }
    Ok(out)
}

// Tests the places of each batch.
fn expect_places(rt: &impl Abort, alloc: Global, rows: &[(&[u8], &[u8])]) -> Result<(), Fail> {
    for (batch, want) in rows {
        let out = shown(rt, alloc, batch)?;
        assert!(rt; out.as_slice() == *want, "{batch:?}");
    }
    Ok(())
}

#[test]
fn each_refused_statement_has_its_place(rt: HostRuntime) -> Result<(), Fail> {
    expect_places(&rt, rt.alloc(), PLACES)
}

// A statement with so many words NOT.
fn negated(alloc: Global, words: usize) -> Result<Vec<u8>, AllocError> {
    let mut text = b"SELECT id FROM t WHERE ".to_vec(alloc)?;
    for _ in 0..words {
        text.extend_from_slice(b"NOT ")?;
    }
    text.extend_from_slice(b"id = 1 LIMIT 1")?;
    Ok(text)
}

#[test]
fn the_first_word_that_is_nested_too_deep_is_told(rt: HostRuntime) -> Result<(), Fail> {
    let alloc = rt.alloc();
    let fits = negated(alloc, 256)?;
    assert!(rt; shown(&rt, alloc, &fits)?.is_empty());
    let deeper = negated(alloc, 300)?;
    assert!(rt; shown(&rt, alloc, &deeper)?.as_slice() == b"1:1048 NOT: ".as_slice());
    Ok(())
}
