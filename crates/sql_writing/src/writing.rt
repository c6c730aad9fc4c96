// Writes queries.

ghost use Rattle.std.specs.Prelude.{◌≡◌, ◌≤◌, ◌++◌, OnOk, IfOk};
ghost use Rattle.sql_text.specs.Queries.{CanBeRead, HasQuery};
ghost use Rattle.sql_text.specs.Reading.{cond_seen, query_of, tree_of};
ghost use Rattle.sql_writing.specs.Writing as spec;

use sql_text::{Literal, QCond, QItem, QOrder, Query};
use std::alloc::Global;
use table_core::{Bytes, Memory, Op, write_number, write_quoted};

/// What may stand free at a place of a condition: an OR, an AND but no OR, or neither.
#[derive(Clone, Copy)]
pub enum Place {
    Or,
    And,
    Not,
}

/// Puts a name in double quotes at the end, each double quote inside doubled.
fn write_name(out: &mut Bytes, name: &[u8]) -> Result<(), Memory>
    ensures { OnOk result (out.new ≡ out.old ++ spec.name_text name.now) }
{
    out.append(b"\"")?;
    for byte in name {
        if *byte == b'"' {
            out.append(b"\"\"")?;
        } else {
            out.append(&[*byte])?;
        }
    }
    out.append(b"\"")?;
    Ok(())
}

fn op_text(op: Op) -> &'static [u8]
    ensures { result.now ≡ spec.op_text op }
{
    match op {
        Op::Eq => b" = ",
        Op::Ne => b" <> ",
        Op::Lt => b" < ",
        Op::Le => b" <= ",
        Op::Gt => b" > ",
        Op::Ge => b" >= ",
    }
}

fn write_literal(out: &mut Bytes, literal: &Literal) -> Result<(), Memory>
    requires { spec.HasFewPlaces literal.now }
    ensures { OnOk result (out.new ≡ out.old ++ spec.literal_text literal.now) }
{
    match literal {
        Literal::Int(n) => write_number(out, *n as i128, 0),
        Literal::Dec { digits, places } => write_number(out, *digits as i128, *places),
        Literal::Text(text) => write_quoted(out, text.as_slice()),
    }
}

fn write_compare(out: &mut Bytes, column: &Bytes, op: Op, value: &Literal) -> Result<(), Memory>
    requires { spec.HasFewPlaces value.now }
    ensures { OnOk result (out.new ≡ out.old ++
        (spec.name_text column.now ++ (spec.op_text op ++ spec.literal_text value.now))) }
{
    write_name(out, column.as_slice())?;
    out.append(op_text(op))?;
    write_literal(out, value)
}

fn write_null(out: &mut Bytes, column: &Bytes, negated: bool) -> Result<(), Memory>
    ensures { OnOk result (out.new ≡ out.old ++ (spec.name_text column.now ++ spec.null_text negated)) }
{
    write_name(out, column.as_slice())?;
    out.append(if negated {
        b" IS NOT NULL"
    } else {
        b" IS NULL"
    })?;
    Ok(())
}

fn open(out: &mut Bytes, encloses: bool) -> Result<(), Memory>
    ensures { OnOk result (out.new ≡ out.old ++ spec.open_text encloses) }
{
    if encloses {
        out.append(b"( ")?;
    }
    Ok(())
}

fn close(out: &mut Bytes, encloses: bool) -> Result<(), Memory>
    ensures { OnOk result (out.new ≡ out.old ++ spec.close_text encloses) }
{
    if encloses {
        out.append(b" )")?;
    }
    Ok(())
}

/// Puts a condition at the end, in parentheses where it may not stand free at this place.
fn write_cond(out: &mut Bytes, place: Place, cond: &QCond) -> Result<(), Memory>
    requires { spec.HasFewPlacesIn (tree_of cond.now) }
    ensures { OnOk result (out.new ≡ out.old ++ spec.cond_text place (tree_of cond.now)) }
{
    match cond {
        QCond::Compare { column, op, value } => write_compare(out, column, *op, value),
        QCond::IsNull { column, negated } => write_null(out, column, *negated),
        QCond::Or(left, right) => {
            open(out, !matches!(place, Place::Or))?;
            write_cond(out, Place::Or, left)?;
            out.append(b" OR ")?;
            write_cond(out, Place::And, right)?;
            close(out, !matches!(place, Place::Or))
        }
        QCond::And(left, right) => {
            open(out, matches!(place, Place::Not))?;
            write_cond(out, Place::And, left)?;
            out.append(b" AND ")?;
            write_cond(out, Place::Not, right)?;
            close(out, matches!(place, Place::Not))
        }
        QCond::Not(inner) => {
            out.append(b"NOT ")?;
            write_cond(out, Place::Not, inner)
        }
    }
}

/// A word and a name in parentheses.
fn write_called(out: &mut Bytes, word: &[u8], name: &Bytes) -> Result<(), Memory>
    ensures { OnOk result (out.new ≡ out.old ++ spec.called_text word.now name.now) }
{
    out.append(word)?;
    out.append(b" ( ")?;
    write_name(out, name.as_slice())?;
    out.append(b" )")?;
    Ok(())
}

fn write_item(out: &mut Bytes, item: &QItem) -> Result<(), Memory>
    ensures { OnOk result (out.new ≡ out.old ++ spec.item_text item.now) }
{
    match item {
        QItem::CountAll => {
            out.append(b"COUNT ( * )")?;
            Ok(())
        }
        QItem::Count(name) => write_called(out, b"COUNT", name),
        QItem::Sum(name) => write_called(out, b"SUM", name),
        QItem::Min(name) => write_called(out, b"MIN", name),
        QItem::Max(name) => write_called(out, b"MAX", name),
        QItem::Plain(name) => write_name(out, name.as_slice()),
    }
}

fn write_order(out: &mut Bytes, order: &QOrder) -> Result<(), Memory>
    ensures { OnOk result (out.new ≡ out.old ++ spec.order_text order.now) }
{
    write_name(out, order.column.as_slice())?;
    out.append(if order.descending { b" DESC" } else { b" ASC" })?;
    Ok(())
}

/// Puts the items at the end, the first behind the word and each other one behind a comma.
fn write_items(out: &mut Bytes, word: &[u8], items: &[QItem]) -> Result<(), Memory>
    ensures { OnOk result (out.new ≡ out.old ++ spec.list_text spec.item_text word.now items.now) }
{
    let mut word = word;
    let mut left = items;
    while let [item, rest @ ..] = left {
        out.append(word)?;
        write_item(out, item)?;
        word = b" , ";
        left = rest;
    }
    Ok(())
}

/// Puts the names at the end, the first behind the word and each other one behind a comma.
fn write_names(out: &mut Bytes, word: &[u8], names: &[Bytes]) -> Result<(), Memory>
    ensures { OnOk result (out.new ≡ out.old ++ spec.list_text spec.name_text word.now names.now) }
{
    let mut word = word;
    let mut left = names;
    while let [name, rest @ ..] = left {
        out.append(word)?;
        write_name(out, name.as_slice())?;
        word = b" , ";
        left = rest;
    }
    Ok(())
}

/// Puts the orders at the end, the first behind the word and each other one behind a comma.
fn write_orders(out: &mut Bytes, word: &[u8], orders: &[QOrder]) -> Result<(), Memory>
    ensures { OnOk result (out.new ≡ out.old ++ spec.list_text spec.order_text word.now orders.now) }
{
    let mut word = word;
    let mut left = orders;
    while let [order, rest @ ..] = left {
        out.append(word)?;
        write_order(out, order)?;
        word = b" , ";
        left = rest;
    }
    Ok(())
}

fn write_where(out: &mut Bytes, cond: &Option<QCond>) -> Result<(), Memory>
    requires { spec.CanStand (cond_seen cond.now) }
    ensures { OnOk result (out.new ≡ out.old ++ spec.where_text (cond_seen cond.now)) }
{
    if let Some(cond) = cond {
        out.append(b" WHERE ")?;
        write_cond(out, Place::Or, cond)?;
    }
    Ok(())
}

fn write_limit(out: &mut Bytes, limit: Option<u32>) -> Result<(), Memory>
    ensures { OnOk result (out.new ≡ out.old ++ spec.limit_text limit) }
{
    if let Some(n) = limit {
        out.append(b" LIMIT ")?;
        write_number(out, n as i128, 0)?;
    }
    Ok(())
}

fn query_text(alloc: Global, query: &Query) -> Result<Bytes, Memory>
    requires { CanBeRead (query_of query.now) }
    ensures { IfOk result (λ bytes. bytes ≡ spec.query_text (query_of query.now)) }
{
    let mut out = Bytes::new(Vec::new(alloc));
    write_items(&mut out, b"SELECT ", &query.items)?;
    out.append(b" FROM ")?;
    write_name(&mut out, query.table.as_slice())?;
    write_where(&mut out, &query.cond)?;
    write_names(&mut out, b" GROUP BY ", &query.keys)?;
    write_orders(&mut out, b" ORDER BY ", &query.order)?;
    write_limit(&mut out, query.limit)?;
    Ok(out)
}

/// The text of a query: keywords in capital letters, one space between tokens, each name in double quotes, and
/// parentheses only where the grammar needs them. What was read as a negative zero is written as zero.
///
/// # Errors
///
/// `Memory` alone.
pub fn write_query(alloc: Global, query: &Query) -> Result<Bytes, Memory>
    // The query was read from some text.
    requires { CanBeRead (query_of query.now) }
    ensures text { IfOk result (λ bytes. bytes ≡ spec.query_text (query_of query.now)) }
    // The text is the same query again.
    ensures read { IfOk result (λ bytes. HasQuery bytes (query_of query.now)) }
{
    query_text(alloc, query)
}
