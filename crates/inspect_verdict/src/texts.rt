// What one statement prints.
ghost use Rattle.std.specs.Prelude.{◌≡◌, ◌≤◌, ◌-◌, All, IfOk, None, length, slice_index_or};
ghost use Rattle.table_core.specs.Value.{places_of};
ghost use Rattle.table_core.specs.Answer.{IsColumn, kind_at, kinds_of};
ghost use Rattle.table_core.specs.declared.schema.Kind.TheVariants.{Int};
ghost use Rattle.query_gather.specs.Answer.{CanBeWritten};
ghost use Rattle.query_gather.specs.declared.answer.Answer.TheVariants as answers;
ghost use Rattle.run_output.specs.Answers.{NamesColumns, answer_printed, overflow_of, result_columns};
ghost use Rattle.run_output.specs.Printed.{text_in};
ghost use Rattle.run_output.specs.Refusals.{refusal_head, refusal_line, statement_words, stop_words};

use agg_groups::{Item, rows_text};
use query_gather::{Answer, Cause};
use run_output::{write_overflow, write_refusal, write_stopped};
use sql_bind::{Plan, StatementRefusal};
use std::alloc::Global;
use table_core::{Bytes, Column, Dict, Memory, Schema, places_of_kind};
use top_rows::{Picked, picked_text};

// The column in which the cells of an item, counted from 1, are read; a count has none.
fn column_of(plan: &Plan, item: u32) -> Option<u32>
    requires groups { plan.now.rows ≡ None }
    ensures { result ≡ slice_index_or (result_columns plan.now) (item - 1) None }
{
    match plan.items.get(item.saturating_sub(1) as usize)? {
        Item::CountAll | Item::Count(_) => None,
        Item::Sum(x) | Item::Min(x) | Item::Max(x) => Some(*x),
        Item::Key(place) => plan.keys.get(*place as usize).copied(),
    }
}

// The digits after the point of numbers that are read in a column.
fn places_in(columns: &[Column], column: Option<u32>) -> u32
    requires column { IsColumn (length columns.now) column }
    requires places { All (λ c. places_of c.kind ≤ 9) columns.now }
    ensures places { result ≡ places_of (kind_at columns.now column) }
    ensures few { result ≤ 9 }
{
    match column {
        None => 0,
        Some(x) => places_of_kind(columns[x as usize].kind),
    }
}

// The digits after the point of an item's numbers.
fn places_of_item(schema: &Schema, plan: &Plan, item: u32) -> u32
    requires columns { NamesColumns (length schema.now) plan.now }
    requires places { All (λ c. places_of c.kind ≤ 9) schema.now }
    requires groups { plan.now.rows ≡ None }
    ensures places { result ≡ places_of (slice_index_or (kinds_of schema.now (result_columns plan.now)) (item - 1)
        Int) }
    ensures few { result ≤ 9 }
{
    places_in(schema.columns(), column_of(plan, item))
}

// The line of a sum that is no number of 64 bits.
fn overflow_text(
    alloc: Global,
    query: u32,
    schema: &Schema,
    plan: &Plan,
    item: u32,
    total: i128,
) -> Result<Bytes, Memory>
    requires columns { NamesColumns (length schema.now) plan.now }
    requires places { All (λ c. places_of c.kind ≤ 9) schema.now }
    requires groups { plan.now.rows ≡ None }
    ensures { IfOk result (λ text. text ≡ refusal_line query
        (overflow_of (kinds_of schema.now (result_columns plan.now)) item total)) }
{
    let mut out = Bytes::new(Vec::new(alloc));
    write_overflow(
        &mut out,
        query,
        item,
        total,
        places_of_item(schema, plan, item),
    )?;
    Ok(out)
}

// The rows of a query with a limit.
fn picked_rows_text(
    alloc: Global,
    query: u32,
    schema: &Schema,
    dicts: &[Dict],
    plan: &Plan,
    picked: &Picked,
) -> Result<Bytes, Memory>
    requires columns { NamesColumns (length schema.now) plan.now }
    requires dicts { length dicts.now ≡ length schema.now }
    requires places { All (λ c. places_of c.kind ≤ 9) schema.now }
    requires cells { CanBeWritten dicts.now plan.now (answers.Picked picked.now) }
    ensures { IfOk result (λ text. text ≡ text_in
        (answer_printed schema.now dicts.now query plan.now (answers.Picked picked.now))) }
{
    match &plan.rows {
        Some(rows) => picked_text(alloc, query, &rows.columns, schema, dicts, picked),
        None => unreachable!(),
    }
}

// The line of a query that was stopped.
fn stopped_text(alloc: Global, query: u32, why: Cause) -> Result<Bytes, Memory>
    ensures { IfOk result (λ text. text ≡ refusal_line query (stop_words why)) }
{
    let mut out = Bytes::new(Vec::new(alloc));
    write_stopped(&mut out, query, why)?;
    Ok(out)
}

/// What an answer prints, for the statement of this number.
///
/// There is a dictionary for each column, and numbers have at most 9 places. The plan names columns of the table, in
/// whose dictionaries the answer's cells can be read.
pub fn answer_text(
    alloc: Global,
    query: u32,
    schema: &Schema,
    dicts: &[Dict],
    plan: &Plan,
    answer: &Answer,
) -> Result<Bytes, Memory>
    requires columns { NamesColumns (length schema.now) plan.now }
    requires dicts { length dicts.now ≡ length schema.now }
    requires places { All (λ c. places_of c.kind ≤ 9) schema.now }
    requires cells { CanBeWritten dicts.now plan.now answer.now }
    ensures { IfOk result (λ text. text ≡ text_in (answer_printed schema.now dicts.now query plan.now answer.now)) }
{
    match answer {
        Answer::Rows(rows) => rows_text(alloc, query, &plan.items, &plan.keys, schema, dicts, rows),
        Answer::Picked(picked) => picked_rows_text(alloc, query, schema, dicts, plan, picked),
        Answer::Overflow { item, total } => {
            overflow_text(alloc, query, schema, plan, *item, *total)
        }
        Answer::Stopped(why) => stopped_text(alloc, query, *why),
    }
}

/// The line of a statement that is refused for its text or the names in it.
pub fn refusal_text(alloc: Global, query: u32, why: &StatementRefusal) -> Result<Bytes, Memory>
    ensures { IfOk result (λ text. text ≡ refusal_line query (statement_words why.now)) }
{
    let mut out = Bytes::new(Vec::new(alloc));
    write_refusal(&mut out, query, why)?;
    Ok(out)
}

/// How the line of a query of this number begins that was stopped.
pub(crate) fn head_text(alloc: Global, query: u32) -> Result<Bytes, Memory>
    ensures { IfOk result (λ text. text ≡ refusal_head query) }
{
    let text = format!(in alloc; "refused {query}: ")?;
    Ok(Bytes::new(text.into_bytes()))
}
