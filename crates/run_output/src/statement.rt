// What one statement prints.
ghost use Rattle.std.specs.Prelude.{◌≡◌, ◌≤◌, ◌<◌, ◌+◌, ◌-◌, ◌^◌, ◌++◌, ◌∷◌, [], List};
ghost use Rattle.std.specs.Prelude.{All, None, IfOk, OnOk, length, slice_index_or};
ghost use Rattle.std.specs.List.{AllByRecursion, AllZip, flat_map};
ghost use Rattle.table_core.specs.Value.{places_of};
ghost use Rattle.table_core.specs.Answer.{IsColumn, kind_at, kinds_of};
ghost use Rattle.table_core.specs.declared.schema.Kind.TheVariants.{Int};
ghost use Rattle.query_gather.specs.Answer.{CanBeWritten};
ghost use Rattle.query_gather.specs.declared.answer.Answer.TheVariants as answers;
ghost use Rattle.run_output.specs.Refusals.{refusal_line};
ghost use Rattle.run_output.specs.Answers.{NamesColumns, answer_printed, overflow_of, printed, result_columns};
ghost use Rattle.run_stops.specs.Outcomes.{plans_of};
ghost use Rattle.run_output.specs.Printed.{text_in};
ghost use Rattle.run_stops.specs.declared.outcome.Outcome.{Outcome};

use crate::refused::{write_overflow, write_refusal, write_stopped};
use agg_groups::{Item, Rows, rows_text};
use query_gather::Answer;
use run_stops::Outcome;
use sql_bind::Plan;
use std::alloc::Global;
use table_core::{Bytes, Column, Dict, Memory, Schema, places_of_kind};
use top_rows::{Picked, picked_text};

// The column in which the cells of an item, counted from 1, are read; a count has none.
fn column_of(plan: &Plan, item: u32) -> Option<u32>
    requires groups { plan.now.rows ≡ None }
    ensures { result ≡ slice_index_or (result_columns plan.now) (item - 1) None }
{
    match plan.items.get(item.saturating_sub(1) as usize)? {
        Item::CountAll | Item::Count(_) => None,
        Item::Sum(x) | Item::Min(x) | Item::Max(x) => Some(*x),
        Item::Key(place) => plan.keys.get(*place as usize).copied(),
    }
}

// The digits after the point of numbers that are read in a column.
fn places_in(columns: &[Column], column: Option<u32>) -> u32
    requires column { IsColumn (length columns.now) column }
    requires places { All (λ c. places_of c.kind ≤ 9) columns.now }
    ensures places { result ≡ places_of (kind_at columns.now column) }
    ensures few { result ≤ 9 }
{
    match column {
        None => 0,
        Some(x) => places_of_kind(columns[x as usize].kind),
    }
}

// The digits after the point of an item's numbers.
fn places_of_item(schema: &Schema, plan: &Plan, item: u32) -> u32
    requires columns { NamesColumns (length schema.now) plan.now }
    requires places { All (λ c. places_of c.kind ≤ 9) schema.now }
    requires groups { plan.now.rows ≡ None }
    ensures places { result ≡ places_of (slice_index_or (kinds_of schema.now (result_columns plan.now)) (item - 1)
        Int) }
    ensures few { result ≤ 9 }
{
    places_in(schema.columns(), column_of(plan, item))
}

// Puts the result rows of a query without a limit at the end.
fn write_rows(
    alloc: Global,
    out: &mut Bytes,
    query: u32,
    schema: &Schema,
    dicts: &[Dict],
    plan: &Plan,
    rows: &Rows,
) -> Result<(), Memory>
    requires columns { NamesColumns (length schema.now) plan.now }
    requires dicts { length dicts.now ≡ length schema.now }
    requires places { All (λ c. places_of c.kind ≤ 9) schema.now }
    requires cells { CanBeWritten dicts.now plan.now (answers.Rows rows.now) }
    ensures { OnOk result (out.new ≡ out.old ++ text_in
        (answer_printed schema.now dicts.now query plan.now (answers.Rows rows.now))) }
{
    let text = rows_text(alloc, query, &plan.items, &plan.keys, schema, dicts, rows)?;
    out.append(text.as_slice())?;
    Ok(())
}

// Puts the rows of a query with a limit at the end.
fn write_picked(
    alloc: Global,
    out: &mut Bytes,
    query: u32,
    schema: &Schema,
    dicts: &[Dict],
    plan: &Plan,
    picked: &Picked,
) -> Result<(), Memory>
    requires columns { NamesColumns (length schema.now) plan.now }
    requires dicts { length dicts.now ≡ length schema.now }
    requires places { All (λ c. places_of c.kind ≤ 9) schema.now }
    requires cells { CanBeWritten dicts.now plan.now (answers.Picked picked.now) }
    ensures { OnOk result (out.new ≡ out.old ++ text_in
        (answer_printed schema.now dicts.now query plan.now (answers.Picked picked.now))) }
{
    match &plan.rows {
        Some(rows) => {
            let text = picked_text(alloc, query, &rows.columns, schema, dicts, picked)?;
            out.append(text.as_slice())?;
            Ok(())
        }
        None => unreachable!(),
    }
}

// Puts the line of a sum that is no number of 64 bits at the end.
fn write_lost_sum(
    out: &mut Bytes,
    query: u32,
    schema: &Schema,
    plan: &Plan,
    item: u32,
    total: i128,
) -> Result<(), Memory>
    requires columns { NamesColumns (length schema.now) plan.now }
    requires places { All (λ c. places_of c.kind ≤ 9) schema.now }
    requires groups { plan.now.rows ≡ None }
    ensures { OnOk result (out.new ≡ out.old ++ refusal_line query
        (overflow_of (kinds_of schema.now (result_columns plan.now)) item total)) }
{
    write_overflow(out, query, item, total, places_of_item(schema, plan, item))
}

// Puts what an answer prints at the end.
fn write_answer(
    alloc: Global,
    out: &mut Bytes,
    query: u32,
    schema: &Schema,
    dicts: &[Dict],
    plan: &Plan,
    answer: &Answer,
) -> Result<(), Memory>
    requires columns { NamesColumns (length schema.now) plan.now }
    requires dicts { length dicts.now ≡ length schema.now }
    requires places { All (λ c. places_of c.kind ≤ 9) schema.now }
    requires cells { CanBeWritten dicts.now plan.now answer.now }
    ensures { OnOk result (out.new ≡ out.old ++ text_in
        (answer_printed schema.now dicts.now query plan.now answer.now)) }
{
    match answer {
        Answer::Rows(rows) => write_rows(alloc, out, query, schema, dicts, plan, rows),
        Answer::Picked(picked) => write_picked(alloc, out, query, schema, dicts, plan, picked),
        Answer::Overflow { item, total } => {
            write_lost_sum(out, query, schema, plan, *item, *total)
        }
        Answer::Stopped(why) => write_stopped(out, query, *why),
    }
}

/// Puts what a statement prints at the end. It takes the first of the answers where it has a plan, and gives those that
/// are left.
pub(crate) fn write_statement<'a>(
    alloc: Global,
    out: &mut Bytes,
    query: u32,
    schema: &Schema,
    dicts: &[Dict],
    outcome: &Outcome,
    answers: &'a [Answer],
) -> Result<&'a [Answer], Memory>
    requires dicts { length dicts.now ≡ length schema.now }
    requires places { All (λ c. places_of c.kind ≤ 9) schema.now }
    requires columns { AllByRecursion (NamesColumns (length schema.now)) (plans_of (outcome.now ∷ [])) }
    requires cells { (rest : List Outcome) × AllZip (CanBeWritten dicts.now) (plans_of (outcome.now ∷ rest))
        answers.now }
    // With what the other statements print behind it, it is what they print together.
    ensures text { IfOk result (λ left. (rest : List Outcome) →
        out.new ++ flat_map text_in (printed schema.now dicts.now (query + 1) rest left.now)
        ≡ out.old ++ flat_map text_in (printed schema.now dicts.now query (outcome.now ∷ rest) answers.now)) }
    ensures left { IfOk result (λ left. (rest : List Outcome) →
        AllZip (CanBeWritten dicts.now) (plans_of (outcome.now ∷ rest)) answers.now
        → AllZip (CanBeWritten dicts.now) (plans_of rest) left.now) }
{
    match outcome {
        Outcome::Refused(why) => {
            write_refusal(out, query, why)?;
            Ok(answers)
        }
        Outcome::Planned(plan) => match answers {
            [answer, left @ ..] => {
                write_answer(alloc, out, query, schema, dicts, plan, answer)?;
                Ok(left)
            }
            [] => unreachable!(),
        },
    }
}
