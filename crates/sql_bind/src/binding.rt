// Binds a query to a table.
ghost use Rattle.std.specs.Prelude.{◌≡◌, ◌≤◌, All, IfOk, length, map};
ghost use Rattle.table_core.specs.Dict.{Rises};
ghost use Rattle.table_core.specs.Value.{places_of};
ghost use Rattle.sql_text.specs.Reading.{cond_seen, query_of};
ghost use Rattle.sql_bind.specs.Bounds.{HasTruth, IsBound};
ghost use Rattle.sql_bind.specs.Causes.{Judges};
ghost use Rattle.sql_bind.specs.Meaning.{MeansQuery};
ghost use Rattle.sql_bind.specs.Places as places_in;
ghost use Rattle.sql_bind.specs.Plans as spec;
ghost use Rattle.sql_bind.specs.Plans.{IsPlanOf};
ghost use Rattle.sql_bind.specs.Reads.{ReadsItsColumns};
ghost use Rattle.sql_bind.specs.Refusals.{refusal_of};

use crate::conditions::bind_where;
use crate::items::{columns_of, items_of, orders_of, plain_columns};
use crate::judging::{refuse_kinds, refuse_names, refuse_plain, refuse_table};
use crate::naming::named_columns;
use crate::places::{Place, places_of};
use crate::plan::Plan;
use crate::refusal::BindRefusal;
use query_meaning::RowPlan;
use sql_text::Query;
use std::alloc::{AllocError, Global};
use table_core::{Column, Dict, MOST_COLUMNS, MOST_PLACES, Schema};

// The key columns of a query that isn't refused.
fn judge(
    alloc: Global,
    columns: &[Column],
    query: &Query,
    places: &[Place<'_>],
) -> Result<Vec<u32>, BindRefusal>
    requires few { length columns.now ≤ MOST_COLUMNS }
    requires all { map places_in.place_seen places.now ≡ places_in.places (query_of query.now) }
    ensures judged { Judges result (refusal_of columns.now (query_of query.now)) }
    ensures keys { IfOk result (λ keys. keys.items ≡ spec.columns_of columns.now (query_of query.now).keys) }
{
    refuse_table(alloc, &query.table)?;
    refuse_names(alloc, columns, places)?;
    refuse_kinds(alloc, columns, places)?;
    let keys = columns_of(alloc, columns, &query.keys)?;
    refuse_plain(alloc, columns, &keys, &query.items, query.limit)?;
    Ok(keys)
}

// What a query with a limit asks for.
fn row_plan(
    alloc: Global,
    columns: &[Column],
    query: &Query,
    limit: u32,
) -> Result<RowPlan, AllocError>
    requires { length columns.now ≤ MOST_COLUMNS }
    ensures { IfOk result (λ rows. rows ≡ spec.row_query columns.now (query_of query.now) limit) }
{
    Ok(RowPlan {
        columns: plain_columns(alloc, columns, &query.items)?,
        order: orders_of(alloc, columns, &query.order)?,
        limit,
    })
}

// Each dictionary rises, as its `len` says.
fn all_rise(dicts: &[Dict])
    ensures { All Rises dicts.now }
{
    for dict in dicts {
        let _count = dict.len();
    }
}

fn bind_columns(
    alloc: Global,
    query: &Query,
    columns: &[Column],
    dicts: &[Dict],
) -> Result<Plan, BindRefusal>
    requires few { length columns.now ≤ MOST_COLUMNS }
    requires places { All (λ c. places_of c.kind ≤ MOST_PLACES) columns.now }
    requires dicts { length dicts.now ≡ length columns.now }
    ensures judged { Judges result (refusal_of columns.now (query_of query.now)) }
    ensures plan { IfOk result (λ plan. IsPlanOf columns.now (query_of query.now) plan) }
    ensures cond { IfOk result (λ plan. IsBound columns.now dicts.now (cond_seen query.now.cond) plan.cond) }
{
    let places = places_of(alloc, query)?;
    let keys = judge(alloc, columns, query, &places)?;
    let cond = bind_where(alloc, columns, dicts, &query.cond)?;
    let named = named_columns(columns, &places);
    match query.limit {
        None => {
            let items = items_of(alloc, columns, &keys, &query.items)?;
            Ok(Plan {
                items,
                keys,
                cond,
                columns: named,
                rows: None,
            })
        }
        Some(limit) => {
            let rows = row_plan(alloc, columns, query, limit)?;
            Ok(Plan {
                items: Vec::new(alloc),
                keys: Vec::new(alloc),
                cond,
                columns: named,
                rows: Some(rows),
            })
        }
    }
}

/// The plan of a query over the columns of a table.
///
/// There is one dictionary for each column, and at most `MOST_COLUMNS` columns, whose numbers have at most
/// `MOST_PLACES` places. Over rows of cells the plan means what the query means over the values that they stand for.
///
/// # Errors
///
/// In this order: `UnknownTable` exactly where the table isn't `t`, `UnknownColumn` with the first place whose name no
/// column has, `WrongKind` with the first place whose column's kind doesn't allow its use, `NotGrouped` with the first
/// plain item whose column is no key column, unless the query has a limit. `Memory` may come in place of each of them,
/// since the places of the query are a list that takes memory.
pub fn bind(
    alloc: Global,
    query: &Query,
    schema: &Schema,
    dicts: &[Dict],
) -> Result<Plan, BindRefusal>
    requires few { length schema.now ≤ MOST_COLUMNS }
    requires places { All (λ c. places_of c.kind ≤ MOST_PLACES) schema.now }
    requires dicts { length dicts.now ≡ length schema.now }
    // What is refused has its first cause, unless memory ran out.
    ensures judged { Judges result (refusal_of schema.now (query_of query.now)) }
    ensures plan { IfOk result (λ plan. IsPlanOf schema.now (query_of query.now) plan) }
    // Its condition is the query's with columns for names and bounds for literals.
    ensures cond { IfOk result (λ plan. IsBound schema.now dicts.now (cond_seen query.now.cond) plan.cond) }
    // Over cells it has, row by row, the truth of the query's over their values.
    ensures truth { IfOk result (λ plan. HasTruth schema.now dicts.now (cond_seen query.now.cond) plan.cond) }
    // It reads no column but those that it names, which are there.
    ensures reads { IfOk result (λ plan. ReadsItsColumns (length schema.now) plan) }
    ensures means { IfOk result (λ plan. MeansQuery schema.now dicts.now (query_of query.now) plan) }
{
    all_rise(dicts);
    bind_columns(alloc, query, schema.columns(), dicts)
}
