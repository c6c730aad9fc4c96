// The plan of a statement's text.
ghost use Rattle.std.specs.Prelude.{◌≡◌, ◌≤◌, ◌<◌, ◌^◌, ℕ, List, Option, All, IfOk, IfErr, OnOk, None, length};
ghost use Rattle.table_core.specs.Value.{places_of};
ghost use Rattle.table_core.specs.declared.schema.Column.{Column};
ghost use Rattle.sql_bind.specs.Statements.{IsPlanFor, IsRefusedFor, TextCause};
ghost use Rattle.sql_bind.specs.declared.statement.StatementRefusal.{StatementRefusal};

use crate::binding::bind;
use crate::plan::Plan;
use crate::refusal::BindRefusal;
use sql_text::{TextRefusal, read_query};
use std::alloc::Global;
use table_core::{Dict, MOST_COLUMNS, MOST_PLACES, Schema};

/// Why a statement has no plan.
#[derive(Debug, Drop)]
pub enum StatementRefusal {
    /// Its text is read as no query.
    Text(TextRefusal),
    /// Its query isn't bound.
    Query(BindRefusal),
}

/// Reads a statement's text as a query and binds it.
///
/// The text has at most 4294967295 bytes; schema and dictionaries are as for `bind`.
///
/// # Errors
///
/// The first refusal of `read_query` and then of `bind`, exactly where it holds; out of memory may come at any time.
pub fn plan_of(
    alloc: Global,
    text: &[u8],
    schema: &Schema,
    dicts: &[Dict],
) -> Result<Plan, StatementRefusal>
    requires short { length text.now < 2 ^ 32 }
    requires few { length schema.now ≤ MOST_COLUMNS }
    requires places { All (λ c. places_of c.kind ≤ MOST_PLACES) schema.now }
    requires dicts { length dicts.now ≡ length schema.now }
    ensures plan { IfOk result (λ plan. IsPlanFor text.now schema.now dicts.now plan) }
    ensures passes { OnOk result (TextCause text.now schema.now None) }
    ensures refused { IfErr result (λ e. IsRefusedFor text.now schema.now e) }
{
    match read_query(alloc, text) {
        Ok(query) => match bind(alloc, &query, schema, dicts) {
            Ok(plan) => Ok(plan),
            Err(refusal) => Err(StatementRefusal::Query(refusal)),
        },
        Err(refusal) => Err(StatementRefusal::Text(refusal)),
    }
}

/// A text has one cause at most for which it is refused, or none: a law. It does nothing.
pub fn one_cause()
    ensures { (bytes : List ℕ) (columns : List Column) (a b : Option StatementRefusal) →
        TextCause bytes columns a → TextCause bytes columns b → a ≡ b }
{}
