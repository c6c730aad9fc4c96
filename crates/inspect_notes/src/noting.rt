// The notes of statements.
ghost use Rattle.std.specs.Prelude.{◌≡◌, ◌≤◌, ◌<◌, ◌^◌, All, IfErr, IfOk, IfSome, length};
ghost use Rattle.filter_zones.specs.Possible.{FitsZones};
ghost use Rattle.table_core.specs.Value.{places_of};
ghost use Rattle.table_sets.specs.declared.limits.TheConstants.{MOST_CHUNKS};
ghost use Rattle.sql_bind.specs.Statements.{IsPlanFor, IsRefusedFor};
ghost use Rattle.sql_bind.specs.declared.plan.Plan.{Plan as PlanOf};
ghost use Rattle.sql_text.specs.Queries.{HasQuery};
ghost use Rattle.sql_text.specs.Reading.{query_of};
ghost use Rattle.sql_tokens.specs.declared.refusal.TextRefusal.TheVariants as refusals;
ghost use Rattle.inspect_notes.specs.Notes as spec;
ghost use Rattle.inspect_notes.specs.Zones.{AreZonesOf};

use crate::members::members_of;
use crate::note::Note;
use crate::parts::obstacles_of;
use filter_zones::{ChunkZones, needed};
use sql_bind::{Plan, StatementRefusal, plan_of};
use sql_text::{Query, TextRefusal, one_query, read_query};
use sql_writing::write_query;
use std::alloc::Global;
use table_core::{Dict, MOST_CHUNKS, MOST_COLUMNS, MOST_PLACES, Memory, Schema};

// Out of memory: the only refusal of a text that is a query.
fn memory_of(_refusal: TextRefusal) -> Memory
    requires { _refusal ≡ refusals.Memory }
{
    Memory
}

// The query of a text that is one.
fn read(alloc: Global, text: &[u8]) -> Result<Query, Memory>
    requires short { length text.now < 2 ^ 32 }
    requires query { spec.IsQuery text.now }
    ensures { IfOk result (λ q. HasQuery text.now (query_of q)) }
{
    one_query();
    match read_query(alloc, text) {
        Ok(query) => Ok(query),
        Err(refusal) => Err(memory_of(refusal)),
    }
}

/// The note of a statement's text with the plan that it has, as a run has it, over a table's chunks.
///
/// # Errors
///
/// `Memory` alone.
pub fn note_of_plan(
    alloc: Global,
    text: &[u8],
    plan: &Plan,
    zones: &[ChunkZones],
) -> Result<Note, Memory>
    requires short { length text.now < 2 ^ 32 }
    requires query { spec.IsQuery text.now }
    requires few { length zones.now ≤ MOST_CHUNKS }
    requires fits { IfSome plan.now.cond (λ c. All (λ chunk. FitsZones c chunk.zones) zones.now) }
    ensures { IfOk result (λ note. spec.IsNote text.now plan.now zones.now note) }
{
    let query = read(alloc, text)?;
    let text = write_query(alloc, &query)?;
    let columns = members_of(alloc, &plan.columns)?;
    let needed = needed(plan.cond.as_ref(), zones).len();
    let obstacles = obstacles_of(alloc, &plan.cond, zones, needed)?;
    Ok(Note {
        text,
        columns,
        needed,
        chunks: zones.len() as u32,
        obstacles,
    })
}

/// The note of a statement's text over the columns of a table and its chunks, or why the statement has no plan.
///
/// The text has at most 4294967295 bytes; schema, dictionaries and refusals are as for `sql_bind::plan_of`. The zones
/// are those of the table, as `zones_of_table` gives them.
pub fn note_of(
    alloc: Global,
    text: &[u8],
    schema: &Schema,
    dicts: &[Dict],
    zones: &[ChunkZones],
) -> Result<Note, StatementRefusal>
    requires short { length text.now < 2 ^ 32 }
    requires few { length schema.now ≤ MOST_COLUMNS }
    requires places { All (λ c. places_of c.kind ≤ MOST_PLACES) schema.now }
    requires dicts { length dicts.now ≡ length schema.now }
    requires zones { AreZonesOf schema.now dicts.now zones.now }
    ensures note { IfOk result (λ note. (p : PlanOf) × IsPlanFor text.now schema.now dicts.now p
        × spec.IsNote text.now p zones.now note) }
    ensures columns { IfOk result (λ note. 0 < length schema.now → All (λ x. x < length schema.now)
        note.columns.items) }
    ensures refused { IfErr result (λ e. IsRefusedFor text.now schema.now e) }
{
    let plan = plan_of(alloc, text, schema, dicts)?;
    match note_of_plan(alloc, text, &plan, zones) {
        Ok(note) => Ok(note),
        Err(_) => Err(StatementRefusal::Text(TextRefusal::Memory)),
    }
}
