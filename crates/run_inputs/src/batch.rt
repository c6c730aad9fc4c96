// The batch that the words name, and what each of its statements comes to.
ghost use Rattle.std.specs.Prelude.{◌≡◌, ◌≢◌, ◌≤◌, ◌<◌, ◌⊎◌, ◌^◌, ℕ, List, All};
ghost use Rattle.std.specs.Prelude.{IfErr, IfOk, None, Some, false, length, map};
ghost use Rattle.run_inputs.specs.Ending.{IsOfBatch, IsTextRead, SourceFails};
ghost use Rattle.run_inputs.specs.Order.{count_stop, long_batch};
ghost use Rattle.run_inputs.specs.Sources.{source_of_batch};
ghost use Rattle.run_inputs.specs.Statements.{IsSpanIn, part, spans_in};
ghost use Rattle.run_stops.specs.Outcomes.{ComeTo, ComesTo};
ghost use Rattle.command_words.specs.Views.{batch_view};
ghost use Rattle.run_stops.specs.declared.stop.Stop.TheVariants as stop;
ghost use Rattle.sql_bind.specs.Statements.{IsRefusedFor, TextCause};
ghost use Rattle.table_core.specs.Value.{places_of};
ghost use Rattle.table_core.specs.declared.schema.Column.{Column};

use crate::generated_batch::batch_text;
use crate::limits::{MOST_BATCH_BYTES, MOST_SCANS, MOST_STATEMENTS};
use command_words::{Batch, MOST_PARTS};
use coop_outside::{Bytes, ReadFault, Shelf, read_all};
use run_stops::{Outcome, Stop};
use sql_bind::{BindRefusal, StatementRefusal, plan_of};
use sql_tokens::{Span, TextRefusal, split};
use std::alloc::Global;
use table_core::{Dict, MOST_COLUMNS, MOST_PLACES, Schema};

/// The text of a batch: it is generated, or read from the shelf.
pub(crate) fn batch_bytes<F: Shelf>(
    alloc: Global,
    batch: Batch<'_>,
    shelf: &mut F,
) -> Result<Bytes, Stop>
    ensures read { IsTextRead (F.held shelf.old) (source_of_batch (batch_view batch.entry)) stop.BatchFault long_batch
        (F.faults shelf.old) (F.faults shelf.new) result }
    ensures of_batch { IfErr result IsOfBatch }
    ensures cause { IfErr result (λ s. s ≡ stop.BatchFault
        → SourceFails (F.held shelf.old) (source_of_batch (batch_view batch.entry)) (F.faults shelf.old)
        (F.faults shelf.new)) }
    ensures within { IfOk result (λ b. length b ≤ MOST_BATCH_BYTES) }
    ensures held { F.held shelf.new ≡ F.held shelf.old }
    ensures later { F.faults shelf.old ≤ F.faults shelf.new }
{
    match batch {
        Batch::Generated => match Vec::from_slice(alloc, batch_text().as_bytes()) {
            Ok(text) => Ok(Bytes::new(text)),
            Err(_) => Err(Stop::Memory),
        },
        Batch::File(name) => match read_all(alloc, shelf, name, MOST_BATCH_BYTES) {
            Ok(text) => Ok(text),
            Err(ReadFault::Fault) => Err(Stop::BatchFault),
            Err(ReadFault::TooLong { limit: _ }) => Err(Stop::BatchTooLong),
            Err(ReadFault::Memory) => Err(Stop::Memory),
        },
    }
}

/// Where the statements of a batch stand; or that they are too many, alone or in so many parts.
pub(crate) fn statements_of(alloc: Global, parts: u32, text: &[u8]) -> Result<Vec<Span>, Stop>
    requires long { length text.now ≤ MOST_BATCH_BYTES }
    requires parts { parts ≤ MOST_PARTS }
    ensures ok { IfOk result (λ spans. (count_stop parts (length (spans_in text.now)) ≡ None)
        × (spans.items ≡ spans_in text.now)) }
    ensures there { IfOk result (λ spans. All (IsSpanIn (length text.now)) spans.items) }
    ensures err { IfErr result (λ s. (count_stop parts (length (spans_in text.now)) ≡ Some s) ⊎ (s ≡ stop.Memory)) }
    ensures of_batch { IfErr result (λ s. IsOfBatch s × (s ≢ stop.BatchFault)) }
{
    let spans = match split(alloc, text) {
        Ok(spans) => spans,
        Err(_) => return Err(Stop::Memory),
    };
    let statements = spans.len() as u32;
    if statements > MOST_STATEMENTS {
        return Err(Stop::Statements { statements });
    }
    let scans = parts * statements;
    if scans > MOST_SCANS {
        return Err(Stop::Scans { scans });
    }
    Ok(spans)
}

// Whether a statement was refused only when out of memory.
fn is_memory(refusal: &StatementRefusal) -> bool
    ensures { (text : List ℕ) (columns : List Column) → IsRefusedFor text columns refusal.now → result ≡ false
        → TextCause text columns (Some refusal.now) }
{
    match refusal {
        StatementRefusal::Text(TextRefusal::Memory) => true,
        StatementRefusal::Query(BindRefusal::Memory) => true,
        _ => false,
    }
}

// What a statement comes to, unless memory runs out.
fn outcome_of(alloc: Global, text: &[u8], schema: &Schema, dicts: &[Dict]) -> Result<Outcome, Stop>
    requires short { length text.now < 2 ^ 32 }
    requires few { length schema.now ≤ MOST_COLUMNS }
    requires places { All (λ c. places_of c.kind ≤ MOST_PLACES) schema.now }
    requires dicts { length dicts.now ≡ length schema.now }
    ensures ok { IfOk result (λ o. ComesTo schema.now dicts.now text.now o) }
    ensures err { IfErr result (λ s. s ≡ stop.Memory) }
{
    match plan_of(alloc, text, schema, dicts) {
        Ok(plan) => Ok(Outcome::Planned(plan)),
        Err(refusal) => {
            if is_memory(&refusal) {
                return Err(Stop::Memory);
            }
            Ok(Outcome::Refused(refusal))
        }
    }
}

/// What each statement of a batch comes to.
pub(crate) fn outcomes_of(
    alloc: Global,
    text: &[u8],
    spans: &[Span],
    schema: &Schema,
    dicts: &[Dict],
) -> Result<Vec<Outcome>, Stop>
    requires there { All (IsSpanIn (length text.now)) spans.now }
    requires short { length text.now < 2 ^ 32 }
    requires few { length schema.now ≤ MOST_COLUMNS }
    requires places { All (λ c. places_of c.kind ≤ MOST_PLACES) schema.now }
    requires dicts { length dicts.now ≡ length schema.now }
    ensures ok { IfOk result (λ v. ComeTo schema.now dicts.now (map (part text.now) spans.now) v.items) }
    ensures err { IfErr result (λ s. s ≡ stop.Memory) }
{
    let mut outcomes = Vec::new(alloc);
    for span in spans {
        let statement = &text[span.from as usize..span.to as usize];
        let outcome = outcome_of(alloc, statement, schema, dicts)?;
        match outcomes.push(outcome) {
            Ok(()) => {}
            Err(_) => return Err(Stop::Memory),
        }
    }
    Ok(outcomes)
}
