// What is told of the statements of a batch.
ghost use Rattle.std.specs.Prelude.{◌≡◌, ◌≤◌, ◌||◌, All, IfOk, length, suc};
ghost use Rattle.run_inputs.specs.Statements.{IsSpanIn};
ghost use Rattle.inspect_calls.specs.Telling.{AreTold, CanTell, IsRefusalTold, IsTold};

use crate::refusals::place_told;
use filter_zones::ChunkZones;
use inspect_notes::{note_of, write_note};
use run_output::write_refusal;
use sql_bind::StatementRefusal;
use sql_tokens::Span;
use std::alloc::Global;
use table_core::{Bytes, Dict, Memory, Schema};

/// Puts what is told of statements at the end, the first of which has this number, and answers whether one is refused.
pub(crate) fn tell_statements(
    alloc: Global,
    out: &mut Bytes,
    batch: &[u8],
    number: u32,
    spans: &[Span],
    schema: &Schema,
    dicts: &[Dict],
    zones: &[ChunkZones],
) -> Result<bool, Memory>
    requires can { CanTell schema.now dicts.now zones.now }
    requires there { All (IsSpanIn (length batch.now)) spans.now }
    requires short { length batch.now ≤ 1048576 }
    ensures { IfOk result
        (λ refused. AreTold schema.now dicts.now zones.now batch.now number spans.now refused out.old out.new) }
{
    match spans {
        [] => Ok(false),
        [span, others @ ..] => {
            let refused = tell_statement(alloc, out, batch, number, *span, schema, dicts, zones)?;
            let next = number_behind(number)?;
            let more = tell_statements(alloc, out, batch, next, others, schema, dicts, zones)?;
            Ok(either(refused, more))
        }
    }
}

fn either(first: bool, others: bool) -> bool
    ensures { result ≡ (first || others) }
{
    first || others
}

// The number of the next statement. There are at most 256, so it is there.
fn number_behind(number: u32) -> Result<u32, Memory>
    ensures { IfOk result (λ next. next ≡ suc number) }
{
    match number.checked_add(1) {
        Some(next) => Ok(next),
        None => Err(Memory),
    }
}

// Puts what is told of one statement at the end, and answers whether it is refused.
fn tell_statement(
    alloc: Global,
    out: &mut Bytes,
    batch: &[u8],
    number: u32,
    span: Span,
    schema: &Schema,
    dicts: &[Dict],
    zones: &[ChunkZones],
) -> Result<bool, Memory>
    requires can { CanTell schema.now dicts.now zones.now }
    requires there { IsSpanIn (length batch.now) span }
    requires short { length batch.now ≤ 1048576 }
    ensures { IfOk result
        (λ refused. IsTold schema.now dicts.now zones.now batch.now number span refused out.old out.new) }
{
    let text = &batch[span.from as usize..span.to as usize];
    match note_of(alloc, text, schema, dicts, zones) {
        Ok(note) => {
            let told = write_note(alloc, number, schema, &note)?;
            out.append(told.as_slice())?;
            Ok(false)
        }
        Err(why) => {
            let told = refusal_told(alloc, batch, number, span, schema, &why)?;
            out.append(told.as_slice())?;
            Ok(true)
        }
    }
}

// The line of a refusal, as a run prints it, and the lines of its place.
fn refusal_told(
    alloc: Global,
    batch: &[u8],
    number: u32,
    span: Span,
    schema: &Schema,
    why: &StatementRefusal,
) -> Result<Bytes, Memory>
    requires there { IsSpanIn (length batch.now) span }
    requires short { length batch.now ≤ 1048576 }
    ensures { IfOk result (λ told. IsRefusalTold schema.now batch.now number span why.now told) }
{
    let mut told = Bytes::new(Vec::new(alloc));
    write_refusal(&mut told, number, why)?;
    let place = place_told(alloc, batch, span, schema.columns(), why)?;
    told.append(&place)?;
    Ok(told)
}
