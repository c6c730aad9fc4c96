// From a request and a shelf to what a run is given.
ghost use Rattle.std.specs.Prelude.{◌≡◌, ◌≢◌, ◌≤◌, ◌⊎◌, All, List, Option, ℕ, Err, IfErr, IfOk, None, Some, length};
ghost use Rattle.run_inputs.specs.Ending.{AreInputs, Ends, EndsOver, IsBatch, IsOfBatch, IsOfTable};
ghost use Rattle.run_inputs.specs.Ending.{IsRead, IsReadAndKept, IsTable, IsTextOf, SourceFails};
ghost use Rattle.run_inputs.specs.Order.{batch_stop, first_stop, short_batch_stop};
ghost use Rattle.run_inputs.specs.Order.{short_table_stop, stop_in, table_stop};
ghost use Rattle.run_inputs.specs.Sources.{batch_source, table_source};
ghost use Rattle.run_inputs.specs.Statements.{spans_in};
ghost use Rattle.command_words.specs.Limits.{IsWithinLimits};
ghost use Rattle.command_words.specs.Views.{request_view};
ghost use Rattle.run_stops.specs.declared.stop.Stop.TheVariants as stop;
ghost use Rattle.sql_tokens.specs.Statements.{HasStatements};
ghost use Rattle.sql_tokens.specs.declared.span.Span.{Span};
ghost use Rattle.table_core.specs.Value.{places_of};

use crate::batch::{batch_bytes, outcomes_of, statements_of};
use crate::frames::frames_for;
use crate::inputs::{Inputs, ReadTexts};
use crate::limits::MOST_BATCH_BYTES;
use crate::table::{load_table, table_bytes, table_named};
use batch_plan::Options;
use command_words::{Batch, Request};
use coop_outside::{Bytes, Shelf};
use csv_load::{Loaded, MOST_TEXT_BYTES};
use run_stops::{Outcome, Stop};
use std::alloc::Global;
use std::hash::RandomState;
use std::thread::Threads;
use table_core::{MOST_COLUMNS, MOST_PLACES};

/// What a request and the shelf give a run, or why the run stops: the first refusal in the order table, chunks, frames,
/// batch, statements. The numbers of the request lie within their limits.
///
/// The keys are those of the hash with which `load` looks texts up. No call changes what the shelf holds. The table's
/// text is let go before the batch is read. After a stop nothing is left.
///
/// # Errors
///
/// `TableFault` and `BatchFault` only where the shelf failed, `BatchFault` only behind a table that is accepted and
/// whose frames are enough. `Memory` may come in place of any other answer. Running out of memory for one statement
/// stops the run, so no refusal in the outcomes is `Memory`. Each other stop comes exactly where it is the first that
/// holds. `Usage` and `NotStored` never come.
pub fn inputs_of<F: Shelf, R: Threads + Sync>(
    rt: &R,
    alloc: Global,
    keys: RandomState,
    request: &Request<'_>,
    shelf: &mut F,
) -> Result<Inputs, Stop>
    requires limits { IsWithinLimits (request_view request.now) }
    // where the shelf tells what it holds: what the request and the files give, but for faults and memory that runs out
    ensures told { (files : List ℕ → Option (List ℕ)) → F.held shelf.old ≡ Some files
        → EndsOver (request_view request.now) files (F.faults shelf.old) (F.faults shelf.new) result }
    ensures no_usage { result ≢ Err stop.Usage }
    // 4: the shelf failed
    ensures table_fault { result ≡ Err stop.TableFault
        → SourceFails (F.held shelf.old) (table_source request.now.table.now) (F.faults shelf.old)
        (F.faults shelf.new) }
    ensures batch_fault { result ≡ Err stop.BatchFault
        → SourceFails (F.held shelf.old) (batch_source request.now.batch.now) (F.faults shelf.old)
        (F.faults shelf.new) }
    // over every shelf: what was read decides
    ensures read { IsRead (request_view request.now) (F.held shelf.old) (F.faults shelf.old) (F.faults shelf.new)
        result }
    ensures held { F.held shelf.new ≡ F.held shelf.old }
    ensures later { F.faults shelf.old ≤ F.faults shelf.new }
{
    read_in_turn(rt, alloc, keys, request, shelf)
}

// The same with the clause from which the first follows.
fn read_in_turn<F: Shelf, R: Threads + Sync>(
    rt: &R,
    alloc: Global,
    keys: RandomState,
    request: &Request<'_>,
    shelf: &mut F,
) -> Result<Inputs, Stop>
    requires limits { IsWithinLimits (request_view request.now) }
    ensures no_usage { result ≢ Err stop.Usage }
    ensures table_fault { result ≡ Err stop.TableFault
        → SourceFails (F.held shelf.old) (table_source request.now.table.now) (F.faults shelf.old)
        (F.faults shelf.new) }
    ensures batch_fault { result ≡ Err stop.BatchFault
        → SourceFails (F.held shelf.old) (batch_source request.now.batch.now) (F.faults shelf.old)
        (F.faults shelf.new) }
    ensures read { IsRead (request_view request.now) (F.held shelf.old) (F.faults shelf.old) (F.faults shelf.new)
        result }
    ensures held { F.held shelf.new ≡ F.held shelf.old }
    ensures later { F.faults shelf.old ≤ F.faults shelf.new }
{
    let (loaded, frames, text) = read_table(rt, alloc, keys, request, shelf)?;
    // It may have `MOST_TEXT_BYTES`, and the batch doesn't ask for it.
    drop(text);
    let (outcomes, _) = read_batch(alloc, request, &loaded, shelf)?;
    Ok(inputs_with(request, loaded, frames, outcomes))
}

/// The same, and the texts that were read, for runs to come: `inputs_again` makes the inputs of them once more. So the
/// table's text is there while the batch is read.
pub fn read_inputs<F: Shelf, R: Threads + Sync>(
    rt: &R,
    alloc: Global,
    keys: RandomState,
    request: &Request<'_>,
    shelf: &mut F,
) -> Result<(Inputs, ReadTexts), Stop>
    requires limits { IsWithinLimits (request_view request.now) }
    ensures no_usage { result ≢ Err stop.Usage }
    ensures table_fault { result ≡ Err stop.TableFault
        → SourceFails (F.held shelf.old) (table_source request.now.table.now) (F.faults shelf.old)
        (F.faults shelf.new) }
    ensures batch_fault { result ≡ Err stop.BatchFault
        → SourceFails (F.held shelf.old) (batch_source request.now.batch.now) (F.faults shelf.old)
        (F.faults shelf.new) }
    ensures read { IsReadAndKept (request_view request.now) (F.held shelf.old) (F.faults shelf.old)
        (F.faults shelf.new) result }
    ensures held { F.held shelf.new ≡ F.held shelf.old }
    ensures later { F.faults shelf.old ≤ F.faults shelf.new }
{
    let (loaded, frames, table) = read_table(rt, alloc, keys, request, shelf)?;
    let (outcomes, batch) = read_batch(alloc, request, &loaded, shelf)?;
    let inputs = inputs_with(request, loaded, frames, outcomes);
    Ok((inputs, ReadTexts { table, batch }))
}

/// What a request gives a run over texts that were read before, or why the run stops.
///
/// # Errors
///
/// `Memory`, or the first stop of the request over these texts.
pub fn inputs_again<R: Threads + Sync>(
    rt: &R,
    alloc: Global,
    keys: RandomState,
    request: &Request<'_>,
    texts: &ReadTexts,
) -> Result<Inputs, Stop>
    requires limits { IsWithinLimits (request_view request.now) }
    requires table { length texts.now.table ≤ MOST_TEXT_BYTES }
    requires batch { length texts.now.batch ≤ MOST_BATCH_BYTES }
    ensures ok { IfOk result (λ i. (first_stop (request_view request.now) (Some texts.now.table)
        (Some texts.now.batch) ≡ None)
        × AreInputs (request_view request.now) (Some texts.now.table) (Some texts.now.batch) i) }
    ensures err { IfErr result (λ s. (first_stop (request_view request.now) (Some texts.now.table)
        (Some texts.now.batch) ≡ Some s) ⊎ (s ≡ stop.Memory)) }
{
    let (loaded, frames) = table_in(rt, alloc, keys, request, texts.table.as_slice())?;
    let outcomes = batch_in(alloc, request, &loaded, texts.batch.as_slice())?;
    Ok(inputs_with(request, loaded, frames, outcomes))
}

// What a request gives a run, with its table and its batch.
fn inputs_with(request: &Request<'_>, loaded: Loaded, frames: u32, outcomes: Vec<Outcome>) -> Inputs
    ensures given { (table : Option (List ℕ)) (batch : Option (List ℕ))
        → IsTable (request_view request.now) table loaded frames → IsBatch batch loaded outcomes.items
        → AreInputs (request_view request.now) table batch result }
{
    Inputs {
        options: Options {
            workers: request.workers,
            frames,
            per: request.per,
            layout: request.layout,
            parts: request.parts,
        },
        summary: request.summary,
        trace: request.trace,
        loaded,
        outcomes,
    }
}

// The table that is asked for, how many frames there are, and the table's text.
fn read_table<F: Shelf, R: Threads + Sync>(
    rt: &R,
    alloc: Global,
    keys: RandomState,
    request: &Request<'_>,
    shelf: &mut F,
) -> Result<(Loaded, u32, Bytes), Stop>
    requires limits { IsWithinLimits (request_view request.now) }
    ensures read { (text : Option (List ℕ)) × IsTextOf (F.held shelf.old) (table_source request.now.table.now) text
        × Ends (stop_in stop.TableFault (table_stop (request_view request.now)) text)
        (λ p. IsTable (request_view request.now) text p.0 p.1 × (text ≡ Some p.2)) (λ s. s ≡ stop.TableFault)
        (F.faults shelf.old) (F.faults shelf.new) result }
    ensures within { IfOk result (λ p. length p.2 ≤ MOST_TEXT_BYTES) }
    ensures of_table { IfErr result IsOfTable }
    ensures cause { IfErr result (λ s. s ≡ stop.TableFault
        → SourceFails (F.held shelf.old) (table_source request.now.table.now) (F.faults shelf.old)
        (F.faults shelf.new)) }
    ensures held { F.held shelf.new ≡ F.held shelf.old }
    ensures later { F.faults shelf.old ≤ F.faults shelf.new }
{
    let text = table_bytes(alloc, table_named(request.table), shelf)?;
    let (loaded, frames) = table_in(rt, alloc, keys, request, text.as_slice())?;
    Ok((loaded, frames, text))
}

// The table of a text, and how many frames there are.
fn table_in<R: Threads + Sync>(
    rt: &R,
    alloc: Global,
    keys: RandomState,
    request: &Request<'_>,
    text: &[u8],
) -> Result<(Loaded, u32), Stop>
    requires limits { IsWithinLimits (request_view request.now) }
    requires small { length text.now ≤ MOST_TEXT_BYTES }
    ensures ok { IfOk result (λ p. (short_table_stop (request_view request.now) text.now ≡ None)
        × IsTable (request_view request.now) (Some text.now) p.0 p.1) }
    ensures err { IfErr result (λ s. (short_table_stop (request_view request.now) text.now ≡ Some s)
        ⊎ (s ≡ stop.Memory)) }
    ensures of_table { IfErr result (λ s. IsOfTable s × (s ≢ stop.TableFault)) }
{
    let loaded = load_table(rt, alloc, keys, text, request.workers - 1)?;
    let frames = frames_for(request, &loaded.table)?;
    Ok((loaded, frames))
}

// What the statements of the batch come to, and the batch's text.
fn read_batch<F: Shelf>(
    alloc: Global,
    request: &Request<'_>,
    loaded: &Loaded,
    shelf: &mut F,
) -> Result<(Vec<Outcome>, Bytes), Stop>
    requires limits { IsWithinLimits (request_view request.now) }
    requires few { length loaded.now.table.columns ≤ MOST_COLUMNS }
    requires places { All (λ c. places_of c.kind ≤ MOST_PLACES) loaded.now.table.columns }
    requires dicts { length loaded.now.dicts.items ≡ length loaded.now.table.columns }
    ensures read { (text : Option (List ℕ)) × IsTextOf (F.held shelf.old) (batch_source request.now.batch.now) text
        × Ends (stop_in stop.BatchFault (batch_stop (request_view request.now)) text)
        (λ p. IsBatch text loaded.now p.0.items × (text ≡ Some p.1)) (λ s. s ≡ stop.BatchFault) (F.faults shelf.old)
        (F.faults shelf.new) result }
    ensures within { IfOk result (λ p. length p.1 ≤ MOST_BATCH_BYTES) }
    ensures of_batch { IfErr result IsOfBatch }
    ensures cause { IfErr result (λ s. s ≡ stop.BatchFault
        → SourceFails (F.held shelf.old) (batch_source request.now.batch.now) (F.faults shelf.old)
        (F.faults shelf.new)) }
    ensures held { F.held shelf.new ≡ F.held shelf.old }
    ensures later { F.faults shelf.old ≤ F.faults shelf.new }
{
    let text = batch_bytes(alloc, Batch::named(request.batch), shelf)?;
    let outcomes = batch_in(alloc, request, loaded, text.as_slice())?;
    Ok((outcomes, text))
}

// What the statements of a text come to.
fn batch_in(
    alloc: Global,
    request: &Request<'_>,
    loaded: &Loaded,
    text: &[u8],
) -> Result<Vec<Outcome>, Stop>
    requires limits { IsWithinLimits (request_view request.now) }
    requires long { length text.now ≤ MOST_BATCH_BYTES }
    requires few { length loaded.now.table.columns ≤ MOST_COLUMNS }
    requires places { All (λ c. places_of c.kind ≤ MOST_PLACES) loaded.now.table.columns }
    requires dicts { length loaded.now.dicts.items ≡ length loaded.now.table.columns }
    ensures ok { IfOk result (λ v. (short_batch_stop (request_view request.now) text.now ≡ None)
        × IsBatch (Some text.now) loaded.now v.items) }
    ensures err { IfErr result (λ s. (short_batch_stop (request_view request.now) text.now ≡ Some s)
        ⊎ (s ≡ stop.Memory)) }
    ensures of_batch { IfErr result (λ s. IsOfBatch s × (s ≢ stop.BatchFault)) }
{
    let spans = statements_of(alloc, request.parts, text)?;
    outcomes_of(
        alloc,
        text,
        spans.as_slice(),
        loaded.table.schema(),
        loaded.dicts.as_slice(),
    )
}

/// A batch has these statements and no others, each where `spans_in` says: a law. It does nothing.
pub fn one_batch()
    ensures has { (bytes : List ℕ) → HasStatements bytes (spans_in bytes) }
    ensures only { (bytes : List ℕ) (spans : List Span) → HasStatements bytes spans → spans ≡ spans_in bytes }
{}
