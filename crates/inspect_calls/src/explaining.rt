// What is said of a table and a batch.
ghost use Rattle.std.specs.Prelude.{◌≤◌, All, IfOk, length};
ghost use Rattle.command_words.specs.Limits.{IsWithinLimits};
ghost use Rattle.command_words.specs.Views.{request_view};
ghost use Rattle.run_ends.specs.Running.{CanRun};
ghost use Rattle.inspect_notes.specs.Profiles.{IsOfRecords};
ghost use Rattle.table_core.specs.Value.{places_of};
ghost use Rattle.inspect_calls.specs.Explaining.{IsExplained, IsExplanation, IsExplanationOf, IsTableTold};

use crate::reply::Reply;
use crate::statements::tell_statements;
use command_words::Request;
use coop_outside::Shelf;
use csv_load::Loaded;
use inspect_notes::{profile_of, write_profile, zones_of_table};
use run_inputs::{Inputs, read_inputs};
use sql_tokens::split;
use std::alloc::Global;
use std::hash::RandomState;
use std::thread::Threads;
use table_core::{Bytes, Memory};

/// What is said to `explain`: what the table holds and what becomes of each statement; or why a run would stop.
pub(crate) fn explanation<F: Shelf, R: Threads + Sync>(
    rt: &R,
    alloc: Global,
    keys: RandomState,
    run: &Request<'_>,
    shelf: &mut F,
) -> Reply
    requires limits { IsWithinLimits (request_view run.now) }
    ensures { IsExplanation (request_view run.now) (F.held shelf.old) (F.faults shelf.old) (F.faults shelf.new) result }
{
    match read_inputs(rt, alloc, keys, run, shelf) {
        Ok((inputs, texts)) => explained(alloc, &inputs, texts.batch.as_slice()),
        Err(stop) => Reply::stop(alloc, stop),
    }
}

// What is said of a table and a batch that are accepted.
fn explained(alloc: Global, inputs: &Inputs, batch: &[u8]) -> Reply
    requires can { CanRun inputs.now }
    requires short { length batch.now ≤ 1048576 }
    ensures { IsExplanationOf inputs.now batch.now result }
{
    match text_of(alloc, inputs, batch) {
        Ok((text, refused)) => Reply::answer(u8::from(refused), text.into_vec()),
        Err(Memory) => Reply::memory(alloc),
    }
}

// The text, and whether a statement is refused.
fn text_of(alloc: Global, inputs: &Inputs, batch: &[u8]) -> Result<(Bytes, bool), Memory>
    requires can { CanRun inputs.now }
    requires short { length batch.now ≤ 1048576 }
    ensures { IfOk result (λ p. IsExplained inputs.now batch.now p.0 p.1) }
{
    let loaded = &inputs.loaded;
    let mut text = table_told(alloc, loaded)?;
    let zones = zones_of_table(alloc, loaded, inputs.options.layout, inputs.options.per)?;
    let spans = split(alloc, batch)?;
    let schema = loaded.table.schema();
    let refused = tell_statements(
        alloc,
        &mut text,
        batch,
        1,
        &spans,
        schema,
        &loaded.dicts,
        &zones,
    )?;
    Ok((text, refused))
}

// The lines of a table.
fn table_told(alloc: Global, loaded: &Loaded) -> Result<Bytes, Memory>
    requires loaded { IsOfRecords loaded.now }
    requires places { All (λ c. places_of c.kind ≤ 9) loaded.now.table.columns }
    ensures { IfOk result (IsTableTold loaded.now) }
{
    let profiles = profile_of(alloc, loaded)?;
    write_profile(alloc, loaded, &profiles)
}
