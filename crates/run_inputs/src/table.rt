// The table that the words name.
ghost use Rattle.std.specs.Prelude.{◌≡◌, ◌≢◌, ◌≤◌, ◌⊎◌, All, IfErr, IfOk, Some, length};
ghost use Rattle.run_inputs.specs.Ending.{IsOfTable, IsTextRead, SourceFails};
ghost use Rattle.run_inputs.specs.Order.{load_stop, long_table};
ghost use Rattle.run_inputs.specs.Sources.{HasFewRows, source_of_table, table_source};
ghost use Rattle.command_words.specs.Views.{table_view};
ghost use Rattle.csv_load.specs.Loaded.{IsLoaded};
ghost use Rattle.csv_load.specs.Judged.{refusal_of};
ghost use Rattle.csv_load.specs.Rows.{table_records};
ghost use Rattle.run_stops.specs.declared.stop.Stop.TheVariants as stop;
ghost use Rattle.table_core.specs.Value.{places_of};

use crate::generated_table::table_text;
use command_words::Table;
use coop_outside::{Bytes, ReadFault, Shelf, read_all};
use csv_load::{LoadRefusal, Loaded, MOST_TEXT_BYTES, load};
use run_stops::Stop;
use std::alloc::Global;
use std::hash::RandomState;
use std::thread::Threads;
use table_core::MOST_PLACES;

/// What a word names as a table.
pub(crate) fn table_named<'a>(word: &'a str) -> Table<'a>
    ensures source { table_source word.now ≡ source_of_table (table_view result) }
    ensures small { HasFewRows (table_view result) }
{
    match Table::named(word) {
        Some(table) => table,
        None => Table::File(word),
    }
}

/// The text of a table: it is generated, or read from the shelf.
pub(crate) fn table_bytes<F: Shelf>(
    alloc: Global,
    table: Table<'_>,
    shelf: &mut F,
) -> Result<Bytes, Stop>
    requires small { HasFewRows (table_view table) }
    ensures read { IsTextRead (F.held shelf.old) (source_of_table (table_view table.entry)) stop.TableFault long_table
        (F.faults shelf.old) (F.faults shelf.new) result }
    ensures of_table { IfErr result IsOfTable }
    ensures cause { IfErr result (λ s. s ≡ stop.TableFault
        → SourceFails (F.held shelf.old) (source_of_table (table_view table.entry)) (F.faults shelf.old)
        (F.faults shelf.new)) }
    ensures within { IfOk result (λ b. length b ≤ MOST_TEXT_BYTES) }
    ensures held { F.held shelf.new ≡ F.held shelf.old }
    ensures later { F.faults shelf.old ≤ F.faults shelf.new }
{
    match table {
        // It is short enough by a lemma, so nothing tests it here.
        Table::Generated { seed, rows } => match table_text(alloc, seed, rows) {
            Ok(text) => Ok(Bytes::new(text)),
            Err(_) => Err(Stop::Memory),
        },
        Table::File(name) => match read_all(alloc, shelf, name, MOST_TEXT_BYTES as u64) {
            Ok(text) => Ok(text),
            Err(ReadFault::Fault) => Err(Stop::TableFault),
            Err(ReadFault::TooLong { limit: _ }) => Err(Stop::TableTooLong),
            Err(ReadFault::Memory) => Err(Stop::Memory),
        },
    }
}

fn stop_of(refusal: LoadRefusal) -> Stop
    ensures stop { load_stop (Some refusal) ≡ Some result }
    ensures of_table { IsOfTable result × (result ≢ stop.TableFault) }
{
    match refusal {
        LoadRefusal::NoHeader => Stop::NoHeader,
        LoadRefusal::TooManyColumns { columns } => Stop::Columns { columns },
        LoadRefusal::LongName { column } => Stop::LongName { column },
        LoadRefusal::TwiceNamed { first, second } => Stop::TwiceNamed { first, second },
        LoadRefusal::Ragged { row, fields } => Stop::Ragged { row, fields },
        LoadRefusal::TooManyRows => Stop::TooManyRows,
        LoadRefusal::Memory => Stop::Memory,
    }
}

/// The table of a text, whose columns at most so many threads beside the caller's type.
pub(crate) fn load_table<R: Threads + Sync>(
    rt: &R,
    alloc: Global,
    keys: RandomState,
    text: &[u8],
    most_threads: u32,
) -> Result<Loaded, Stop>
    requires small { length text.now ≤ MOST_TEXT_BYTES }
    ensures loaded { IfOk result (λ l. IsLoaded (table_records text.now) l.table l.dicts.items) }
    ensures places { IfOk result (λ l. All (λ c. places_of c.kind ≤ MOST_PLACES) l.table.columns) }
    ensures refused { IfErr result (λ s. (load_stop (refusal_of (table_records text.now)) ≡ Some s)
        ⊎ (s ≡ stop.Memory)) }
    ensures of_table { IfErr result (λ s. IsOfTable s × (s ≢ stop.TableFault)) }
{
    match load(rt, alloc, keys, text, most_threads) {
        Ok(loaded) => Ok(loaded),
        Err(refusal) => Err(stop_of(refusal)),
    }
}
