// The table of a text.
ghost use Rattle.std.specs.Prelude.{◌≡◌, ◌≢◌, ◌≤◌, All, IfErr, IfOk, Some, length, map};
ghost use Rattle.csv_load.specs.Finished.{columns_with};
ghost use Rattle.csv_load.specs.Loaded.{IsLoaded};
ghost use Rattle.csv_load.specs.Judged.{refusal_of};
ghost use Rattle.csv_load.specs.Rows.{table_records};
ghost use Rattle.csv_load.specs.declared.refusal.LoadRefusal.TheVariants as refusal;
ghost use Rattle.table_core.specs.Value.{places_of};

use crate::limits::MOST_TEXT_BYTES;
use crate::loaded::Loaded;
use crate::records::{Read, read_rows};
use crate::refusal::LoadRefusal;
use crate::seeded::Seeded;
use crate::side_by_side::type_side_by_side;
use crate::typed::Typed;
use std::alloc::{AllocError, Global};
use std::hash::RandomState;
use std::thread::Threads;
use table_core::{Bytes, Cells, Column, Dict, MOST_PLACES, Schema, Table};

// A column for each name, with the kind that was found for it.
fn schema_of(alloc: Global, names: Vec<Bytes>, typed: &[Typed]) -> Result<Schema, AllocError>
    requires { length typed.now ≡ length names.items }
    ensures { IfOk result (λ schema. schema ≡ columns_with names.items typed.now) }
{
    let mut columns = Vec::new(alloc);
    let mut place = 0;
    for name in names {
        columns.push(Column {
            name,
            kind: typed[place].kind,
        })?;
        place += 1;
    }
    Ok(Schema::new(columns))
}

// The cells of each column, and its dictionary.
fn parts_of(alloc: Global, typed: Vec<Typed>) -> Result<(Vec<Cells>, Vec<Dict>), AllocError>
    ensures cells { IfOk result (λ parts. parts.0.items ≡ map (λ column. column.cells) typed.items) }
    ensures dicts { IfOk result (λ parts. parts.1.items ≡ map (λ column. column.dict) typed.items) }
{
    let mut columns = Vec::new(alloc);
    let mut dicts = Vec::new(alloc);
    for column in typed {
        let Typed { cells, dict, .. } = column;
        columns.push(cells)?;
        dicts.push(dict)?;
    }
    Ok((columns, dicts))
}

/// The table of a CSV text of at most 268435456 bytes (`MOST_TEXT_BYTES`), or why it is none: the first cause that
/// holds, at the first place where it holds, or out of memory, which may come in place of any other answer.
///
/// The text is read once, and each field goes to its column: as a number while the column's fields spell numbers in one
/// way, and from the first other field on as the place of its text, of which a column with up to 32768 different ones
/// keeps each just once. After a refusal nothing is
/// left of the table. The keys are those of the hash by which texts are looked up, `RandomState::new(&rt)`: no answer
/// depends on them but out of memory, and nobody who doesn't know them can choose texts that have one hash and so slow
/// the call down.
///
/// The kinds and dictionaries of the columns are found by at most `most_threads` threads beside the caller's. What is
/// said here holds of each number of them, and where one can't be started another does its work.
///
/// docs/TABLES.md says which texts are tables and what their cells are.
pub fn load<R: Threads + Sync>(
    rt: &R,
    alloc: Global,
    keys: RandomState,
    bytes: &[u8],
    most_threads: u32,
) -> Result<Loaded, LoadRefusal>
    requires small { length bytes.now ≤ MOST_TEXT_BYTES }
    ensures loaded { IfOk result (λ t. IsLoaded (table_records bytes.now) t.table t.dicts.items) }
    ensures places { IfOk result (λ t. All (λ c. places_of c.kind ≤ MOST_PLACES) t.table.columns) }
    ensures refused { IfErr result (λ e. e ≢ refusal.Memory → refusal_of (table_records bytes.now) ≡ Some e) }
{
    let read = read_rows(alloc, Seeded::with_keys(keys), bytes)?;
    let Read {
        names,
        columns,
        rows,
    } = read;
    let typed = type_side_by_side(rt, alloc, columns, most_threads)?;
    let schema = schema_of(alloc, names, typed.as_slice())?;
    let (columns, dicts) = parts_of(alloc, typed)?;
    Ok(Loaded {
        table: Table::new(schema, columns, rows as usize),
        dicts,
    })
}
