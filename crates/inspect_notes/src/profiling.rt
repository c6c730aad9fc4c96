// The profiles of the columns of a table.
ghost use Rattle.std.specs.Prelude.{◌≡◌, ◌<◌, ◌≤◌, All, IfOk, length};
ghost use Rattle.filter_zones.specs.Truth.{cell_at};
ghost use Rattle.filter_zones.specs.Zone.{Covers, CoversRow, IsZone, column_of, zone_at};
ghost use Rattle.table_core.specs.Fitting.{dict_at};
ghost use Rattle.table_core.specs.Value.{FitsColumn, IsCellOf};
ghost use Rattle.table_sets.specs.declared.limits.TheConstants.{MOST_ROWS};
ghost use Rattle.inspect_notes.specs.Values.{column_values, there_in};
ghost use Rattle.inspect_notes.specs.Reasons.{IsReason};
ghost use Rattle.inspect_notes.specs.Profiles as spec;
ghost use Rattle.inspect_notes.specs.Written.{AreWritable, IsReadable};

use crate::counting::{first_stranger, nulls_in, strangers_in};
use crate::profile::ColumnProfile;
use crate::reason::Reason;
use csv_load::Loaded;
use filter_zones::{ChunkZones, Zone, zones_of};
use std::alloc::Global;
use table_core::{Dict, Kind, MOST_ROWS, Memory, Table};

// How many texts there are, in a column of texts.
fn texts_in(kind: Kind, dict: &Dict) -> Option<u32>
    ensures { result ≡ spec.texts_in kind dict.now }
{
    match kind {
        Kind::Text => Some(dict.len()),
        Kind::Int | Kind::Dec { .. } => None,
    }
}

// Why a column is one of texts, where some of its values spell numbers.
fn reason_of(table: &Table, kind: Kind, dict: &Dict, column: usize, there: u32) -> Option<Reason>
    requires few { length table.now.rows ≤ MOST_ROWS }
    requires wide { All (λ row. column < length row) table.now.rows }
    requires cells { All (λ row. IsCellOf dict.now (cell_at row column)) table.now.rows }
    requires there { there ≡ there_in (column_values dict.now column table.now.rows) }
    ensures { IsReason kind dict.now (column_values dict.now column table.now.rows) result }
{
    match kind {
        Kind::Text => {}
        Kind::Int | Kind::Dec { .. } => return None,
    }
    if there == 0 {
        return None;
    }
    match first_stranger(table, dict, column) {
        None => return Some(Reason::Mixed),
        Some((row, code)) => {
            let count = strangers_in(table, dict, column);
            if count >= there {
                return None;
            }
            return Some(Reason::Strangers { row, code, count });
        }
    }
}

// The profile of a column, whose zone over all rows is this one.
fn profile_column(
    table: &Table,
    kind: Kind,
    dict: &Dict,
    column: usize,
    zone: Zone,
) -> ColumnProfile
    requires few { length table.now.rows ≤ MOST_ROWS }
    requires wide { All (λ row. column < length row) table.now.rows }
    requires fits { All (λ row. FitsColumn kind dict.now (cell_at row column)) table.now.rows }
    requires zone { IsZone (column_of column table.now.rows) zone }
    requires covers { All (λ row. Covers zone (cell_at row column)) table.now.rows }
    ensures profile { spec.IsProfile kind dict.now (column_values dict.now column table.now.rows) result }
    ensures readable { IsReadable dict.now result }
{
    let nulls = nulls_in(table, dict, column);
    let there = table.len() as u32 - nulls;
    // Its contract says that the texts rise.
    let _count = dict.len();
    ColumnProfile {
        nulls,
        texts: texts_in(kind, dict),
        ends: zone.range,
        reason: reason_of(table, kind, dict, column, there),
    }
}

// The profile of a column of a loaded table, whose zones over all rows are these.
fn profile_at(loaded: &Loaded, zones: &ChunkZones, column: usize) -> ColumnProfile
    requires loaded { spec.IsOfRecords loaded.now }
    requires there { column < length loaded.now.table.columns }
    requires zone { IsZone (column_of column loaded.now.table.rows) (zone_at zones.now.zones column) }
    requires covers { All (CoversRow zones.now.zones) loaded.now.table.rows }
    ensures profile { spec.IsProfileAt loaded.now column result }
    ensures readable { IsReadable (dict_at loaded.now.dicts.items column) result }
{
    let columns = loaded.table.schema().columns();
    let kind = columns[column].kind;
    profile_column(
        &loaded.table,
        kind,
        &loaded.dicts[column],
        column,
        zones.zones[column],
    )
}

/// The profiles of the columns of a loaded table, in their order.
///
/// It reads each cell at most four times.
///
/// # Errors
///
/// `Memory` alone.
pub fn profile_of(alloc: Global, loaded: &Loaded) -> Result<Vec<ColumnProfile>, Memory>
    // The table was loaded from some records.
    requires { spec.IsOfRecords loaded.now }
    ensures profiles { IfOk result (λ profiles. spec.AreProfiles loaded.now profiles.items) }
    ensures writable { IfOk result (λ profiles. AreWritable loaded.now.table.columns loaded.now.dicts.items
        profiles.items) }
{
    let table = &loaded.table;
    let columns = table.schema().len();
    let zones = zones_of(table, 0, table.len());
    let mut profiles = Vec::new(alloc);
    for column in 0..columns {
        profiles.push(profile_at(loaded, &zones, column))?;
    }
    Ok(profiles)
}
