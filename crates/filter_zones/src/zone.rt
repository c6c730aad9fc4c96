// Zones of columns, and of chunks.
ghost use Rattle.std.specs.Prelude.{◌≡◌, ◌<◌, ◌≤◌, ◌-◌, ℕ, All, length, take, drop};
ghost use Rattle.table_core.specs.Columns.{column_cells};
ghost use Rattle.filter_zones.specs.declared.cond.Cond.{Cond};
ghost use Rattle.filter_zones.specs.Truth.{FitsRow};
ghost use Rattle.filter_zones.specs.Possible.{FitsZones};
ghost use Rattle.filter_zones.specs.Zone as spec;
ghost use Rattle.filter_zones.specs.Zone.{part};

use crate::found::{zone_of_codes, zone_of_numbers};
use table_core::{Cell, Cells, MOST_COLUMNS, Table};

/// What stands in a column of a chunk.
#[derive(Clone, Copy, PartialEq, Eq)]
pub struct Zone {
    /// Whether a NULL stands there.
    pub has_null: bool,
    /// The least and the greatest of the other cells, if there are any.
    pub range: Option<(Cell, Cell)>,
}

/// The zone of each column of a chunk; those past its last column say that nothing stands there.
#[derive(Clone, Copy, PartialEq, Eq)]
pub struct ChunkZones {
    pub zones: [Zone; 16],
}

// The zone of a column.
pub(crate) fn zone_at(zones: &[Zone; 16], column: u32) -> &Zone
    requires { column < length zones.now }
    ensures { result.now ≡ spec.zone_at zones.now column }
{
    &zones[column as usize]
}

// The zone of a column without cells.
const NOTHING: Zone = Zone {
    has_null: false,
    range: None,
};

// The zone of a column's cells from one row up to, not including, another.
fn zone_between(column: &Cells, from: usize, to: usize) -> Zone
    requires rises { from ≤ to }
    requires there { to ≤ length (column_cells column.now) }
    ensures { result ≡ spec.zone_of (take (to - from) (drop from (column_cells column.now))) }
{
    match column {
        Cells::Numbers(numbers) => zone_of_numbers(numbers, from, to),
        Cells::Codes(codes) => zone_of_codes(codes, from, to),
    }
}

/// The zone of each column of a chunk: of the rows of a table from one place up to, not including, another.
///
/// There are 1 to `MOST_COLUMNS` columns; without rows nothing stands in any column. The zones have room for each row.
/// Where there is a row, a condition that fits each of the rows fits the zones; without rows no clause says which
/// conditions fit.
pub fn zones_of(table: &Table, from: usize, to: usize) -> ChunkZones
    requires some { 1 ≤ length table.now.columns }
    requires few { length table.now.columns ≤ MOST_COLUMNS }
    requires rises { from ≤ to }
    requires there { to ≤ length table.now.rows }
    ensures zones { result.zones ≡ spec.zones_of (length table.now.columns) (part from to table.now.rows) }
    ensures of_columns { let rows = part from to table.now.rows in
        (x : ℕ) → x < length table.now.columns → spec.IsZone (spec.column_of x rows) (spec.zone_at result.zones x) }
    ensures covers { All (spec.CoversRow result.zones) (part from to table.now.rows) }
    ensures fits { let rows = part from to table.now.rows in
        (c : Cond) → 0 < length rows → All (FitsRow c) rows → FitsZones c result.zones }
{
    table.rows_are_whole();
    let mut zones = [NOTHING; 16];
    for column in 0..table.schema().len() {
        zones[column] = zone_between(table.column(column), from, to);
    }
    ChunkZones { zones }
}
