// The zones of a table's chunks.
ghost use Rattle.std.specs.Prelude.{◌≡◌, IfOk};
ghost use Rattle.piece_format.specs.Shape.{IsShape};
ghost use Rattle.table_pieces.specs.Shaping as shaping;
ghost use Rattle.table_pieces.specs.Zoning.{chunk_zones};
ghost use Rattle.inspect_notes.specs.Profiles.{IsOfRecords};
ghost use Rattle.inspect_notes.specs.Zones.{AreZonesOf};

use csv_load::Loaded;
use filter_zones::ChunkZones;
use piece_format::Layout;
use std::alloc::Global;
use table_core::Memory;
use table_pieces::{shape_of, zones_of_chunks};

/// The zones of each chunk of a loaded table, as a run has them with this layout and so many rows in each chunk but the
/// last, 1 to `MOST_CHUNK_ROWS`. The table has at most `MOST_CHUNKS` chunks.
///
/// # Errors
///
/// `Memory` alone.
pub fn zones_of_table(
    alloc: Global,
    loaded: &Loaded,
    layout: Layout,
    per: u32,
) -> Result<Vec<ChunkZones>, Memory>
    requires loaded { IsOfRecords loaded.now }
    requires limits { IsShape (shaping.shape_of loaded.now.table loaded.now.dicts.items layout per) }
    ensures zones { IfOk result (λ zones. zones.items
        ≡ chunk_zones (shaping.shape_of loaded.now.table loaded.now.dicts.items layout per) loaded.now.table.rows) }
    ensures fits { IfOk result (λ zones. AreZonesOf loaded.now.table.columns loaded.now.dicts.items zones.items) }
{
    let shape = shape_of(alloc, &loaded.table, &loaded.dicts, layout, per)?;
    zones_of_chunks(alloc, &shape, &loaded.table)
}
