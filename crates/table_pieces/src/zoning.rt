// The zones of the chunks of a table.
ghost use Rattle.std.specs.Prelude.{◌≡◌, ◌<◌, All, Bool, IfOk, IfSome, List, Option, Some, length};
ghost use Rattle.filter_zones.specs.Possible.{FitsZones, needed};
ghost use Rattle.filter_zones.specs.Truth.{FitsRow};
ghost use Rattle.filter_zones.specs.Zone.{CoversRow};
ghost use Rattle.filter_zones.specs.declared.cond.Cond.{Cond};
ghost use Rattle.piece_format.specs.Cells.{IsTableOf};
ghost use Rattle.piece_format.specs.Shape.{IsShape, chunks};
ghost use Rattle.table_core.specs.Chunk.{chunk as chunk_of};
ghost use Rattle.table_core.specs.declared.cell.Cell.{Cell};
ghost use Rattle.table_pieces.specs.Zoning.{CoverChunks, HaveAllThatPass, NoMatchOutside};
ghost use Rattle.table_pieces.specs.Zoning.{PassesOnly, chunk_zones, zones_in};

use crate::shaping::chunks_of;
use filter_zones::{ChunkZones, zones_of};
use piece_format::Shape;
use std::alloc::Global;
use table_core::{Memory, Table, chunk_span};

// The zones of one chunk.
fn zones_of_chunk(shape: &Shape, table: &Table, chunk: u32) -> ChunkZones
    requires shape { IsShape shape.now }
    requires table { IsTableOf shape.now table.now }
    requires there { chunk < chunks shape.now }
    ensures zones { result ≡ zones_in shape.now table.now.rows chunk }
    ensures covers { All (CoversRow result.zones) (chunk_of table.now.rows shape.now.per chunk) }
    ensures fits { (c : Cond) → All (FitsRow c) (chunk_of table.now.rows shape.now.per chunk)
        → FitsZones c result.zones }
{
    let (from, to) = chunk_span(shape.rows, shape.per, chunk);
    zones_of(table, from as usize, to as usize)
}

/// The zones of each chunk of a table, from the first chunk to the last.
///
/// The table has the kinds and rows of the shape. The zones are what `filter_zones::needed` wants to know of the
/// chunks:
/// a condition that fits each row fits the zones of each chunk, and no row of a chunk that isn't needed makes it true.
/// So the matching rows of the needed chunks, one chunk after another, are those of the table in their order.
pub fn zones_of_chunks(
    alloc: Global,
    shape: &Shape,
    table: &Table,
) -> Result<Vec<ChunkZones>, Memory>
    requires shape { IsShape shape.now }
    requires table { IsTableOf shape.now table.now }
    ensures zones { IfOk result (λ zones. zones.items ≡ chunk_zones shape.now table.now.rows) }
    ensures count { IfOk result (λ zones. length zones.items ≡ chunks shape.now) }
    ensures covers { IfOk result (λ zones. CoverChunks shape.now table.now.rows zones.items) }
    ensures fits { IfOk result (λ zones. (c : Cond) → All (FitsRow c) table.now.rows
        → All (λ chunk. FitsZones c chunk.zones) zones.items) }
    ensures outside { IfOk result (λ zones. (c : Cond) → All (FitsRow c) table.now.rows
        → NoMatchOutside shape.now table.now.rows c (needed (Some c) zones.items)) }
    ensures passing { IfOk result (λ zones. (cond : Option Cond) (passes : List Cell → Bool)
        → IfSome cond (λ c. All (FitsRow c) table.now.rows) → PassesOnly passes cond
        → HaveAllThatPass shape.now table.now.rows passes (needed cond zones.items)) }
{
    let mut zones = Vec::new(alloc);
    for chunk in 0..chunks_of(shape) {
        zones.push(zones_of_chunk(shape, table, chunk))?;
    }
    Ok(zones)
}
