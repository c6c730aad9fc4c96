// What the parts that a condition demands have to do with it.
ghost use Rattle.std.specs.Prelude.{Bool, List};
ghost use Rattle.table_core.specs.declared.cell.Cell.{Cell};
ghost use Rattle.filter_zones.specs.declared.cond.Cond.{Cond};
ghost use Rattle.filter_zones.specs.declared.zone.ChunkZones.{ChunkZones};
ghost use Rattle.inspect_notes.specs.Demands.{AllowsItsParts, HasItsParts};

/// A row on which a condition is True, or False, has on each part that the condition demands the truth that is asked of
/// it; and where each chunk may have such a row, each may have one for each of these parts. A law, for what stands in
/// the way. It does nothing.
pub fn demanded_parts()
    ensures rows { (want : Bool) (c : Cond) (row : List Cell) → HasItsParts want c row }
    ensures chunks { (want : Bool) (c : Cond) (zones : List ChunkZones) → AllowsItsParts want c zones }
{}
