// The rows of a table, chunk by chunk.
ghost use Rattle.std.specs.Prelude.{◌≡◌, ◌<◌, ◌≤◌, ◌+◌, ◌-◌, ◌*◌, ℕ, List, [], length, slice_index_or};
ghost use Rattle.std.specs.List.{flat_map, range_with_len};
ghost use Rattle.table_core.specs.Chunk.{chunk, chunk_count, chunk_end};
ghost use Rattle.table_core.specs.declared.cell.Cell.{Cell};

/// The chunks of a table, one after another, are its rows: a law, for proofs. It does nothing.
///
/// Chunk `c` begins with row `c * per`, and has the rows up to its end.
pub fn rows_by_chunk()
    ensures joined { (rows : List (List Cell)) (per : ℕ) → 1 ≤ per
        → flat_map (chunk rows per) (range_with_len 0 (chunk_count (length rows) per)) ≡ rows }
    ensures len { (rows : List (List Cell)) (per c : ℕ) → length (chunk rows per c)
        ≡ chunk_end (length rows) per c - c * per }
    ensures row { (rows : List (List Cell)) (per c i : ℕ) → i < length (chunk rows per c)
        → slice_index_or (chunk rows per c) i [] ≡ slice_index_or rows (c * per + i) [] }
{}
