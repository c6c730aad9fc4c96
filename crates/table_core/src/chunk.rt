// Where the chunks of a table begin and end.
ghost use Rattle.std.specs.Prelude.{◌≡◌, ◌<◌, ◌≤◌, ◌*◌};
ghost use Rattle.table_core.specs.Chunk.{chunk_count, chunk_end};

/// How many chunks `rows` rows make, with `per` rows in each chunk but the last. No rows make none.
pub fn chunk_count(rows: u32, per: u32) -> u32
    requires { 1 ≤ per }
    ensures { result ≡ chunk_count rows per }
{
    rows.div_ceil(per)
}

/// The rows of chunk `c`: from the first place up to, not including, the second.
pub fn chunk_span(rows: u32, per: u32, c: u32) -> (u32, u32)
    requires whole { 1 ≤ per }
    requires there { c < chunk_count rows per }
    ensures from { result.0 ≡ c * per }
    ensures to { result.1 ≡ chunk_end rows per c }
    ensures some { result.0 < result.1 }
    ensures within { result.1 ≤ rows }
{
    let from = c * per;
    if rows - from < per {
        return (from, rows);
    }
    (from, from + per)
}
