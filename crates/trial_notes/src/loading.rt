// Tables of texts.
ghost use Rattle.std.specs.Prelude.{◌≡◌, ◌≤◌, All, IfOk, length};
ghost use Rattle.table_core.specs.Value.{places_of};
ghost use Rattle.inspect_notes.specs.Profiles.{IsOfRecords};

use csv_load::{LoadRefusal, Loaded, MOST_TEXT_BYTES, load};
use std::alloc::Global;
use std::hash::RandomState;
use std::process::Abort;
use std::random::RandomSource;
use std::thread::Threads;

// The table of a text within the limit.
pub(crate) fn loaded(
    rt: &(impl Abort + RandomSource + Threads + Sync),
    alloc: Global,
    text: &[u8],
) -> Result<Loaded, LoadRefusal>
    ensures loaded { IfOk result (λ l. IsOfRecords l) }
    ensures places { IfOk result (λ l. All (λ c. places_of c.kind ≤ 9) l.table.columns) }
    ensures few { IfOk result (λ l. length l.table.columns ≤ 16) }
    ensures rows { IfOk result (λ l. length l.table.rows ≤ 2097152) }
    ensures dicts { IfOk result (λ l. length l.dicts.items ≡ length l.table.columns) }
{
    assert!(rt; text.len() <= MOST_TEXT_BYTES);
    let keys = RandomState::new(rt).expect(rt, "keys");
    let loaded = load(rt, alloc, keys, text, 0)?;
    Ok(loaded)
}
