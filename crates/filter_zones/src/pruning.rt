// The chunks that a query needs.
ghost use Rattle.std.specs.Prelude.{◌≡◌, ◌<◌, ◌≤◌, ◌+◌, ℕ, All, IfSome, length, false, option_copied};
ghost use Rattle.table_sets.specs.Sets.{has};
ghost use Rattle.filter_zones.specs.Masks.{is_set};
ghost use Rattle.filter_zones.specs.Possible as spec;

use crate::cond::Cond;
use crate::possible::truths_in_each;
use crate::zone::ChunkZones;
use table_core::{ChunkSet, MOST_CHUNKS};

// So many chunks are looked at together: one bit of a word for each.
const TOGETHER: usize = 64;

// Of at most 64 chunks, the bits of those that are needed.
fn needed_bits(cond: Option<&Cond>, chunks: &[ChunkZones]) -> u64
    requires few { length chunks.now ≤ 64 }
    requires fits { IfSome (option_copied cond) (λ c. All (λ chunk. spec.FitsZones c chunk.zones) chunks.now) }
    ensures { (k : ℕ) → k < length chunks.now → is_set result k
        ≡ spec.is_needed (option_copied cond.entry) (spec.chunk_at chunks.now k) }
{
    match cond {
        None => u64::MAX,
        Some(cond) => truths_in_each(cond, chunks).can_true,
    }
}

// Puts `from + k` into the set for each bit `k` that is set, of so many; the set has no number from `from` on.
fn insert_bits(found: &mut ChunkSet, from: u32, count: u32, bits: u64)
    requires few { count ≤ 64 }
    requires below { from + count ≤ MOST_CHUNKS }
    requires none { (c : ℕ) → from ≤ c → has found.old c ≡ false }
    ensures kept { (c : ℕ) → c < from → has found.new c ≡ has found.old c }
    ensures put { (k : ℕ) → k < count → has found.new (from + k) ≡ is_set bits k }
    ensures none { (c : ℕ) → from + count ≤ c → has found.new c ≡ false }
{
    for k in 0..count {
        if bits >> k & 1 == 1 {
            found.insert(from + k);
        }
    }
}

/// The chunks that a query with this condition needs: those in which True is possible, or all without a condition.
///
/// There is one entry of `zones` for each chunk, at most `MOST_CHUNKS`, and the condition fits each of them as `may_be`
/// says. No row of another chunk makes the condition true.
pub fn needed(cond: Option<&Cond>, zones: &[ChunkZones]) -> ChunkSet
    requires few { length zones.now ≤ MOST_CHUNKS }
    requires fits { IfSome (option_copied cond) (λ c. All (λ chunk. spec.FitsZones c chunk.zones) zones.now) }
    ensures chunks { result ≡ spec.needed (option_copied cond.entry) zones.now }
    ensures outside { IfSome (option_copied cond.entry) (λ c. spec.NoneTrueOutside c zones.now result) }
{
    let mut found = ChunkSet::empty();
    let mut from = 0;
    while from < zones.len() {
        let to = zones.len().min(from + TOGETHER);
        let bits = needed_bits(cond, &zones[from..to]);
        insert_bits(&mut found, from as u32, (to - from) as u32, bits);
        from = to;
    }
    // Its contract says that the members of a set rise, so the set is the list that the definition names.
    let _count = found.len();
    found
}
