// How the least and the greatest cell of a column stand to a value, in each of some chunks: a bit for each chunk.
ghost use Rattle.std.specs.Prelude.{◌≡◌, ◌<◌, ◌≤◌, ◌+◌, ◌&&◌, ◌||◌, ℕ, All, length, not};
ghost use Rattle.filter_zones.specs.Masks.{is_set, truths_at};
ghost use Rattle.filter_zones.specs.Possible.{chunk_at};
ghost use Rattle.filter_zones.specs.Ends as spec;

use crate::cond::{Bound, is_above, is_below};
use crate::masks::Masks;
use crate::words::{either, pushed, without};
use crate::zone::{ChunkZones, Zone, zone_at};
use table_core::Op;

// The ends of one zone. Without values it has no end, and none stands on any side.
#[derive(Clone, Copy)]
struct Ends {
    has_null: bool,
    there: bool,
    low_below: bool,
    low_above: bool,
    high_below: bool,
    high_above: bool,
}

// The ends in 64 chunks: chunk `k` has the bit `k` of each word.
#[derive(Clone, Copy)]
pub(crate) struct EndMasks {
    has_null: u64,
    there: u64,
    low_below: u64,
    low_above: u64,
    high_below: u64,
    high_above: u64,
}

fn ends_of(value: Bound, zone: &Zone) -> Ends
    ensures { result ≡ spec.ends_of value zone.now.has_null zone.now.range }
{
    match zone.range {
        None => Ends {
            has_null: zone.has_null,
            there: false,
            low_below: false,
            low_above: false,
            high_below: false,
            high_above: false,
        },
        Some((low, high)) => Ends {
            has_null: zone.has_null,
            there: true,
            low_below: is_below(low, value),
            low_above: is_above(low, value),
            high_below: is_below(high, value),
            high_above: is_above(high, value),
        },
    }
}

impl EndMasks {
    const NONE: EndMasks = EndMasks {
        has_null: 0,
        there: 0,
        low_below: 0,
        low_above: 0,
        high_below: 0,
        high_above: 0,
    };

    // Each chunk is moved up by one, and one is put in as the first.
    fn with_first(self, ends: Ends) -> EndMasks
        ensures first { spec.ends_at result 0 ≡ ends }
        ensures others { (j : ℕ) → j < 63 → spec.ends_at result (j + 1) ≡ spec.ends_at self j }
    {
        EndMasks {
            has_null: pushed(self.has_null, ends.has_null),
            there: pushed(self.there, ends.there),
            low_below: pushed(self.low_below, ends.low_below),
            low_above: pushed(self.low_above, ends.low_above),
            high_below: pushed(self.high_below, ends.high_below),
            high_above: pushed(self.high_above, ends.high_above),
        }
    }

    // The ends of a column in each of at most 64 chunks.
    pub(crate) fn of_chunks(column: u32, value: Bound, chunks: &[ChunkZones]) -> EndMasks
        requires few { length chunks.now ≤ 64 }
        requires there { All (λ chunk. column < length chunk.zones) chunks.now }
        ensures { (k : ℕ) → k < length chunks.now → spec.ends_at result k
            ≡ spec.column_ends column value (chunk_at chunks.now k) }
    {
        let mut masks = EndMasks::NONE;
        let mut k = chunks.len();
        while k > 0 {
            k -= 1;
            masks = masks.with_first(ends_of(value, zone_at(&chunks[k].zones, column)));
        }
        masks
    }

    // The truths of a comparison with the value.
    pub(crate) fn truths(self, op: Op) -> Masks
        ensures { (k : ℕ) → k < 64 → truths_at result k ≡ spec.truths_of op (spec.ends_at self k) }
    {
        let below = without(self.there, self.high_below);
        let above = without(self.there, self.low_above);
        let (can_false, can_true) = match op {
            Op::Eq => (self.differ(), without(above, self.high_below)),
            Op::Ne => (without(above, self.high_below), self.differ()),
            Op::Lt => (below, self.low_below),
            Op::Le => (self.high_above, above),
            Op::Gt => (above, self.high_above),
            Op::Ge => (self.low_below, below),
        };
        Masks {
            can_false,
            can_unknown: self.has_null,
            can_true,
        }
    }

    // Where an end lies on one side of the value.
    fn differ(self) -> u64
        ensures { (k : ℕ) → is_set result k ≡ spec.differ (spec.ends_at self k) }
    {
        either(
            either(either(self.low_below, self.low_above), self.high_below),
            self.high_above,
        )
    }
}
