// The truths that a condition may have in a chunk.
ghost use Rattle.std.specs.Prelude.{◌≡◌, ◌<◌, ◌≤◌, All, length};
ghost use Rattle.filter_zones.specs.Zone.{zone_at as zone_of_column};
ghost use Rattle.filter_zones.specs.Masks.{AreTruths};
ghost use Rattle.filter_zones.specs.Possible as spec;

use crate::cond::{Bound, Cond};
use crate::ends::EndMasks;
use crate::masks::Masks;
use crate::truth_set::TruthSet;
use crate::zone::{ChunkZones, Zone, zone_at};
use table_core::Op;

fn null_tests(negated: bool, zone: &Zone) -> TruthSet
    ensures { result ≡ spec.null_tests negated zone.now }
{
    let nulls = TruthSet {
        can_false: zone.range.is_some(),
        can_unknown: false,
        can_true: zone.has_null,
    };
    if negated { nulls.opposites() } else { nulls }
}

/// The truths that a condition may have in a chunk with these zones.
///
/// Each column of the condition is below 16, and each value is of the kind of the cells in that column's zone. The
/// truth of each row whose cells lie in the zones is among them.
pub fn may_be(cond: &Cond, zones: &ChunkZones) -> TruthSet
    requires { spec.FitsZones cond.now zones.now.zones }
    ensures truths { result ≡ spec.possible cond.now zones.now.zones }
    ensures each_row { spec.HoldsEachRow cond.now zones.now.zones result }
{
    truths_in_each(cond, &[*zones]).at(0)
}

// The truths that a comparison may have in each of at most 64 chunks.
fn ranged_in_each(column: u32, op: Op, value: Bound, chunks: &[ChunkZones]) -> Masks
    requires few { length chunks.now ≤ 64 }
    requires there { All (λ chunk. column < length chunk.zones) chunks.now }
    ensures { AreTruths (λ chunk. let zone = zone_of_column chunk.zones column in spec.ranged op value zone.has_null
        zone.range) chunks.now result }
{
    EndMasks::of_chunks(column, value, chunks).truths(op)
}

// The truths that IS NULL, or IS NOT NULL, may have in each of at most 64 chunks.
fn null_tests_in_each(column: u32, negated: bool, chunks: &[ChunkZones]) -> Masks
    requires few { length chunks.now ≤ 64 }
    requires there { All (λ chunk. column < length chunk.zones) chunks.now }
    ensures { AreTruths (λ chunk. spec.null_tests negated (zone_of_column chunk.zones column)) chunks.now result }
{
    let mut masks = Masks::NONE;
    for (k, chunk) in chunks.iter().enumerate() {
        masks.add(k as u32, null_tests(negated, zone_at(&chunk.zones, column)));
    }
    masks
}

// The truths that a condition may have in each of at most 64 chunks: each part of the condition is visited once for
// all of them.
pub(crate) fn truths_in_each(cond: &Cond, chunks: &[ChunkZones]) -> Masks
    requires few { length chunks.now ≤ 64 }
    requires fits { All (λ chunk. spec.FitsZones cond.now chunk.zones) chunks.now }
    ensures { AreTruths (λ chunk. spec.possible cond.now chunk.zones) chunks.now result }
{
    match cond {
        Cond::Compare { column, op, value } => ranged_in_each(*column, *op, *value, chunks),
        Cond::IsNull { column, negated } => null_tests_in_each(*column, *negated, chunks),
        Cond::And(a, b) => truths_in_each(a, chunks).and(truths_in_each(b, chunks)),
        Cond::Or(a, b) => truths_in_each(a, chunks).or(truths_in_each(b, chunks)),
        Cond::Not(a) => truths_in_each(a, chunks).opposites(),
    }
}
