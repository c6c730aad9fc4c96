// What the zones of a chunk say of all its rows.
ghost use Rattle.std.specs.Prelude.{◌≡◌};
ghost use Rattle.std.specs.Bool.{OnTrue};
ghost use Rattle.filter_zones.specs.Possible.{FitsZones, possible};
ghost use Rattle.filter_zones.specs.Certain as spec;

use crate::cond::Cond;
use crate::possible::may_be;
use crate::zone::ChunkZones;

/// Whether the zones of a chunk say that a condition is true of each of its rows, as `may_be` wants them. Where they
/// don't, it may still be.
pub fn is_true_of_all(cond: &Cond, zones: &ChunkZones) -> bool
    requires { FitsZones cond.now zones.now.zones }
    ensures zones { result ≡ spec.is_only_true (possible cond.now zones.now.zones) }
    ensures each_row { OnTrue result (spec.IsTrueOfEachRow cond.now zones.now.zones) }
{
    let truths = may_be(cond, zones);
    if truths.can_false {
        return false;
    }
    !truths.can_unknown
}
