// The truth of a condition on each row of a block.
ghost use Rattle.std.specs.Prelude.{◌<◌, ℕ};
ghost use Rattle.filter_zones.specs.declared.truth.Truth.{Truth};
ghost use Rattle.filter_zones.specs.Truth.{greatest, least, opposite};
ghost use Rattle.filter_zones.specs.Truths as spec;

use crate::words::{both, complement, either, without};

/// The truths of a condition on up to 64 rows: row `i` has the bit `i` of both words. On a row that has neither bit the
/// condition is false, and no row has both.
#[derive(Clone, Copy, PartialEq, Eq)]
pub struct Truths {
    /// The rows on which the condition is true.
    pub yes: u64,
    /// The rows on which it is unknown.
    pub unknown: u64,
}

impl Truths {
    // The least of both truths of each row: AND.
    pub(crate) fn and(self, other: Truths) -> Truths
        ensures { (i : ℕ) → i < 64 → (x y : Truth) → spec.HasTruth self i x → spec.HasTruth other i y
            → spec.HasTruth result i (least x y) }
    {
        let yes = both(self.yes, other.yes);
        let not_false = both(
            either(self.yes, self.unknown),
            either(other.yes, other.unknown),
        );
        Truths {
            yes,
            unknown: without(not_false, yes),
        }
    }

    // The greatest of both truths of each row: OR.
    pub(crate) fn or(self, other: Truths) -> Truths
        ensures { (i : ℕ) → i < 64 → (x y : Truth) → spec.HasTruth self i x → spec.HasTruth other i y
            → spec.HasTruth result i (greatest x y) }
    {
        let yes = either(self.yes, other.yes);
        Truths {
            yes,
            unknown: without(either(self.unknown, other.unknown), yes),
        }
    }

    // The opposite of each truth: NOT.
    pub(crate) fn opposites(self) -> Truths
        ensures { (i : ℕ) → i < 64 → (x : Truth) → spec.HasTruth self i x → spec.HasTruth result i (opposite x) }
    {
        Truths {
            yes: complement(either(self.yes, self.unknown)),
            unknown: self.unknown,
        }
    }
}
