// The truths of a condition over a block.
ghost use Rattle.std.specs.Prelude.{◌≡◌, ◌<◌, ◌≤◌, ℕ};
ghost use Rattle.std.specs.Int.{bit_at};
ghost use Rattle.row_blocks.specs.Blocks.{row_at};
ghost use Rattle.filter_zones.specs.Masks.{is_set};
ghost use Rattle.filter_zones.specs.Truth.{FitsRow, truth_of};
ghost use Rattle.filter_zones.specs.Truths as spec;

use crate::cond::Cond;
use crate::lane_truths::{comparison, null_tests};
use crate::truths::Truths;
use row_blocks::Block;

// The truth on each of 64 rows, those past the block's last among them, where the first is one that it fits.
fn truths_in(cond: &Cond, block: &Block) -> Truths
    requires { FitsRow cond.now (row_at block.now 0) }
    ensures { (i : ℕ) → i < 64 → spec.HasTruth result i (truth_of cond.now (row_at block.now i)) }
{
    match cond {
        Cond::Compare { column, op, value } => comparison(block.lane(*column), *op, *value),
        Cond::IsNull { column, negated } => null_tests(block.lane(*column), *negated),
        Cond::And(a, b) => truths_in(a, block).and(truths_in(b, block)),
        Cond::Or(a, b) => truths_in(a, block).or(truths_in(b, block)),
        Cond::Not(a) => truths_in(a, block).opposites(),
    }
}

/// The truths of a condition on each row of a block: of row `i` what `truth_of` says.
///
/// The condition fits each row, as `truth_of` wants it. It visits each part of the condition once for all rows, and
/// takes no memory.
pub fn truths_of(cond: &Cond, block: &Block) -> Truths
    requires { spec.FitsBlock cond.now block.now }
    ensures yes { (i : ℕ) → i < block.now.count → is_set result.yes i
        ≡ spec.is_true (truth_of cond.now (row_at block.now i)) }
    ensures unknown { (i : ℕ) → i < block.now.count → is_set result.unknown i
        ≡ spec.is_unknown (truth_of cond.now (row_at block.now i)) }
    ensures clear { (i : ℕ) → block.now.count ≤ i → (bit_at result.yes i ≡ 0) × (bit_at result.unknown i ≡ 0) }
{
    if block.len() == 0 {
        return Truths { yes: 0, unknown: 0 };
    }
    let truths = truths_in(cond, block);
    let rows = block.every();
    Truths {
        yes: truths.yes & rows,
        unknown: truths.unknown & rows,
    }
}
