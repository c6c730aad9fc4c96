// Which rows match.
ghost use Rattle.std.specs.Prelude.{◌≡◌, ◌<◌, ◌≤◌, ◌==◌, ℕ};
ghost use Rattle.std.specs.Int.{bit_at};
ghost use Rattle.row_blocks.specs.Blocks.{row_at};
ghost use Rattle.sql_bind.specs.Meaning as meaning;
ghost use Rattle.query_gather.specs.Partial as spec;

use filter_zones::{Cond, Truth, truth_of, truths_of};
use row_blocks::Block;
use table_core::Cell;

/// Whether a row matches: the condition is true of it, or there is none.
pub(crate) fn matches(cond: &Option<Cond>, row: &[Cell]) -> bool
    requires { spec.FitsCond cond.now row.now }
    ensures { result ≡ meaning.matches cond.now row.now }
{
    match cond {
        Some(cond) => truth_of(cond, row) == Truth::True,
        None => true,
    }
}

/// The word in which the bit of each row of a block that matches is set, and no other.
pub(crate) fn chosen_of(cond: &Option<Cond>, block: &Block) -> u64
    requires { spec.FitsCondOver cond.now block.now }
    ensures set { (i : ℕ) → i < block.now.count → (bit_at result i == 1)
        ≡ meaning.matches cond.now (row_at block.now i) }
    ensures clear { (i : ℕ) → block.now.count ≤ i → bit_at result i ≡ 0 }
{
    match cond {
        Some(cond) => truths_of(cond, block).yes,
        None => block.every(),
    }
}
