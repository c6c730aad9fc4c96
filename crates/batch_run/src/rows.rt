// The rows of a chunk that is out, gathered.
ghost use Rattle.std.specs.Prelude.{◌≡◌, ◌≤◌, ◌+◌, ◌++◌, ◌∷◌, ℕ, List, [], false, OnOk, Some};
ghost use Rattle.scan_story.specs.Counting.{has};
ghost use Rattle.piece_format.specs.Shape.{rows_in};
ghost use Rattle.query_gather.specs.Partial.{FitsPlan, row_count};
ghost use Rattle.cscan.specs.Scans.{IsScan};
ghost use Rattle.batch_ends.specs.Gathered.{Gathered};
ghost use Rattle.batch_run.specs.Parts.{ReadsPlan};
ghost use Rattle.batch_ends.specs.Rows.{IsPlanOfShape};

use coop_outside::Depot;
use cscan::{CScan, Gate, Held};
use frame_pool::Content;
use interest_book::Policy;
use piece_format::Shape;
use query_gather::Partial;
use row_blocks::{Block, MOST_BLOCK_ROWS};
use scan_story::Origin;
use sql_bind::Plan;
use table_core::Memory;

/// Adds the rows of the chunk that is out, by their numbers in the table, until memory runs out.
///
/// Rows are read some at a time, into one block for all of them, the columns of the plan alone.
pub(crate) fn add_rows<S: Origin, C: Content, P: Policy, D: Depot, T: Gate>(
    scan: &mut CScan<'_, S, C, P, D, T>,
    held: &Held,
    shape: &Shape,
    plan: &Plan,
    partial: &mut Partial,
) -> Result<(), Memory>
    requires scan { IsScan S.origin C.pieces scan.old }
    requires out { scan.old.out ≡ Some held.now.given }
    requires shape { scan.old.shape.now ≡ shape.now }
    requires plan { IsPlanOfShape shape.now plan.now }
    requires columns { ReadsPlan S.origin.setting scan.old.query plan.now }
    requires fits { FitsPlan plan.now partial.old }
    requires few { row_count partial.old + rows_in shape.now held.now.given.chunk ≤ 2097152 }
    ensures same { scan.new ≡ scan.old }
    // a chunk more, where it isn't among those before it
    ensures gathered { OnOk result ((cs : List ℕ) → has cs held.now.given.chunk ≡ false
        → Gathered shape.now plan.now S.origin.held C.pieces cs partial.old
        → Gathered shape.now plan.now S.origin.held C.pieces (cs ++ held.now.given.chunk ∷ []) partial.new) }
{
    let first = held.chunk() * shape.per;
    let rows = held.rows();
    let mut block = Block::new();
    for turn in 0..rows.div_ceil(MOST_BLOCK_ROWS) {
        let start = turn * MOST_BLOCK_ROWS;
        let count = MOST_BLOCK_ROWS.min(rows - start);
        held.block(scan, start, count, &plan.columns, &mut block);
        partial.add_block(plan, first + start, &block)?;
    }
    Ok(())
}
