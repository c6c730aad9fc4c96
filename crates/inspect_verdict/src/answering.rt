// The answer to a query, computed plainly.
ghost use Rattle.std.specs.Prelude.{◌≡◌, ◌<◌, ◌≤◌, [], All, IfOk, false, length, slice_index_or};
ghost use Rattle.sql_bind.specs.Meaning.{numbered};
ghost use Rattle.query_gather.specs.Answer.{IsAnswer, IsAnswerOver, is_stopped};
ghost use Rattle.query_gather.specs.Partial.{FitsCond, FitsWidth, matching};
ghost use Rattle.table_sets.specs.declared.limits.TheConstants.{MOST_ROWS};

use query_gather::{Answer, Partial, answer_of_table};
use sql_bind::Plan;
use std::alloc::Global;
use table_core::{Cell, Memory, Table};

// Reads a row, counted from 0, into cells of which there is one for each column.
fn read_row(table: &Table, row: usize, cells: &mut Vec<Cell>)
    requires there { row < length table.now.rows }
    requires width { length cells.old.items ≡ length table.now.columns }
    ensures row { cells.new.items ≡ slice_index_or table.now.rows row [] }
    ensures width { length cells.new.items ≡ length table.now.columns }
{
    table.rows_are_whole();
    table.row(row, cells.as_mut_slice());
}

/// The answer to a plan over a table, row after row: it reads no chunk and asks no zone.
///
/// The plan's condition and columns are over the table's rows, of which there are at most `MOST_ROWS`.
pub fn plain_answer(alloc: Global, plan: &Plan, table: &Table) -> Result<Answer, Memory>
    requires cond { All (FitsCond plan.now.cond) table.now.rows }
    requires width { All (λ row. FitsWidth plan.now (length row)) table.now.rows }
    requires few { length table.now.rows ≤ MOST_ROWS }
    ensures answer { IfOk result (λ a. IsAnswer plan.now table.now.rows a) }
    ensures over { IfOk result (λ a. IsAnswerOver plan.now (matching plan.now (numbered 0 table.now.rows)) a) }
    ensures runs { IfOk result (λ a. is_stopped a ≡ false) }
{
    // The answer over the matching rows is the one over the table.
    answer_of_table();
    let mut partial = Partial::of(alloc, plan)?;
    let mut cells = vec![in alloc; Cell::Null; table.schema().len()]?;
    for row in 0..table.len() {
        read_row(table, row, &mut cells);
        partial.add_row(plan, row as u32, cells.as_slice())?;
    }
    let answer = partial.finish();
    if answer.is_stopped() {
        return Err(Memory);
    }
    Ok(answer)
}
