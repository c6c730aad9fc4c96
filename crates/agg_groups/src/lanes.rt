// The running value of an item over the chosen rows of a block, column by column.
ghost use Rattle.std.specs.Prelude.{◌≡◌, ◌<◌, ◌≤◌, ◌+◌, ◌*◌, ◌^◌, ◌==◌, ℕ, All, length};
ghost use Rattle.std.specs.Prelude.{false, if◌then◌else◌, count_ones, neg_ℤ, pos, ◌+ℤ◌, ◌≤ℤ◌};
ghost use Rattle.std.specs.Int.{bit_at};
ghost use Rattle.row_blocks.specs.Blocks.{row_at};
ghost use Rattle.row_blocks.specs.Chosen.{chosen};
ghost use Rattle.row_blocks.specs.Lanes.{held, is_null_at, lane_cell};
ghost use Rattle.query_meaning.specs.Cells as cells;
ghost use Rattle.query_meaning.specs.Cells.{codes};
ghost use Rattle.query_meaning.specs.Meaning as meaning;
ghost use Rattle.agg_groups.specs.Running as spec;
ghost use Rattle.query_meaning.specs.Places.{IsInRow};
ghost use Rattle.agg_groups.specs.Blocks.{AreInBlock, HaveValues, cells_in, chosen_in};

use crate::running::{Running, greater, join, lesser};
use query_meaning::Item;
use row_blocks::{Block, Holds, Lane, is_chosen};
use table_core::{Cell, MOST_ROWS};

/// The cell of a column in a row of a block.
pub(crate) fn cell_in(block: &Block, row: u32, column: u32) -> Cell
    requires row { row < 64 }
    requires column { column < block.now.width }
    ensures { result ≡ meaning.cell codes (row_at block.now row) column }
{
    block.lane(column).cell(row)
}

/// The bits of a block's rows, without those past them.
pub(crate) fn in_block(block: &Block, word: u64) -> u64
    ensures below { AreInBlock block.now.count result }
    ensures same { chosen_in block.now result ≡ chosen_in block.now word }
{
    word & block.every()
}

// The chosen rows whose cell isn't NULL.
fn values_of(lane: &Lane, word: u64) -> u64
    ensures bits { (i : ℕ) → bit_at result i ≡ (if is_null_at lane.now i then 0 else bit_at word i) }
    ensures values { HaveValues lane.now result }
{
    word & !lane.nulls
}

// How many rows are chosen.
pub(crate) fn count_of(word: u64) -> u32
    ensures count { result ≡ count_ones word }
    ensures few { result ≤ 64 }
{
    word.count_ones()
}

// The number that a word holds; a code counts as 0.
fn number_of(holds: Holds, word: u64) -> i64
    ensures { result ≡ cells.int_of (held holds word) }
{
    match holds {
        Holds::Numbers => word.cast_signed(),
        Holds::Codes => 0,
    }
}

// A sum of at most 64 numbers, and one more.
fn plus(total: i128, number: i64) -> i128
    requires low { neg_ℤ (pos (64 * 2 ^ 63)) ≤ℤ total }
    requires high { total ≤ℤ pos (64 * 2 ^ 63) }
    ensures value { result ≡ total +ℤ number }
    ensures low { total ≤ℤ (result +ℤ pos (2 ^ 63)) }
    ensures high { result ≤ℤ (total +ℤ pos (2 ^ 63)) }
{
    total + i128::from(number)
}

// The sum with a row's number, if the row is chosen.
#[tactic(auto, using(crate::proofs::Columns::one_longer, crate::proofs::Columns::as_long, crate::proofs::Columns::few_cells))]
fn total_with(total: i128, lane: &Lane, word: u64, row: u32) -> i128
    requires row { row < 64 }
    requires values { HaveValues lane.now word }
    requires low { neg_ℤ (pos (length (chosen word (cells_in lane.now row)) * 2 ^ 63)) ≤ℤ total }
    requires high { total ≤ℤ pos (length (chosen word (cells_in lane.now row)) * 2 ^ 63) }
    ensures value { result
        ≡ (if bit_at word row == 1 then total +ℤ cells.int_of (lane_cell lane.now row) else total) }
    ensures low { neg_ℤ (pos (length (chosen word (cells_in lane.now (row + 1))) * 2 ^ 63)) ≤ℤ result }
    ensures high { result ≤ℤ pos (length (chosen word (cells_in lane.now (row + 1))) * 2 ^ 63) }
{
    if !is_chosen(word, row) {
        return total;
    }
    plus(total, number_of(lane.holds, lane.words[row as usize]))
}

// The sum of the numbers of chosen rows.
fn total_of(lane: &Lane, word: u64, count: u32) -> i128
    requires few { count ≤ 64 }
    requires values { HaveValues lane.now word }
    ensures value { result ≡ meaning.total codes (chosen word (cells_in lane.now count)) }
    ensures low { neg_ℤ (pos (length (chosen word (cells_in lane.now count)) * 2 ^ 63)) ≤ℤ result }
    ensures high { result ≤ℤ pos (length (chosen word (cells_in lane.now count)) * 2 ^ 63) }
{
    let mut total = 0;
    for i in 0..count {
        total = total_with(total, lane, word, i);
    }
    total
}

// The lesser of a cell and a row's, if the row is chosen.
fn least_with(least: Cell, lane: &Lane, word: u64, row: u32) -> Cell
    requires { row < 64 }
    ensures { result ≡ (if bit_at word row == 1 then meaning.lesser codes least (lane_cell lane.now row) else least) }
{
    if !is_chosen(word, row) {
        return least;
    }
    lesser(least, lane.cell(row))
}

// The least cell of chosen rows.
fn least_of(lane: &Lane, word: u64, count: u32) -> Cell
    requires { count ≤ 64 }
    ensures { result ≡ meaning.least codes (chosen word (cells_in lane.now count)) }
{
    let mut least = Cell::Null;
    for i in 0..count {
        least = least_with(least, lane, word, i);
    }
    least
}

// The greater of a cell and a row's, if the row is chosen.
fn greatest_with(greatest: Cell, lane: &Lane, word: u64, row: u32) -> Cell
    requires { row < 64 }
    ensures { result
        ≡ (if bit_at word row == 1 then meaning.greater codes greatest (lane_cell lane.now row) else greatest) }
{
    if !is_chosen(word, row) {
        return greatest;
    }
    greater(greatest, lane.cell(row))
}

// The greatest cell of chosen rows.
fn greatest_of(lane: &Lane, word: u64, count: u32) -> Cell
    requires { count ≤ 64 }
    ensures { result ≡ meaning.greatest codes (chosen word (cells_in lane.now count)) }
{
    let mut greatest = Cell::Null;
    for i in 0..count {
        greatest = greatest_with(greatest, lane, word, i);
    }
    greatest
}

/// The value of an item over the chosen rows of a block.
pub(crate) fn of_chosen(item: Item, block: &Block, word: u64) -> Running
    requires in_row { IsInRow item block.now.width }
    requires below { AreInBlock block.now.count word }
    ensures value { result ≡ spec.running_of (chosen_in block.now word) item }
    ensures room { spec.HasRoom (count_ones word) result }
{
    match item {
        Item::CountAll => Running::Count(u64::from(count_of(word))),
        Item::Count(x) => Running::Count(u64::from(count_of(values_of(block.lane(x), word)))),
        Item::Sum(x) => {
            let lane = block.lane(x);
            let values = values_of(lane, word);
            let total = total_of(lane, values, block.len());
            Running::Sum(u64::from(count_of(values)), total)
        }
        Item::Min(x) => {
            let lane = block.lane(x);
            Running::Best(least_of(lane, values_of(lane, word), block.len()))
        }
        Item::Max(x) => {
            let lane = block.lane(x);
            Running::Best(greatest_of(lane, values_of(lane, word), block.len()))
        }
        Item::Key(_) => Running::Nothing,
    }
}

// The value of an item with the chosen rows of a block.
fn with_chosen(item: Item, old: Running, block: &Block, word: u64, rows: u32) -> Running
    requires few { rows + block.now.count ≤ MOST_ROWS }
    requires in_row { IsInRow item block.now.width }
    requires below { AreInBlock block.now.count word }
    requires room { spec.HasRoom rows old }
    ensures value { result ≡ spec.join old (spec.running_of (chosen_in block.now word) item) item }
    ensures room { spec.HasRoom (rows + count_ones word) result }
{
    let more = of_chosen(item, block, word);
    join(item, old, more, rows, count_of(word))
}

/// Adds to the value of each item its value over the chosen rows of a block, in place.
pub(crate) fn add_chosen(
    items: &[Item],
    values: &mut [Running],
    block: &Block,
    word: u64,
    rows: u32,
)
    requires few { rows + block.now.count ≤ MOST_ROWS }
    requires in_row { All (λ i. IsInRow i block.now.width) items.now }
    requires below { AreInBlock block.now.count word }
    requires same { length values.old ≡ length items.now }
    requires room { All (spec.HasRoom rows) values.old }
    ensures value { values.new ≡ spec.joins items.now values.old
        (spec.runnings items.now (chosen_in block.now word)) }
    ensures room { All (spec.HasRoom (rows + count_ones word)) values.new }
    ensures len { length values.new ≡ length values.old }
{
    for i in 0..items.len() {
        values[i] = with_chosen(items[i], values[i], block, word, rows);
    }
}
