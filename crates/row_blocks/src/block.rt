// Rows of cells that stand column by column.
ghost use Rattle.std.specs.Prelude.{◌≡◌, ◌<◌, ◌≤◌, ◌==◌, ℕ, length, if◌then◌else◌};
ghost use Rattle.std.specs.Int.{bit_at};
ghost use Rattle.table_core.specs.declared.cell.Cell.TheVariants.{Null};
ghost use Rattle.table_sets.specs.declared.limits.TheConstants.{MOST_COLUMNS};
ghost use Rattle.row_blocks.specs.Lanes.{lane_cell};
ghost use Rattle.row_blocks.specs.Blocks.{lane_at, lane_in, row_at, row_of};

use crate::lane::{Holds, Lane};
use std::marker::Model;
use table_core::{Cell, MOST_COLUMNS};

/// The most rows of a block: as many as a word has bits.
pub const MOST_BLOCK_ROWS: u32 = 64;

/// At most `MOST_BLOCK_ROWS` rows of at most `MOST_COLUMNS` columns, seen as its width, the count of its rows and the
/// lanes of its columns; `rows_in` are the rows that it stands for.
///
/// It lies in one piece, and none of its calls takes memory.
#[derive(Drop)]
pub struct Block {
    width: u32,
    count: u32,
    lanes: [Lane; 16],
}

impl Model for Block {
    ghost use Rattle.row_blocks.specs.Blocks.{BlockView, IsBlock};

    ghost Value = { BlockView };

    ghost view = { λ b. record { width = b.width; count = b.count; lanes = b.lanes } };

    ghost invariant = { λ b. IsBlock (record { width = b.width; count = b.count; lanes = b.lanes }) };
}

impl Block {
    /// A block of no columns and no rows.
    pub fn new() -> Block
        ensures width { result.width ≡ 0 }
        ensures count { result.count ≡ 0 }
    {
        Block {
            width: 0,
            count: 0,
            lanes: [Lane::empty(Holds::Numbers); 16],
        }
    }

    /// Makes it so many rows of so many columns, all NULL.
    pub fn begin(&mut self, width: u32, count: u32)
        requires narrow { width ≤ MOST_COLUMNS }
        requires short { count ≤ MOST_BLOCK_ROWS }
        ensures width { self.new.width ≡ width }
        ensures count { self.new.count ≡ count }
        ensures null { (i x : ℕ) → i < count → x < width → lane_cell (lane_at self.new x) i ≡ Null }
    {
        self.width = width;
        self.count = count;
        forget_all(&mut self.lanes);
    }

    /// Gives a column this lane. The other columns stay as they are.
    pub fn put(&mut self, column: u32, lane: &Lane)
        requires { column < self.old.width }
        ensures width { self.new.width ≡ self.old.width }
        ensures count { self.new.count ≡ self.old.count }
        ensures lanes { (x : ℕ) → x < self.old.width
            → lane_at self.new x ≡ (if x == column then lane.now else lane_at self.old x) }
    {
        self.lanes[column as usize] = *lane;
    }

    /// How many rows there are.
    pub fn len(&self) -> u32
        ensures len { result ≡ self.now.count }
        ensures short { result ≤ MOST_BLOCK_ROWS }
    {
        self.count
    }

    /// How many columns there are.
    pub fn width(&self) -> u32
        ensures width { result ≡ self.now.width }
        ensures narrow { result ≤ MOST_COLUMNS }
    {
        self.width
    }

    /// The lane of a column.
    pub fn lane(&self, column: u32) -> &Lane
        requires { column < self.now.width }
        ensures { result.now ≡ lane_at self.now column }
    {
        &self.lanes[column as usize]
    }

    /// Reads a row, which has a place for each column.
    pub fn row(&self, row: u32, cells: &mut [Cell])
        requires row { row < self.now.count }
        requires width { length cells.old ≡ self.now.width }
        ensures { cells.new ≡ row_at self.now row }
    {
        read_row(&self.lanes, row, cells);
    }

    /// The word in which the bit of each row is set, and no other.
    pub fn every(&self) -> u64
        ensures set { (i : ℕ) → i < self.now.count → bit_at result i ≡ 1 }
        ensures clear { (i : ℕ) → self.now.count ≤ i → bit_at result i ≡ 0 }
    {
        every_below(self.count)
    }
}

// The word whose lowest bits are set, so many.
fn every_below(count: u32) -> u64
    requires { count ≤ 64 }
    ensures set { (i : ℕ) → i < count → bit_at result i ≡ 1 }
    ensures clear { (i : ℕ) → count ≤ i → bit_at result i ≡ 0 }
{
    if count == 64 {
        return u64::MAX;
    }
    (1 << count) - 1
}

// Makes each row NULL in each lane.
fn forget_all(lanes: &mut [Lane])
    ensures len { length lanes.new ≡ length lanes.old }
    ensures null { (x : ℕ) → x < length lanes.old → (lane_in lanes.new x).nulls ≡ 18446744073709551615 }
{
    for x in 0..lanes.len() {
        lanes[x].nulls = u64::MAX;
    }
}

// Reads a row of the first lanes, one for each cell.
fn read_row(lanes: &[Lane], row: u32, cells: &mut [Cell])
    requires row { row < 64 }
    requires lanes { length cells.old ≤ length lanes.now }
    ensures { cells.new ≡ row_of lanes.now (length cells.old) row }
{
    for x in 0..cells.len() {
        cells[x] = lanes[x].cell(row);
    }
}
