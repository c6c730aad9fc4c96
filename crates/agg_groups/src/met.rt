// Keys of one or two cells that were met lately, each in a slot that its cells name.
ghost use Rattle.std.specs.Prelude.{◌≡◌, ◌<◌, ◌≤◌, ℕ, [], ◌∷◌, length, take, All, Some, IsTrue, IfOk, IfSome};
ghost use Rattle.row_blocks.specs.Blocks.{row_at};
ghost use Rattle.query_meaning.specs.Cells.{codes};
ghost use Rattle.query_meaning.specs.Meaning.{key_of};
ghost use Rattle.agg_groups.specs.Table.{AreMet, Placed, place_at};

use crate::lanes::cell_in;
use crate::place::is_cell;
use row_blocks::Block;
use std::alloc::{AllocError, Global};
use table_core::Cell;

/// A key and its place. A key of one cell has NULL for the second.
#[derive(Clone, Copy)]
pub struct Met {
    /// The cell of the first key column.
    pub first: Cell,
    /// The cell of the second key column.
    pub second: Cell,
    /// The place of the key.
    pub place: usize,
}

// How many keys are remembered.
const SLOTS: usize = 256;

fn empty(alloc: Global, count: usize) -> Result<Vec<Option<Met>>, AllocError>
    ensures { IfOk result (λ slots. (n : ℕ) (t : Placed) → AreMet n t slots.items) }
{
    vec![in alloc; None; count]
}

/// Empty slots: none where no key of so many cells is remembered.
pub(crate) fn slots_for(alloc: Global, width: usize) -> Result<Vec<Option<Met>>, AllocError>
    ensures { IfOk result (λ slots. (n : ℕ) (t : Placed) → AreMet n t slots.items) }
{
    if width == 1 || width == 2 {
        empty(alloc, SLOTS)
    } else {
        empty(alloc, 0)
    }
}

/// The cells of the key of a row of a block, NULL for those that a key of few cells doesn't have.
pub(crate) fn pair_of(keys: &[u32], block: &Block, row: u32) -> (Cell, Cell)
    requires row { row < 64 }
    requires in_row { All (λ x. x < block.now.width) keys.now }
    requires few { length keys.now ≤ 2 }
    ensures { take (length keys.now) (result.0 ∷ result.1 ∷ []) ≡ key_of codes keys.now (row_at block.now row) }
{
    if keys.is_empty() {
        return (Cell::Null, Cell::Null);
    }
    let first = cell_in(block, row, keys[0]);
    if keys.len() == 1 {
        return (first, Cell::Null);
    }
    (first, cell_in(block, row, keys[1]))
}

// A number of a cell, of which neighbours have neighbouring ones.
fn number_of(cell: Cell) -> u64 {
    match cell {
        Cell::Null => 255,
        Cell::Int(n) => n.cast_unsigned(),
        Cell::Code(code) => u64::from(code),
    }
}

// The slot of a key.
fn slot_of(first: Cell, second: Cell) -> usize {
    let mixed = number_of(first)
        .wrapping_mul(31)
        .wrapping_add(number_of(second));
    (mixed % 256) as usize
}

// The place in a slot, if the slot holds this key.
fn place_in_slot(slot: Option<Met>, first: Cell, second: Cell) -> Option<usize>
    ensures { IfSome result (λ place. slot ≡ Some (record { first = first; second = second; place = place })) }
{
    match slot {
        Some(met) if is_cell(met.first, first) && is_cell(met.second, second) => Some(met.place),
        _ => None,
    }
}

/// The place of a key, if it is remembered.
pub(crate) fn known(slots: &[Option<Met>], first: Cell, second: Cell) -> Option<usize>
    ensures { IfSome result (λ place. (n : ℕ) (t : Placed) → AreMet n t slots.now
        → place_at t.places (take n (first ∷ second ∷ [])) ≡ Some place) }
{
    let slot = slot_of(first, second);
    if slot < slots.len() {
        return place_in_slot(slots[slot], first, second);
    }
    None
}

/// Remembers the place of a key, in place of another key.
pub(crate) fn remember(slots: &mut [Option<Met>], first: Cell, second: Cell, place: usize)
    ensures { (n : ℕ) (t : Placed) → AreMet n t slots.old
        → place_at t.places (take n (first ∷ second ∷ [])) ≡ Some place → AreMet n t slots.new }
{
    let slot = slot_of(first, second);
    if slot < slots.len() {
        slots[slot] = Some(Met {
            first,
            second,
            place,
        });
    }
}
