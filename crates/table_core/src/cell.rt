// One value of a table, as queries meet it.
ghost use Rattle.std.specs.Prelude.{◌≡◌};
ghost use Rattle.table_core.specs.Cell as spec;

/// A cell: no value, a number, or the code of a text in its column's dictionary.
///
/// Cells are ordered: `Null` first, then numbers rising, then codes rising.
#[derive(Clone, Copy, Debug, PartialEq, Eq, PartialOrd, Ord, Hash)]
pub enum Cell {
    /// No value.
    Null,
    /// The number itself in an INT column; in a DEC column the value times 10 to the power of its places.
    Int(i64),
    /// The place of a text in its column's dictionary.
    Code(u32),
}

/// The order of cells is `cell_cmp`: a law, for proofs about maps and sorts whose keys are cells. It does nothing.
pub fn cell_order()
    ensures { (a b : Cell) → ⟦<Cell as Ord>⟧.cmp a b ≡ spec.cell_cmp a b }
{}
