// What follows of rows in order.
ghost use Rattle.std.specs.Prelude.{◌≡◌, List, IsPermutation};
ghost use Rattle.table_core.specs.declared.cell.Cell.{Cell};
ghost use Rattle.query_meaning.specs.Cells.{codes};
ghost use Rattle.query_meaning.specs.declared.order.Order.{Order};
ghost use Rattle.query_meaning.specs.Rows.{AreDistinct, AreRising, Numbered, in_order};

/// The rows in order are the same rows, each stands before the next one, and no other rearrangement is so: a law on
/// what "in order" means. It does nothing.
pub fn one_order()
    ensures same { (orders : List Order) (rows : List (Numbered Cell))
        → IsPermutation rows (in_order codes orders rows) }
    ensures rising { (orders : List Order) (rows : List (Numbered Cell)) → AreDistinct rows
        → AreRising codes orders (in_order codes orders rows) }
    ensures one { (orders : List Order) (rows other : List (Numbered Cell)) → AreDistinct rows
        → IsPermutation rows other → AreRising codes orders other → other ≡ in_order codes orders rows }
{}
