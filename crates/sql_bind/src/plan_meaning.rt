// One meaning over cells and over values.
ghost use Rattle.std.specs.Prelude.{ℕ, List, All};
ghost use Rattle.table_core.specs.Dict.{Rises};
ghost use Rattle.table_core.specs.declared.cell.Cell.{Cell};
ghost use Rattle.query_meaning.specs.declared.item.Item.{Item};
ghost use Rattle.query_meaning.specs.Rows.{Numbered, RowQuery};
ghost use Rattle.sql_bind.specs.Laws.{AreReadable, AreReadableRows, SameFirstRows, SameMeaning, SameOverflow};
ghost use Rattle.sql_bind.specs.Texts.{AreCellsOf};

/// Over rising dictionaries, a query has over rows of cells the meaning, the overflow and the first rows that it has
/// over the values of the rows: laws, for proofs about queries. It does nothing.
pub fn one_meaning()
    ensures meaning { (dicts : List (List (List ℕ))) (items : List Item) (keys : List ℕ) (rows : List (List Cell)) →
        All Rises dicts → All (AreCellsOf dicts) rows → SameMeaning dicts items keys rows }
    ensures overflow { (dicts : List (List (List ℕ))) (items : List Item) (keys : List ℕ) (rows : List (List Cell)) →
        All Rises dicts → All (AreCellsOf dicts) rows → SameOverflow dicts items keys rows }
    ensures first_rows { (dicts : List (List (List ℕ))) (q : RowQuery) (rows : List (Numbered Cell)) →
        All Rises dicts → All (λ (r : Numbered Cell). AreCellsOf dicts r.1) rows → SameFirstRows dicts q rows }
{}

/// Over rising dictionaries, the cells of a query's answer over rows of cells can be read in the dictionaries of their
/// columns: laws, for the text of answers. It does nothing.
pub fn readable_answers()
    ensures results { (dicts : List (List (List ℕ))) (items : List Item) (keys : List ℕ) (rows : List (List Cell)) →
        All Rises dicts → All (AreCellsOf dicts) rows → AreReadable dicts items keys rows }
    ensures first_rows { (dicts : List (List (List ℕ))) (q : RowQuery) (rows : List (Numbered Cell)) →
        All Rises dicts → All (λ (r : Numbered Cell). AreCellsOf dicts r.1) rows → AreReadableRows dicts q rows }
{}
