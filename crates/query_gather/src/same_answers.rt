// What holds of every answer.
ghost use Rattle.std.specs.Prelude.{◌≡◌, ℕ, List, All, length, IsPermutation};
ghost use Rattle.table_core.specs.Fitting.{FitsRow};
ghost use Rattle.table_core.specs.Dict.{Rises};
ghost use Rattle.table_core.specs.declared.cell.Cell.{Cell};
ghost use Rattle.table_core.specs.declared.schema.Column.{Column};
ghost use Rattle.query_meaning.specs.Rows.{Numbered};
ghost use Rattle.sql_bind.specs.declared.plan.Plan.{Plan};
ghost use Rattle.sql_bind.specs.Reads.{ReadsItsColumns};
ghost use Rattle.query_gather.specs.declared.answer.Answer.{Answer};
ghost use Rattle.query_gather.specs.declared.partial.Partial.{Partial};
ghost use Rattle.query_gather.specs.Agree.{Agree};
ghost use Rattle.query_gather.specs.Answer.{IsAnswerOver, CanBeWritten};
ghost use Rattle.query_gather.specs.Laws.{AnswersTable, AnswerAgrees};
ghost use Rattle.query_gather.specs.Partial.{FitsPlan, IsAlike, Stands, unnumbered};

/// The answer over the matching rows of a table, numbered from 0, is the answer over the table: a law, for proofs about
/// scans. It does nothing.
pub fn answer_of_table()
    ensures { (p : Plan) (table : List (List Cell)) (a : Answer) → AnswersTable p table a }
{}

/// What is gathered of some rows is gathered of them in each other order: a law, for scans that take chunks as they
/// come.
/// It does nothing.
pub fn any_order()
    ensures { (p : Partial) (rows other : List (Numbered Cell)) → IsPermutation rows other → Stands p rows
        → Stands p other }
{}

/// What fits one plan may be joined: a law, for parts of a query. It does nothing.
pub fn alike_parts()
    ensures { (plan : Plan) (a b : Partial) → FitsPlan plan a → FitsPlan plan b → IsAlike a b }
{}

/// Over rows that agree at the columns that a plan names, the same rows match and the answer is the same: a law, for
/// scans that read these columns alone. It does nothing.
pub fn answer_agrees()
    ensures { (n : ℕ) (p : Plan) (xs ys : List (Numbered Cell)) (a : Answer) → ReadsItsColumns n p
        → Agree p.columns xs ys → AnswerAgrees p xs ys a }
{}

/// Over rows that fit the columns, whose dictionaries rise, the cells of an answer can be written: a law, for the text
/// of answers. It does nothing.
pub fn can_be_written()
    ensures { (columns : List Column) (dicts : List (List (List ℕ))) (p : Plan) (rows : List (Numbered Cell))
        (a : Answer) →
        length dicts ≡ length columns → All Rises dicts → All (FitsRow columns dicts) (unnumbered rows)
        → IsAnswerOver p rows a → CanBeWritten dicts p a }
{}
