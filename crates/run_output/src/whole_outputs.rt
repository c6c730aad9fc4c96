// What holds of every output.
ghost use Rattle.std.specs.Prelude.{◌≡◌, ℕ, List, Option, All, length, map};
ghost use Rattle.std.specs.List.{AllByRecursion, AllZip};
ghost use Rattle.table_core.specs.Fitting.{FitsRow};
ghost use Rattle.table_core.specs.Value.{Value, row_values};
ghost use Rattle.table_core.specs.declared.cell.Cell.{Cell};
ghost use Rattle.table_core.specs.declared.schema.Column.{Column};
ghost use Rattle.scan_story.specs.declared.entry.Entry.{Entry};
ghost use Rattle.query_gather.specs.Answer.{IsAnswer};
ghost use Rattle.query_gather.specs.declared.answer.Answer.{Answer};
ghost use Rattle.scan_story.specs.declared.cause.Cause.{Cause};
ghost use Rattle.run_output.specs.Answers.{NamesColumns, printed};
ghost use Rattle.run_stops.specs.Outcomes.{ComeTo, plans_of};
ghost use Rattle.run_output.specs.Outcomes.{losses};
ghost use Rattle.run_output.specs.Output.{IsOutput, PrintEach};
ghost use Rattle.run_stops.specs.declared.outcome.Outcome.{Outcome};
ghost use Rattle.run_output.specs.declared.totals.Totals.{Totals};

/// Where outcomes are those of these texts, and answers those to a table of cells, what is printed from them is what
/// the texts print over the table's values: a law. It does nothing.
pub fn one_output()
    ensures { (columns : List Column) (dicts : List (List (List ℕ))) (texts : List (List ℕ)) (outcomes : List Outcome)
        (answers : List Answer) (table : List (List Cell)) →
        ComeTo columns dicts texts outcomes → AllZip (λ p a. IsAnswer p table a) (plans_of outcomes) answers
        → All (FitsRow columns dicts) table →
        PrintEach columns (map (row_values dicts) table) 1 texts (losses outcomes answers)
        (printed columns dicts 1 outcomes answers) }
{}

/// Statements of these texts, over a table of values and for these losses, have one status and one output: a law. It
/// does nothing.
pub fn output_alone()
    ensures { (columns : List Column) (table : List (List Value)) (texts : List (List ℕ))
        (losses : List (Option Cause)) (summary : Option Totals) (trace : Option (List Entry)) (a b : ℕ)
        (out more : List ℕ) →
        IsOutput columns table texts losses summary trace a out
        → IsOutput columns table texts losses summary trace b more → (a ≡ b) × (out ≡ more) }
{}

/// The plans of texts name columns of the table: a law, for the conditions of `output_text`. It does nothing.
pub fn names_columns()
    ensures { (columns : List Column) (dicts : List (List (List ℕ))) (texts : List (List ℕ)) (outcomes : List Outcome) →
        ComeTo columns dicts texts outcomes → AllByRecursion (NamesColumns (length columns)) (plans_of outcomes) }
{}
