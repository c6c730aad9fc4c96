// What follows from the contract of a batch.
ghost use Rattle.std.specs.Prelude.{◌≡◌, ◌<◌, ◌-◌, ◌^◌, true, ℕ, List, Some};
ghost use Rattle.table_core.specs.declared.schema.Column.{Column};
ghost use Rattle.scan_story.specs.declared.cause.Cause.{Cause};
ghost use Rattle.scan_story.specs.declared.cause.Cause.TheVariants as cause;
ghost use Rattle.scan_story.specs.Views.{History};
ghost use Rattle.scan_story.specs.Causes.{Licensed};
ghost use Rattle.sql_bind.specs.Statements.{IsPlanFor};
ghost use Rattle.sql_bind.specs.declared.plan.Plan.{Plan};
ghost use Rattle.batch_ends.specs.Lost.{cause_of_query};
ghost use Rattle.batch_ends.specs.Tasks.{IsPlanOfTable};

/// A plan of a statement over a table is one that `run_batch` takes: a law, for its callers. It does nothing.
pub fn plans_fit()
    ensures { (text : List ℕ) (columns : List Column) (dicts : List (List (List ℕ))) (p : Plan)
        → IsPlanFor text columns dicts p → IsPlanOfTable columns dicts p }
{}

/// Where the depot tells what it holds, and its count of faults neither rose nor stands at its last value, a query is
/// stopped only when out of memory: a law, for the callers of `run_batch`. It does nothing.
pub fn lost_without_faults()
    ensures { (h : History) (faults parts query : ℕ) (why : Cause) → Licensed true faults faults h
        → faults < 2 ^ 64 - 1 → cause_of_query h parts query ≡ Some why → why ≡ cause.Memory }
{}
