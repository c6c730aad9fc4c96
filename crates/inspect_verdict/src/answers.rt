// The plain answers to a batch.
ghost use Rattle.std.specs.Prelude.{◌≡◌, ◌≤◌, ◌++◌, [], ◌∷◌, All, IfOk, List, OnOk, length};
ghost use Rattle.std.specs.List.{AllByRecursion, AllZip};
ghost use Rattle.table_core.specs.Fitting.{FitsRow};
ghost use Rattle.csv_load.specs.Judged.{Fields};
ghost use Rattle.table_sets.specs.declared.limits.TheConstants.{MOST_ROWS};
ghost use Rattle.batch_ends.specs.Tasks.{IsPlanOfTable};
ghost use Rattle.run_stops.specs.Outcomes.{plans_of};
ghost use Rattle.run_stops.specs.declared.outcome.Outcome.{Outcome as OutcomeOf};
ghost use Rattle.inspect_verdict.specs.Plain.{AddsAnswer, ArePlain};

use crate::answering::plain_answer;
use query_gather::Answer;
use run_stops::Outcome;
use std::alloc::Global;
use table_core::{Memory, Table};

// Adds the answer to a statement, where it has a plan.
fn push_answer(
    alloc: Global,
    answers: &mut Vec<Answer>,
    outcome: &Outcome,
    table: &Table,
) -> Result<(), Memory>
    requires plans { (dicts : List Fields) × AllByRecursion (IsPlanOfTable table.now.columns dicts)
        (plans_of (outcome.now ∷ [])) × All (FitsRow table.now.columns dicts) table.now.rows }
    requires few { length table.now.rows ≤ MOST_ROWS }
    ensures { OnOk result (AddsAnswer table.now.rows outcome.now answers.old.items answers.new.items) }
{
    if let Outcome::Planned(plan) = outcome {
        answers.push(plain_answer(alloc, plan, table)?)?;
    }
    Ok(())
}

/// The answer to each statement that has a plan, over the whole table. The error is out of memory.
pub(crate) fn answers_of(
    alloc: Global,
    outcomes: &[Outcome],
    table: &Table,
) -> Result<Vec<Answer>, Memory>
    requires plans { (dicts : List Fields) × AllByRecursion (IsPlanOfTable table.now.columns dicts)
        (plans_of outcomes.now) × All (FitsRow table.now.columns dicts) table.now.rows }
    requires few { length table.now.rows ≤ MOST_ROWS }
    ensures plain { IfOk result (λ answers. ArePlain table.now.rows (plans_of outcomes.now) answers.items) }
{
    let mut answers = Vec::new(alloc);
    let mut statements = outcomes;
    while let [outcome, rest @ ..] = statements {
        push_answer(alloc, &mut answers, outcome, table)?;
        statements = rest;
    }
    Ok(answers)
}
