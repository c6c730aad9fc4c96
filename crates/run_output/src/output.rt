// The output of a run, and its status.
ghost use Rattle.std.specs.Prelude.{◌≡◌, ◌≤◌, ◌<◌, ◌^◌, ◌++◌, ℕ, List, All, IfOk, OnOk, length, map, option_map};
ghost use Rattle.std.specs.List.{AllByRecursion, AllZip, count_by, flat_map};
ghost use Rattle.table_core.specs.Fitting.{FitsRow};
ghost use Rattle.table_core.specs.Value.{places_of, row_values};
ghost use Rattle.table_core.specs.declared.cell.Cell.{Cell};
ghost use Rattle.table_core.specs.declared.schema.Column.{Column};
ghost use Rattle.query_gather.specs.Answer.{CanBeWritten, IsAnswer};
ghost use Rattle.run_output.specs.Answers.{NamesColumns, printed};
ghost use Rattle.run_stops.specs.Outcomes.{ComeTo, plans_of};
ghost use Rattle.run_output.specs.Outcomes.{has_rows, losses};
ghost use Rattle.run_output.specs.Output.{IsOutput};
ghost use Rattle.run_output.specs.Printed.{output, status, summary_of, text_in, trace_of};

use crate::statement::write_statement;
use crate::summary::write_summary;
use crate::totals::Totals;
use query_gather::Answer;
use run_stops::Outcome;
use scan_story::Entry;
use std::alloc::Global;
use story_text::write_story;
use table_core::{Bytes, Dict, Memory, Schema};

// Whether the answer has rows to print.
fn has_rows(answer: &Answer) -> bool
    ensures { result ≡ has_rows answer.now }
{
    matches!(answer, Answer::Rows(_) | Answer::Picked(_))
}

// How many answers have rows to print.
fn answered(answers: &[Answer]) -> usize
    ensures { result ≡ count_by has_rows answers.now }
{
    answers.iter().filter(|a| has_rows(a)).count()
}

// What the statements print, in order.
fn statements_text(
    alloc: Global,
    schema: &Schema,
    dicts: &[Dict],
    outcomes: &[Outcome],
    answers: &[Answer],
) -> Result<Bytes, Memory>
    requires few { length outcomes.now < 2 ^ 32 }
    requires dicts { length dicts.now ≡ length schema.now }
    requires places { All (λ c. places_of c.kind ≤ 9) schema.now }
    requires columns { AllByRecursion (NamesColumns (length schema.now)) (plans_of outcomes.now) }
    requires answers { AllZip (CanBeWritten dicts.now) (plans_of outcomes.now) answers.now }
    ensures { IfOk result (λ text. text ≡ flat_map text_in (printed schema.now dicts.now 1 outcomes.now answers.now)) }
{
    let mut out = Bytes::new(Vec::new(alloc));
    let mut query = 0;
    let mut statements = outcomes;
    let mut left = answers;
    while let [outcome, rest @ ..] = statements {
        query += 1;
        left = write_statement(alloc, &mut out, query, schema, dicts, outcome, left)?;
        statements = rest;
    }
    Ok(out)
}

// Puts the summary at the end, where its totals are given.
fn write_totals(
    out: &mut Bytes,
    outcomes: &[Outcome],
    answers: &[Answer],
    summary: Option<Totals>,
) -> Result<(), Memory>
    requires few { length outcomes.now < 2 ^ 32 }
    requires answers { length answers.now ≡ length (plans_of outcomes.now) }
    ensures { OnOk result ((columns : List Column) (dicts : List (List (List ℕ))) → out.new ≡ out.old
        ++ summary_of (printed columns dicts 1 outcomes.now answers.now) summary) }
{
    match summary {
        None => Ok(()),
        Some(totals) => {
            let queries = outcomes.len() as u32;
            let answered = answered(answers) as u32;
            write_summary(out, queries, answered, totals.deliveries, totals.rows)
        }
    }
}

// Puts the trace at the end, where its story is given.
fn write_trace(alloc: Global, out: &mut Bytes, trace: Option<&[Entry]>) -> Result<(), Memory>
    ensures { OnOk result (out.new ≡ out.old ++ trace_of (option_map (λ s. s.now) trace.entry)) }
{
    let Some(story) = trace else {
        return Ok(());
    };
    let Ok(text) = write_story(alloc, story) else {
        return Err(Memory);
    };
    out.append(text.as_slice())?;
    Ok(())
}

/// The text of a run's output: for each statement, numbered from 1, the rows of its answer or the line of its refusal,
/// then the summary, where its totals are given, then the trace, where its story is given: a line for each entry.
///
/// There is an answer for each statement that has a plan, in the order of the statements. There are at most 4294967295
/// statements, one dictionary for each column, and numbers with at most 9 places. Out of memory, there is no text.
pub fn output_text(
    alloc: Global,
    schema: &Schema,
    dicts: &[Dict],
    outcomes: &[Outcome],
    answers: &[Answer],
    summary: Option<Totals>,
    trace: Option<&[Entry]>,
) -> Result<Bytes, Memory>
    requires few { length outcomes.now < 2 ^ 32 }
    requires dicts { length dicts.now ≡ length schema.now }
    requires places { All (λ c. places_of c.kind ≤ 9) schema.now }
    requires columns { AllByRecursion (NamesColumns (length schema.now)) (plans_of outcomes.now) }
    requires answers { AllZip (CanBeWritten dicts.now) (plans_of outcomes.now) answers.now }
    ensures text { IfOk result (λ out. out ≡ output (printed schema.now dicts.now 1 outcomes.now answers.now) summary
        (option_map (λ s. s.now) trace.entry)) }
    // Where the outcomes are those of these texts, and the answers those to a table, it is the output of the texts over
    // the table's values.
    ensures output { IfOk result (λ out. (texts : List (List ℕ)) (table : List (List Cell)) →
        ComeTo schema.now dicts.now texts outcomes.now
        → AllZip (λ p a. IsAnswer p table a) (plans_of outcomes.now) answers.now
        → All (FitsRow schema.now dicts.now) table →
        IsOutput schema.now (map (row_values dicts.now) table) texts (losses outcomes.now answers.now) summary
        (option_map (λ s. s.now) trace.entry)
        (status (printed schema.now dicts.now 1 outcomes.now answers.now)) out) }
{
    let mut out = statements_text(alloc, schema, dicts, outcomes, answers)?;
    write_totals(&mut out, outcomes, answers, summary)?;
    write_trace(alloc, &mut out, trace)?;
    Ok(out)
}

/// The status of a run that writes its output: 0 exactly where every statement is answered, and 1 where one is refused.
///
/// There is an answer for each statement that has a plan.
pub fn status_of(outcomes: &[Outcome], answers: &[Answer]) -> u8
    requires answers { length answers.now ≡ length (plans_of outcomes.now) }
    ensures status { (columns : List Column) (dicts : List (List (List ℕ))) → result
        ≡ status (printed columns dicts 1 outcomes.now answers.now) }
{
    if answered(answers) == outcomes.len() {
        0
    } else {
        1
    }
}
