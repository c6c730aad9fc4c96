// What is shown of the answers of a run.
ghost use Rattle.std.specs.Prelude.{◌≡◌, ◌≤◌, ◌<◌, ◌^◌, ℕ, List, All, IfErr, IfOk, Some, length, map, option_map};
ghost use Rattle.std.specs.List.{AllByRecursion, AllZip};
ghost use Rattle.run_output.specs.Answers.{NamesColumns, printed};
ghost use Rattle.run_stops.specs.Outcomes.{ComeTo, plans_of};
ghost use Rattle.run_output.specs.Outcomes.{losses};
ghost use Rattle.run_output.specs.Output.{IsOutput};
ghost use Rattle.run_output.specs.Printed.{output, status};
ghost use Rattle.query_gather.specs.Answer.{CanBeWritten, IsAnswer};
ghost use Rattle.run_stops.specs.declared.stop.Stop.TheVariants as stop;
ghost use Rattle.table_core.specs.Fitting.{FitsRow};
ghost use Rattle.table_core.specs.Value.{places_of, row_values};
ghost use Rattle.table_core.specs.declared.cell.Cell.{Cell};
ghost use Rattle.run_ends.specs.Tasks as spec;

use crate::answered::Answered;
use crate::counts::Counts;
use crate::decision::Decision;
use crate::output::Output;
use coop_outside::Depot;
use query_gather::Answer;
use run_output::{Totals, output_text, status_of};
use run_stops::{Outcome, Stop};
use scan_story::Entry;
use std::alloc::Global;
use table_core::{Dict, Schema};

/// What the summary counts beside the answers, where it is asked for.
pub fn totals_of(summary: bool, story: &[Entry], rows: u32) -> Option<Totals>
    ensures totals { result ≡ spec.totals_of summary story.now rows }
{
    if !summary {
        return None;
    }
    let deliveries = Counts::of(story).deliveries;
    Some(Totals { deliveries, rows })
}

/// The story, where it is asked for.
pub fn trace_of(trace: bool, story: &[Entry]) -> Option<&[Entry]>
    ensures trace { option_map (λ s. s.now) result ≡ spec.trace_of trace story.now }
{
    if !trace {
        return None;
    }
    Some(story)
}

/// The text of the answers with what is shown behind them, and the status that goes with it.
pub fn output_of(
    alloc: Global,
    outcomes: &[Outcome],
    answers: &[Answer],
    schema: &Schema,
    dicts: &[Dict],
    totals: Option<Totals>,
    story: Option<&[Entry]>,
) -> Result<Output, Stop>
    requires few { length outcomes.now < 2 ^ 32 }
    requires dicts { length dicts.now ≡ length schema.now }
    requires places { All (λ c. places_of c.kind ≤ 9) schema.now }
    requires columns { AllByRecursion (NamesColumns (length schema.now)) (plans_of outcomes.now) }
    requires answers { AllZip (CanBeWritten dicts.now) (plans_of outcomes.now) answers.now }
    ensures status { IfOk result (λ o. o.status ≡ status (printed schema.now dicts.now 1 outcomes.now answers.now)) }
    ensures text { IfOk result (λ o. o.text ≡ output (printed schema.now dicts.now 1 outcomes.now answers.now) totals
        (option_map (λ s. s.now) story.entry)) }
    ensures means { IfOk result (λ o. (texts : List (List ℕ)) (table : List (List Cell))
        → ComeTo schema.now dicts.now texts outcomes.now
        → AllZip (λ p a. IsAnswer p table a) (plans_of outcomes.now) answers.now
        → All (FitsRow schema.now dicts.now) table
        → IsOutput schema.now (map (row_values dicts.now) table) texts (losses outcomes.now answers.now) totals
        (option_map (λ s. s.now) story.entry) o.status o.text) }
    ensures err { IfErr result (λ s. s ≡ stop.Memory) }
{
    match output_text(alloc, schema, dicts, outcomes, answers, totals, story) {
        Ok(text) => Ok(Output {
            status: status_of(outcomes, answers),
            text,
        }),
        Err(_) => Err(Stop::Memory),
    }
}

/// What a run decides once its queries are answered: what is to be written, where memory suffices for it. The table has
/// so many rows; the summary and the story are shown where they are asked for.
pub fn decision_of<D: Depot>(
    alloc: Global,
    answered: Answered<D>,
    summary: bool,
    trace: bool,
    rows: u32,
) -> Decision<D>
    requires few { length answered.outcomes.items < 2 ^ 32 }
    requires dicts { length answered.dicts.items ≡ length answered.schema }
    requires places { All (λ c. places_of c.kind ≤ 9) answered.schema }
    requires columns { AllByRecursion (NamesColumns (length answered.schema)) (plans_of answered.outcomes.items) }
    requires answers { AllZip (CanBeWritten answered.dicts.items) (plans_of answered.outcomes.items)
        answered.answers.items }
    ensures status { IfOk result.ending (λ o. o.status ≡ status
        (printed answered.schema answered.dicts.items 1 answered.outcomes.items answered.answers.items)) }
    ensures text { IfOk result.ending (λ o. o.text ≡ output
        (printed answered.schema answered.dicts.items 1 answered.outcomes.items answered.answers.items)
        (spec.totals_of summary answered.ran.story.items rows) (spec.trace_of trace answered.ran.story.items)) }
    ensures means { IfOk result.ending (λ o. (texts : List (List ℕ)) (table : List (List Cell))
        → ComeTo answered.schema answered.dicts.items texts answered.outcomes.items
        → AllZip (λ p a. IsAnswer p table a) (plans_of answered.outcomes.items) answered.answers.items
        → All (FitsRow answered.schema answered.dicts.items) table
        → IsOutput answered.schema (map (row_values answered.dicts.items) table) texts
        (losses answered.outcomes.items answered.answers.items)
        (spec.totals_of summary answered.ran.story.items rows)
        (spec.trace_of trace answered.ran.story.items) o.status o.text) }
    ensures err { IfErr result.ending (λ s. s ≡ stop.Memory) }
    ensures ran { result.ran ≡ Some answered.ran }
    ensures depot { result.depot ≡ answered.depot }
{
    let Answered {
        outcomes,
        answers,
        schema,
        dicts,
        ran,
        depot,
    } = answered;
    let totals = totals_of(summary, &ran.story, rows);
    let story = trace_of(trace, &ran.story);
    let ending = output_of(alloc, &outcomes, &answers, &schema, &dicts, totals, story);
    Decision {
        ending,
        ran: Some(ran),
        depot,
    }
}
