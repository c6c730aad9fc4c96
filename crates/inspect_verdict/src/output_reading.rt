// What an output tells.
ghost use Rattle.std.specs.Prelude.{◌≡◌, ◌≤◌, ◌^◌, ◌++◌, All, IfErr, IfOk, List, IfSome, MatchOption, Some, length, ℕ};
ghost use Rattle.std.specs.List.{AllByRecursion, AllZip};
ghost use Rattle.story_text.specs.Reading.{Fits};
ghost use Rattle.story_text.specs.Text.{story_text};
ghost use Rattle.scan_story.specs.declared.entry.Entry.{Entry as EntryOf};
ghost use Rattle.table_core.specs.Value.{places_of};
ghost use Rattle.query_gather.specs.Answer.{CanBeWritten};
ghost use Rattle.query_gather.specs.declared.answer.Answer.{Answer as AnswerOf};
ghost use Rattle.run_output.specs.Answers.{NamesColumns};
ghost use Rattle.run_stops.specs.Outcomes.{plans_of};
ghost use Rattle.inspect_verdict.specs.Ends.{BeginsAtLine, EndsWith};
ghost use Rattle.inspect_verdict.specs.StatementParts.{IsPlainOrStopped};
ghost use Rattle.run_inputs.specs.declared.inputs.Inputs.{Inputs as InputsOf};
ghost use Rattle.inspect_verdict.specs.Plain.{ArePlain};
ghost use Rattle.inspect_verdict.specs.Reading.{HasRead, IsSummaryLine, IsToldIn, IsTrace};
ghost use Rattle.inspect_verdict.specs.Verdict.{IsOfReading};

use crate::ends::line_of_end;
use crate::part::behind_line_with;
use crate::parting::parting_at;
use crate::parts::parts_of;
use crate::splitting::{Split, take_apart};
use crate::verdict::Verdict;
use inspect_story::story_in;
use query_gather::Answer;
use run_inputs::Inputs;
use scan_story::Entry;
use std::alloc::Global;
use table_core::Memory;

/// What an output tells: whether a line stands for the answer to each statement, and the story behind them, which
/// begins at the line of this number, from 1.
#[derive(Drop)]
pub(crate) struct Told {
    pub(crate) lines: Vec<bool>,
    pub(crate) story: Vec<Entry>,
    pub(crate) first: u64,
}

// What stands behind the summary, where there is to be one.
fn behind_summary(summary: bool, text: &[u8]) -> Option<&[u8]>
    ensures line { IfSome result (λ r. (line : List ℕ) × IsSummaryLine summary line × (text.now ≡ line ++ r.now)) }
    ensures end { IfSome result (λ r. EndsWith text.now r.now) }
    ensures rest { (line rest : List ℕ) → IsSummaryLine summary line → text.now ≡ line ++ rest
        → MatchOption result ⊥ (λ r. r.now ≡ rest) }
{
    if summary {
        return behind_line_with(text, b"summary: ");
    }
    Some(text)
}

// What an output tells whose trace is this end of it, behind answers with these lines.
fn told_at_end(
    alloc: Global,
    lines: Vec<bool>,
    output: &[u8],
    trace: &[u8],
) -> Result<Result<Told, Verdict>, Memory>
    requires end { EndsWith output.now trace.now }
    requires short { length output.now ≤ 2 ^ 30 }
    ensures fits { IfOk result (λ r. IfOk r (λ t. AllByRecursion Fits t.story.items)) }
    ensures end { IfOk result (λ r. IfOk r (λ t. BeginsAtLine output.now (story_text t.story.items) t.first)) }
    ensures trace { IfOk result (λ r. IfOk r (λ t. trace.now ≡ story_text t.story.items)) }
    ensures bad { IfOk result (λ r. IfErr r (λ v. (i : InputsOf) → IsTrace i output.now trace.now
        → IsOfReading i output.now v)) }
    ensures told { IfOk result (λ r. (story : List EntryOf) → AllByRecursion Fits story
        → trace.now ≡ story_text story → IsToldIn lines.items story r) }
{
    let first = line_of_end(output, trace);
    match story_in(alloc, trace)? {
        Ok(story) => Ok(Ok(Told {
            lines,
            story,
            first,
        })),
        Err(line) => {
            let line = first + line as u64 - 1;
            Ok(Err(Verdict::NotStory { line }))
        }
    }
}

/// What an output tells, or what stands in the way of it: a statement for which neither its answer stands nor a line,
/// no summary, or a line that is no entry's.
pub(crate) fn read_output(
    alloc: Global,
    inputs: &Inputs,
    plain: &[Answer],
    output: &[u8],
) -> Result<Result<Told, Verdict>, Memory>
    requires short { length output.now ≤ 2 ^ 30 }
    requires few { length inputs.now.outcomes.items ≤ 256 }
    requires dicts { length inputs.now.loaded.dicts.items ≡ length inputs.now.loaded.table.columns }
    requires places { All (λ c. places_of c.kind ≤ 9) inputs.now.loaded.table.columns }
    requires columns { AllByRecursion (NamesColumns (length inputs.now.loaded.table.columns))
        (plans_of inputs.now.outcomes.items) }
    requires cells { AllZip (CanBeWritten inputs.now.loaded.dicts.items) (plans_of inputs.now.outcomes.items)
        plain.now }
    requires plain { ArePlain inputs.now.loaded.table.rows (plans_of inputs.now.outcomes.items) plain.now }
    ensures fits { IfOk result (λ r. IfOk r (λ t. AllByRecursion Fits t.story.items)) }
    ensures read { IfOk result (λ r. (answers : List AnswerOf) (line : List ℕ) (story : List EntryOf)
        → AllZip IsPlainOrStopped plain.now answers
        → HasRead inputs.now answers line story output.now r) }
    ensures end { IfOk result (λ r. IfOk r (λ t. BeginsAtLine output.now (story_text t.story.items) t.first)) }
    ensures trace { IfOk result (λ r. IfOk r (λ t. IsTrace inputs.now output.now (story_text t.story.items))) }
    ensures none { IfOk result (λ r. IfErr r (IsOfReading inputs.now output.now)) }
{
    let schema = inputs.loaded.table.schema();
    let parts = parts_of(alloc, schema, &inputs.loaded.dicts, &inputs.outcomes, plain)?;
    let Split {
        lines,
        behind,
        left,
        more,
    } = take_apart(alloc, &parts, output)?;
    let Some(behind) = behind else {
        let query = lines.len() + 1;
        let parting = parting_at(alloc, output, left, more)?;
        return Ok(Err(Verdict::NotAnswered { query, parting }));
    };
    let Some(trace) = behind_summary(inputs.summary, behind) else {
        let line = line_of_end(output, behind);
        return Ok(Err(Verdict::NoSummary { line }));
    };
    told_at_end(alloc, lines, output, trace)
}
