// The output of a run with this story, once more.
ghost use Rattle.std.specs.Prelude.{◌≡◌, ◌≤◌, ◌<◌, ◌^◌, All, IfNone, IfOk, IfSome, length};
ghost use Rattle.std.specs.List.{AllByRecursion, AllZip};
ghost use Rattle.table_core.specs.Value.{places_of};
ghost use Rattle.query_gather.specs.Answer.{CanBeWritten};
ghost use Rattle.run_output.specs.Answers.{NamesColumns};
ghost use Rattle.run_stops.specs.Outcomes.{plans_of};
ghost use Rattle.inspect_verdict.specs.Lines.{IsParting};
ghost use Rattle.inspect_verdict.specs.Reading.{text_with};

use crate::parting::{Parting, parting_of};
use query_gather::Answer;
use run_ends::totals_of;
use run_inputs::Inputs;
use run_output::output_text;
use scan_story::Entry;
use std::alloc::Global;
use table_core::Memory;

/// Where a text parts from what a run prints with these answers and this story; none where it is that. The error is out
/// of memory.
pub(crate) fn parting_from(
    alloc: Global,
    inputs: &Inputs,
    answers: &[Answer],
    story: &[Entry],
    output: &[u8],
) -> Result<Option<Parting>, Memory>
    requires few { length inputs.now.outcomes.items ≤ 256 }
    requires rows { length inputs.now.loaded.table.rows < 2 ^ 32 }
    requires dicts { length inputs.now.loaded.dicts.items ≡ length inputs.now.loaded.table.columns }
    requires places { All (λ c. places_of c.kind ≤ 9) inputs.now.loaded.table.columns }
    requires columns { AllByRecursion (NamesColumns (length inputs.now.loaded.table.columns))
        (plans_of inputs.now.outcomes.items) }
    requires cells { AllZip (CanBeWritten inputs.now.loaded.dicts.items) (plans_of inputs.now.outcomes.items)
        answers.now }
    ensures same { IfOk result (λ r. IfNone r (output.now ≡ text_with inputs.now answers.now story.now)) }
    ensures parts { IfOk result (λ r. IfSome r (IsParting output.now (text_with inputs.now answers.now story.now))) }
{
    let table = &inputs.loaded.table;
    let totals = totals_of(inputs.summary, story, table.len() as u32);
    let text = output_text(
        alloc,
        table.schema(),
        &inputs.loaded.dicts,
        &inputs.outcomes,
        answers,
        totals,
        Some(story),
    )?;
    let parting = parting_of(alloc, output, text.as_slice())?;
    Ok(parting)
}
