// The verdict on an output.
ghost use Rattle.std.specs.Prelude.{◌≡◌, ◌≤◌, ◌<◌, ◌+◌, ◌^◌, IfOk, length, take};
ghost use Rattle.run_ends.specs.Running.{CanRun};
ghost use Rattle.inspect_verdict.specs.Verdict as spec;
ghost use Rattle.inspect_verdict.specs.Verdict.{IsVerdict};

use crate::answers::answers_of;
use crate::judging::{Judged, judge_run};
use crate::output_reading::{Told, read_output};
use crate::part::behind_line;
use crate::parting::Parting;
use crate::stops::{answers_with, stops_of};
use crate::unfit::Unfit;
use crate::writing::parting_from;
use inspect_referee::{Counts, Reason};
use run_ends::{Counts as Spent, tasks_of};
use run_inputs::Inputs;
use scan_story::{Entry, PolicyName};
use std::alloc::Global;
use table_core::Memory;

/// What a text is, as the output of a run.
#[derive(Debug, Drop, PartialEq, Eq)]
pub enum Verdict {
    /// It is the output of a run: its story has so many entries, read so many pieces, and has so many entries of each
    /// kind. Where each query reads for itself, so many pieces are read `apart`.
    Legal {
        entries: usize,
        reads: u64,
        apart: u64,
        counts: Counts,
    },
    /// For the statement of this number neither what it prints stands, nor the line of a query that was stopped: there
    /// the output parts from what the statement prints behind those before it.
    NotAnswered {
        query: usize,
        parting: Parting,
    },
    /// Behind the statements, at this line of the output, from 1, there is no summary, though one was asked for.
    NoSummary {
        line: u64,
    },
    /// Where the trace should begin, at this line of the output, from 1, the output ends, though there is a query.
    NoTrace {
        line: u64,
    },
    /// This line of the output, counted from 1, is the first of the trace that is no entry's.
    NotStory {
        line: u64,
    },
    /// The entry at this line of the output, from 1, and this place of the story, from 0, is the first that may not
    /// come where it stands: it breaks this rule, or there was this better choice.
    Illegal {
        line: u64,
        place: usize,
        reason: Reason,
    },
    /// The entry at this line of the output, from 1, and this place of the story, from 0, keeps the rules of stories,
    /// but is none of a run with these words: it is the first, for this reason.
    Unfit {
        line: u64,
        place: usize,
        why: Unfit,
    },
    /// The story is legal, but a query isn't over, so a chunk that it needs was not delivered exactly once, or
    /// something is left open. The output ends before this line, counted from 1.
    NotWhole {
        line: u64,
    },
    /// The story is legal and whole, but the line of a query that was stopped, or the summary, isn't that of the story:
    /// there the output parts from what a run with this story prints.
    Differs {
        parting: Parting,
    },
}

// The verdict on a story that is legal, but isn't whole, and of which the first entry stands at this line.
fn left_open(first: u64, story: &[Entry]) -> Verdict
    requires { first + length story.now < 2 ^ 64 }
    ensures { result ≡ spec.left_open first story.now }
{
    if story.is_empty() {
        return Verdict::NoTrace { line: first };
    }
    Verdict::NotWhole {
        line: first + story.len() as u64,
    }
}

// The verdict on a text, in which the first line that is no entry's is told before all entries.
fn verdict_on(
    alloc: Global,
    inputs: &Inputs,
    policy: PolicyName,
    scratch: bool,
    output: &[u8],
) -> Result<Verdict, Memory>
    requires can { CanRun inputs.now }
    requires short { length output.now ≤ 2 ^ 30 }
    ensures verdict { IfOk result (IsVerdict inputs.now policy scratch output.now) }
{
    let tasks = tasks_of(alloc, &inputs.outcomes)?;
    let plain = answers_of(alloc, &inputs.outcomes, &inputs.loaded.table)?;
    let Told {
        lines,
        story,
        first,
    } = match read_output(alloc, inputs, &plain, output)? {
        Ok(told) => told,
        Err(verdict) => return Ok(verdict),
    };
    let (counts, apart) = match judge_run(alloc, inputs, &tasks, policy, scratch, &story)? {
        Judged::Legal { counts, apart } => (counts, apart),
        Judged::Illegal { place, reason } => {
            let line = first + place as u64;
            return Ok(Verdict::Illegal {
                line,
                place,
                reason,
            });
        }
        Judged::Unfit { place, why } => {
            let at = first + place as u64;
            return Ok(Verdict::Unfit {
                line: at,
                place,
                why,
            });
        }
        Judged::NotWhole => return Ok(left_open(first, &story)),
    };
    let stops = stops_of(alloc, &story, inputs.options.parts, &tasks, &lines)?;
    let answers = answers_with(alloc, &stops, plain)?;
    let other = parting_from(alloc, inputs, &answers, &story, output)?;
    match other {
        Some(parting) => Ok(Verdict::Differs { parting }),
        None => Ok(Verdict::Legal {
            entries: story.len(),
            reads: Spent::of(&story).reads,
            apart,
            counts,
        }),
    }
}

// The verdict on a text, where a front of it has this one: an entry that may not come there is earlier.
fn earlier_of(verdict: Verdict, front: Verdict) -> Verdict
    ensures { result ≡ spec.earlier_of verdict front }
{
    match front {
        Verdict::Illegal { .. } => front,
        Verdict::Unfit { .. } => front,
        _ => verdict,
    }
}

// Where the line of this number begins; the end of the text, where it has fewer.
fn start_of_line(text: &[u8], line: u64) -> usize
    ensures { result ≤ length text.now }
{
    let mut left = text;
    for _ in 1..line {
        left = behind_line(left).unwrap_or(b"");
    }
    text.len().saturating_sub(left.len())
}

// The first bytes of a text.
fn front_of(text: &[u8], bytes: usize) -> &[u8]
    requires { bytes ≤ length text.now }
    ensures { result.now ≡ take bytes text.now }
{
    &text[..bytes]
}

/// Whether a text of at most 2^30 bytes is the output of a run of these inputs under the policy of this name, which
/// keeps its pieces in a scratch file or, without `scratch`, in memory, and of which length; or the first that stands
/// in the way: of several entries and lines of the trace the first. The error is out of memory.
///
/// `Legal` comes exactly where it is one: some story in the setting of the run is legal, whole and undisturbed, each
/// worker registered its scans in the order of the batch, each read failed as it may, and the text is the answers
/// computed over the whole table, for each query that the story stopped its line, the summary where the inputs ask for
/// one, and the story. The text ends with the trace, whether the inputs ask for it or not.
pub fn verdict_of(
    alloc: Global,
    inputs: &Inputs,
    policy: PolicyName,
    scratch: bool,
    output: &[u8],
) -> Result<Verdict, Memory>
    requires can { CanRun inputs.now }
    requires short { length output.now ≤ 2 ^ 30 }
    ensures verdict { IfOk result (IsVerdict inputs.now policy scratch output.now) }
{
    let verdict = verdict_on(alloc, inputs, policy, scratch, output)?;
    let Verdict::NotStory { line } = verdict else {
        return Ok(verdict);
    };
    let front = verdict_on(
        alloc,
        inputs,
        policy,
        scratch,
        front_of(output, start_of_line(output, line)),
    )?;
    Ok(earlier_of(verdict, front))
}
