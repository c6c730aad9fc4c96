ghost use Rattle.std.specs.Prelude.{◌≡◌, ◌≤◌, IfSome, option_map};
ghost use Rattle.command_words.specs.Options.{request_of, workers_of};
ghost use Rattle.command_words.specs.Limits.{IsWithinLimits};
ghost use Rattle.command_words.specs.Views.{request_view, values_view};

use crate::limits::{MOST_FRAMES, MOST_PARTS, MOST_WORKERS, USUAL_CHUNK_ROWS, USUAL_WORKERS};
use crate::names::{Table, layout_or, policy_or, scratch_or};
use crate::numbers::{number_or, optional_number};
use crate::values::Values;
use piece_format::Layout;
use scan_story::PolicyName;
use table_core::MOST_CHUNK_ROWS;

/// What the words ask for.
#[derive(Clone, Copy, Debug, PartialEq, Eq)]
pub struct Request<'a> {
    /// How many workers run, from 1 to `MOST_WORKERS`.
    pub workers: u32,
    /// How many frames there are, from 1 to `MOST_FRAMES`; `None` asks for the least number that is enough.
    pub frames: Option<u32>,
    /// How many rows a chunk has, from 1 to `MOST_CHUNK_ROWS`.
    pub per: u32,
    pub layout: Layout,
    /// In how many parts each query runs, from 1 to `MOST_PARTS`.
    pub parts: u32,
    /// The file that keeps the pieces; `None` keeps them in memory. The name isn't empty.
    pub scratch: Option<&'a str>,
    pub policy: PolicyName,
    /// Asks for the summary behind the answers.
    pub summary: bool,
    /// Asks for the story behind the answers.
    pub trace: bool,
    /// Asks for a line for each policy, in place of answers.
    pub compare: bool,
    /// The word TABLE. `Table::named` takes it where the command line gave it. A word that other settings gave is
    /// named by the same rule, and where that names nothing it is a file's name.
    pub table: &'a str,
    /// The word BATCH.
    pub batch: &'a str,
}

impl<'a> Request<'a> {
    /// What the values ask for.
    pub(crate) fn of(values: Values<'a>) -> Option<Request<'a>>
        ensures request { option_map request_view result ≡ request_of (values_view values.entry) }
        ensures limits { IfSome result (λ r. IsWithinLimits (request_view r)) }
    {
        if values.compare {
            if values.policy.is_some() {
                return None;
            }
            if values.summary {
                return None;
            }
            if values.trace {
                return None;
            }
        }
        let workers = workers_of(&values)?;
        let frames = optional_number(values.frames, 1, MOST_FRAMES)?;
        let per = number_or(values.rows, 1, MOST_CHUNK_ROWS, USUAL_CHUNK_ROWS)?;
        let layout = layout_or(values.layout)?;
        let parts = number_or(values.parts, 1, MOST_PARTS, 1)?;
        let scratch = scratch_or(values.scratch)?;
        let policy = policy_or(values.policy)?;
        let table = values.table?;
        let batch = values.batch?;
        Table::named(table)?;
        Some(Request {
            workers,
            frames,
            per,
            layout,
            parts,
            scratch,
            policy,
            summary: values.summary,
            trace: values.trace,
            compare: values.compare,
            table,
            batch,
        })
    }
}

// How many workers run: one where policies are compared.
fn workers_of(values: &Values<'_>) -> Option<u32>
    ensures number { result ≡ workers_of (values_view values.now) }
    ensures within { IfSome result (λ n. (1 ≤ n) × (n ≤ MOST_WORKERS)) }
{
    if values.compare {
        return number_or(values.threads, 1, 1, 1);
    }
    number_or(values.threads, 1, MOST_WORKERS, USUAL_WORKERS)
}
