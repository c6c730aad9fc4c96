// The story of a run, judged.
ghost use Rattle.std.specs.Prelude.{◌≡◌, IfOk, length};
ghost use Rattle.run_ends.specs.Running.{CanRun, shape_in};
ghost use Rattle.run_ends.specs.Tasks.{tasks_in};
ghost use Rattle.inspect_verdict.specs.Judged as spec;
ghost use Rattle.inspect_verdict.specs.Told.{run_setting};

use crate::apart::reads_apart;
use crate::terms_given::terms_with;
use crate::unfit::Unfit;
use crate::wording::{Fitting, fits_of};
use batch_plan::Task;
use inspect_referee::{Choices, Counts, Reason, Ruling, judge};
use run_inputs::Inputs;
use scan_story::{Entry, PolicyName};
use std::alloc::Global;
use table_core::Memory;
use table_pieces::shape_of;

/// What is said of the story of a run.
#[derive(Clone, Copy, Debug, PartialEq, Eq)]
pub(crate) enum Judged {
    /// It is legal and whole, no chunk was disturbed while it was held, and it has so many entries of each kind.
    /// Separate scans would read so many pieces.
    Legal { counts: Counts, apart: u64 },
    /// The entry at this place, from 0, is the first that may not come where it stands, for this reason.
    Illegal { place: usize, reason: Reason },
    /// The entry at this place, from 0, is the first that doesn't fit the words of the run, for this reason.
    Unfit { place: usize, why: Unfit },
    /// It is legal, but a query isn't over, or something is left open.
    NotWhole,
}

// The entries before the one that the ruling refuses.
fn legal_front(ruling: Ruling, story: &[Entry]) -> &[Entry]
    requires { spec.StandsIn ruling (length story.now) }
    ensures { result.now ≡ spec.legal_front ruling story.now }
{
    match ruling {
        Ruling::Legal { .. } => story,
        Ruling::Illegal { place, .. } => &story[..place],
    }
}

// What a ruling, and what is said of the entries before the one that it refuses, say of the story of a run for which
// separate scans would read so many pieces.
fn judged_by(ruling: Ruling, fits: Fitting, apart: u64) -> Judged
    ensures { result ≡ spec.judged_by ruling fits apart }
{
    if let Fitting::Unfit { place, why } = fits {
        return Judged::Unfit { place, why };
    }
    match ruling {
        Ruling::Illegal { place, reason } => Judged::Illegal { place, reason },
        Ruling::Legal { whole, counts } => {
            if whole && matches!(fits, Fitting::All) {
                return Judged::Legal { counts, apart };
            }
            Judged::NotWhole
        }
    }
}

/// Judges a story in the setting of a run under the policy of this name, which keeps its pieces in a scratch file or in
/// memory. The tasks are those of its statements. The error is out of memory.
pub(crate) fn judge_run(
    alloc: Global,
    inputs: &Inputs,
    tasks: &[Task<'_>],
    policy: PolicyName,
    scratch: bool,
    story: &[Entry],
) -> Result<Judged, Memory>
    requires can { CanRun inputs.now }
    requires tasks { tasks.now ≡ tasks_in 1 inputs.now.outcomes.items }
    ensures { IfOk result (spec.IsJudged (run_setting inputs.now policy) (shape_in inputs.now) scratch story.now) }
{
    let loaded = &inputs.loaded;
    let options = &inputs.options;
    let terms = terms_with(alloc, inputs, tasks, policy)?;
    let shape = shape_of(
        alloc,
        &loaded.table,
        &loaded.dicts,
        options.layout,
        options.per,
    )?;
    let ruling = judge(alloc, &terms, Choices::OfPolicy, story)?;
    let fits = fits_of(alloc, &terms, &shape, scratch, legal_front(ruling, story))?;
    Ok(judged_by(ruling, fits, reads_apart(&terms)))
}
