// The line of a policy's run.
ghost use Rattle.std.specs.Prelude.{◌≡◌, ◌<◌, ◌++◌, ◌^◌, OnErr, OnOk, length};
ghost use Rattle.scan_story.specs.Views.{past};
ghost use Rattle.table_core.specs.Writing.{GrewByPrefix};
ghost use Rattle.run_ends.specs.Lines.{AreSmall, counted, name_text};

use crate::counts::Counts;
use run_output::write_policy_line;
use scan_story::{Entry, PolicyName};
use table_core::{Bytes, Memory};

// A policy's name in small letters.
fn name_text(name: PolicyName) -> &'static str
    ensures { result.now ≡ name_text name }
{
    match name {
        PolicyName::Relevance => "relevance",
        PolicyName::Elevator => "elevator",
        PolicyName::Normal => "normal",
        PolicyName::Attach => "attach",
    }
}

/// Puts the line of a policy's run at the end. The numbers of its scans are below 1024.
///
/// Out of memory leaves what was there and a prefix of it.
pub fn write_line(out: &mut Bytes, name: PolicyName, story: &[Entry]) -> Result<(), Memory>
    requires small { AreSmall (past story.now) }
    ensures line { OnOk result (out.new ≡ out.old ++ counted name (past story.now)) }
    ensures memory { OnErr result (GrewByPrefix out.old out.new (counted name (past story.now))) }
{
    let counts = Counts::of(story);
    write_policy_line(
        out,
        name_text(name),
        counts.reads,
        counts.evictions,
        counts.deliveries,
        u64::from(counts.stopped.len()),
    )
}
