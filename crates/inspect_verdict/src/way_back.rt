// What a run prints is judged legal.
ghost use Rattle.std.specs.Prelude.{◌≡◌};
ghost use Rattle.command_words.specs.Options.{Request as RequestOf};
ghost use Rattle.run_ends.specs.Did.{Did as DidOf, work_of};
ghost use Rattle.run_ends.specs.Joined.{joined_story};
ghost use Rattle.run_ends.specs.OverDevices.{Devices as DevicesOf};
ghost use Rattle.run_ends.specs.Policies.{PolicyAt as PolicyAtOf};
ghost use Rattle.run_ends.specs.Runs.{DidRuns as DidRunsOf, work_under};
ghost use Rattle.inspect_verdict.specs.Back.{HasPrinted, HasPrintedOn, IsJudgedBack};

use inspect_story::numbers_fit;
use scan_story::Entry;

/// What `run` and `run_boxed` of coop_run print with status 0 or 1 and the trace, under these words, is judged legal,
/// over every device: a law, about the story that they answer. Over a depot that tells what it holds nothing more is
/// asked; over one that tells nothing no run promises that the pieces that it reads are those of the table, so it is
/// said of what is sound. It takes no memory.
pub fn printed_runs_are_legal(story: &[Entry])
    ensures run { (r : RequestOf) (over : DevicesOf) (did : DidOf) → did.story ≡ story.now → HasPrinted r over did
        → IsJudgedBack r over.shelf over.sink (work_of over did) }
    ensures run_boxed { (r : RequestOf) (p : PolicyAtOf) (over : DevicesOf) (did : DidRunsOf)
        → joined_story did.runs ≡ story.now → HasPrintedOn r p over did
        → IsJudgedBack r over.shelf over.sink (work_under p over.depot.old over.depot.new did.runs) }
{
    numbers_fit(story);
}
