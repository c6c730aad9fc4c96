// What holds of every deal, and of the needs that are dealt.
ghost use Rattle.std.specs.Prelude.{◌<◌, ℕ, All, List, IsPermutation};
ghost use Rattle.table_sets.specs.Sets.{AreMembers};
ghost use Rattle.filter_zones.specs.declared.zone.ChunkZones.{ChunkZones};
ghost use Rattle.piece_format.specs.Shape.{TableShape};
ghost use Rattle.scan_story.specs.declared.setting.PolicyName.{PolicyName};
ghost use Rattle.batch_plan.specs.declared.options.Options.{Options};
ghost use Rattle.batch_plan.specs.declared.task.Task.{Task};
ghost use Rattle.batch_plan.specs.Adding.{AddUp};
ghost use Rattle.batch_plan.specs.Deal.{dealt_to};
ghost use Rattle.batch_plan.specs.Setting.{IsBatch, batch_setting};

/// The chunks of all parts, one part after another, are the needed ones in another order: each of them once. A law, for
/// the rows of a query in parts. It does nothing.
pub fn all_are_dealt()
    ensures { (needed : List ℕ) (parts : ℕ) → AreMembers 1024 needed → 0 < parts
        → IsPermutation needed (dealt_to needed parts parts) }
{}

/// In the setting of a batch the scans of a query's parts ask for the chunks that the query needs, each of them once,
/// and no two of them for one chunk. A law, for what a whole batch takes. It does nothing.
pub fn needs_add_up()
    ensures { (z : TableShape) (zones : List ChunkZones) (tasks : List Task) (o : Options) (name : PolicyName)
        (cursor : List ℕ) → IsBatch z zones tasks o
        → All (AddUp (batch_setting z zones tasks o name cursor) zones o.parts) tasks }
{}
