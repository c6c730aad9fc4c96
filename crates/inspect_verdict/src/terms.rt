// The terms of a run.
ghost use Rattle.std.specs.Prelude.{◌≡◌, ◌≤◌, ◌*◌, All, IfOk, IfSome, length, map};
ghost use Rattle.table_sets.specs.Sets.{Rising};
ghost use Rattle.filter_zones.specs.Truth.{FitsRow};
ghost use Rattle.piece_format.specs.Shape.{IsShape, groups};
ghost use Rattle.scan_story.specs.Setting.{HasRoom, IsSetting, first_cursor};
ghost use Rattle.inspect_referee.specs.Terms.{setting_of};
ghost use Rattle.table_pieces.specs.Shaping as spec;
ghost use Rattle.table_pieces.specs.Zoning.{chunk_zones};
ghost use Rattle.batch_plan.specs.Setting.{AreOptions, NamesColumns, batch_setting};

use batch_plan::{Options, Task, needs_of};
use inspect_referee::Terms;
use piece_format::groups_in;
use scan_story::PolicyName;
use std::alloc::Global;
use table_core::{Dict, Memory, Table};
use table_pieces::{chunks_of, shape_of, zones_of_chunks};

/// The terms of a run under the policy of this name: their setting is that which the manager of its batch is made for,
/// over a table with its dictionaries.
///
/// The conditions are those of `batch_run::run_batch`. The table keeps the limits of shapes, and its cells fit its
/// columns. The tasks' numbers rise and make at most 256 scans; each plan names columns of the table, and each
/// condition fits its rows. The error is out of memory.
pub fn terms_of(
    alloc: Global,
    table: &Table,
    dicts: &[Dict],
    tasks: &[Task<'_>],
    options: &Options,
    policy: PolicyName,
) -> Result<Terms, Memory>
    requires limits { IsShape (spec.shape_of table.now dicts.now options.now.layout options.now.per) }
    requires fits { spec.FitsDicts table.now dicts.now }
    requires options { AreOptions (groups (spec.shape_of table.now dicts.now options.now.layout options.now.per))
        options.now }
    requires numbers { Rising 1 (map (λ t. t.query) tasks.now) 257 }
    requires scans { All (λ t. t.query * options.now.parts ≤ 256) tasks.now }
    requires columns { All (λ t. NamesColumns
        (length (spec.shape_of table.now dicts.now options.now.layout options.now.per).kinds) t.plan) tasks.now }
    requires conditions { All (λ t. IfSome t.plan.cond (λ c. All (FitsRow c) table.now.rows)) tasks.now }
    ensures setting { let z = spec.shape_of table.now dicts.now options.now.layout options.now.per in
        IfOk result (λ t. setting_of t
        ≡ batch_setting z (chunk_zones z table.now.rows) tasks.now options.now policy (first_cursor policy)) }
    ensures may { IfOk result (λ t. IsSetting (setting_of t)) }
    ensures room { IfOk result (λ t. HasRoom (setting_of t)) }
{
    let shape = shape_of(alloc, table, dicts, options.layout, options.per)?;
    let zones = zones_of_chunks(alloc, &shape, table)?;
    let needs = needs_of(alloc, &shape, &zones, tasks, options)?;
    Ok(Terms {
        needs,
        chunks: chunks_of(&shape),
        workers: options.workers,
        frames: options.frames,
        groups: groups_in(options.layout, shape.kinds.len() as u32),
        policy,
    })
}
