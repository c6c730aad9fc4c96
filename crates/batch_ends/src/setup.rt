// What a batch makes before its scans.
ghost use Rattle.std.specs.Prelude.{◌≡◌, ◌≤◌, ◌*◌, [], All, IfOk, IfSome, IsOk};
ghost use Rattle.std.specs.Prelude.{List, Some, ℕ, length, map, vec_capacity};
ghost use Rattle.std.specs.List.{AllZip};
ghost use Rattle.table_sets.specs.Sets.{Rising};
ghost use Rattle.filter_zones.specs.Possible as possible;
ghost use Rattle.filter_zones.specs.Truth.{FitsRow};
ghost use Rattle.filter_zones.specs.declared.cond.Cond.{Cond};
ghost use Rattle.piece_format.specs.Cells.{IsTableOf};
ghost use Rattle.piece_format.specs.Shape.{IsShape, groups};
ghost use Rattle.scan_story.specs.Setting.{HasRoom, IsSetting};
ghost use Rattle.scan_story.specs.declared.setting.PolicyName.{PolicyName};
ghost use Rattle.table_pieces.specs.Shaping as spec;
ghost use Rattle.table_pieces.specs.Zoning.{NoMatchOutside, chunk_zones};
ghost use Rattle.batch_plan.specs.Scans.{needs, scans};
ghost use Rattle.batch_plan.specs.Setting.{AreOptions, NamesColumns, batch_setting};
ghost use Rattle.batch_ends.specs.Noting.{IsOpened};

use crate::taken::Taken;
use crate::takings::takings_of;
use batch_plan::{Options, Task, needs_of};
use chunk_interest::Need;
use piece_format::Shape;
use query_gather::Answer;
use std::alloc::Global;
use table_core::{Dict, Memory, Table};
use table_pieces::{shape_of, zones_of_chunks};

/// What all scans of a batch share, and room for what is told of them and for the answers.
#[derive(Drop)]
pub struct Setup {
    pub shape: Shape,
    /// What each scan needs.
    pub needs: Vec<Need>,
    pub answers: Vec<Answer>,
    /// Who each scan is, with room for the chunks that it needs.
    pub taken: Vec<Taken>,
}

/// Makes what the scans of a batch share, with room for an answer to each task.
pub fn set_up(
    alloc: Global,
    table: &Table,
    dicts: &[Dict],
    tasks: &[Task<'_>],
    options: &Options,
) -> Result<Setup, Memory>
    requires limits { IsShape (spec.shape_of table.now dicts.now options.now.layout options.now.per) }
    requires fits { spec.FitsDicts table.now dicts.now }
    requires options { AreOptions (groups (spec.shape_of table.now dicts.now options.now.layout options.now.per))
        options.now }
    requires numbers { Rising 1 (map (λ t. t.query) tasks.now) 257 }
    requires scans { All (λ t. t.query * options.now.parts ≤ 256) tasks.now }
    requires columns { All (λ t. NamesColumns
        (length (spec.shape_of table.now dicts.now options.now.layout options.now.per).kinds) t.plan) tasks.now }
    requires conditions { All (λ t. IfSome t.plan.cond (λ c. All (FitsRow c) table.now.rows)) tasks.now }
    ensures shape { IfOk result (λ m. m.shape ≡ spec.shape_of table.now dicts.now options.now.layout options.now.per) }
    ensures table { IfOk result (λ m. IsTableOf m.shape table.now) }
    ensures needs { IfOk result (λ m. m.needs.items
        ≡ needs (chunk_zones m.shape table.now.rows) options.now.parts
        (scans options.now.workers options.now.parts tasks.now)) }
    ensures setting { IfOk result (λ m. (name : PolicyName) (cursor : List ℕ)
        → IsSetting (batch_setting m.shape (chunk_zones m.shape table.now.rows) tasks.now options.now name cursor)) }
    ensures room { IfOk result (λ m. (name : PolicyName) (cursor : List ℕ)
        → HasRoom (batch_setting m.shape (chunk_zones m.shape table.now.rows) tasks.now options.now name cursor)) }
    ensures outside { IfOk result (λ m. (c : Cond) → All (FitsRow c) table.now.rows
        → NoMatchOutside m.shape table.now.rows c (possible.needed (Some c) (chunk_zones m.shape table.now.rows))) }
    ensures answers { IfOk result (λ m. m.answers.items ≡ []) }
    ensures answers_room { IfOk result (λ m. length tasks.now ≤ vec_capacity m.answers) }
    ensures taken { IfOk result (λ m. AllZip (IsOpened options.now.parts) m.needs.items m.taken.items) }
{
    let shape = shape_of(alloc, table, dicts, options.layout, options.per)?;
    let zones = zones_of_chunks(alloc, &shape, table)?;
    let needs = needs_of(alloc, &shape, &zones, tasks, options)?;
    let answers = Vec::with_capacity(alloc, tasks.len())?;
    let taken = takings_of(alloc, &needs, options.parts)?;
    Ok(Setup {
        shape,
        needs,
        answers,
        taken,
    })
}
