// What the scans of a batch need.
ghost use Rattle.std.specs.Prelude.{◌≡◌, ◌≤◌, ◌<◌, ◌*◌, ◌+◌, ◌++◌, ℕ, List, IfOk, IsOk, OnOk, length};
ghost use Rattle.scan_story.specs.declared.setting.PolicyName.{PolicyName};
ghost use Rattle.scan_story.specs.Setting.{HasRoom, IsSetting};
ghost use Rattle.filter_zones.specs.Possible as possible;
ghost use Rattle.filter_zones.specs.declared.zone.ChunkZones.{ChunkZones as Zoned};
ghost use Rattle.table_sets.specs.Sets.{AreMembers};
ghost use Rattle.batch_plan.specs.Scans as spec;
ghost use Rattle.batch_plan.specs.Setting.{IsBatch, batch_setting};

use crate::dealing::deal;
use crate::options::Options;
use crate::task::Task;
use chunk_interest::Need;
use filter_zones::{ChunkZones, needed};
use piece_format::Shape;
use std::alloc::Global;
use table_core::{ChunkSet, Memory};

/// The number of the scan of a part of a query, where each query has so many parts.
///
/// Queries count from 1, parts from 0; the query's number times the parts is at most 256.
pub fn scan_number(parts: u32, query: u32, part: u32) -> u32
    requires query { 1 ≤ query }
    requires part { part < parts }
    requires few { query * parts ≤ 256 }
    ensures { result ≡ spec.scan_number parts query part }
{
    (query - 1) * parts + part + 1
}

// Adds the needs of the parts of a task, behind those of the tasks before it.
fn push_parts(
    needs: &mut Vec<Need>,
    chunks: &ChunkSet,
    task: &Task<'_>,
    workers: u32,
    parts: u32,
) -> Result<(), Memory>
    requires query { 1 ≤ task.now.query }
    requires parts { (1 ≤ parts) × (parts ≤ 32) }
    requires few { task.now.query * parts ≤ 256 }
    requires workers { 1 ≤ workers }
    requires short { length needs.old.items ≤ 256 * 32 }
    ensures { OnOk result ((zones : List Zoned) → chunks.now ≡ possible.needed task.now.plan.cond zones
        → needs.new.items
        ≡ needs.old.items
        ++ spec.needs zones parts (spec.scans_from_part workers parts task.now (length needs.old.items) 0 parts)) }
{
    for part in 0..parts {
        let place = needs.len() as u32;
        needs.push(Need {
            query: scan_number(parts, task.query, part),
            worker: place % workers,
            chunks: deal(chunks, parts, part),
            columns: task.plan.columns.copy(),
        })?;
    }
    Ok(())
}

/// What the scans of a batch need, in their order: of each task, in task order, each part, in part order. A scan needs
/// its part of the chunks that its query needs, and the columns of the query's plan; the workers take turns.
///
/// `IsBatch` has the conditions. With these needs the setting of the batch is one that a desk may be made for,
/// whatever the policy and its cursor, of which the limits don't speak.
pub fn needs_of(
    alloc: Global,
    shape: &Shape,
    zones: &[ChunkZones],
    tasks: &[Task<'_>],
    options: &Options,
) -> Result<Vec<Need>, Memory>
    requires { IsBatch shape.now zones.now tasks.now options.now }
    ensures needs { IfOk result (λ needs. needs.items
        ≡ spec.needs zones.now options.now.parts (spec.scans options.now.workers options.now.parts tasks.now)) }
    ensures setting { IsOk result → (name : PolicyName) (cursor : List ℕ)
        → IsSetting (batch_setting shape.now zones.now tasks.now options.now name cursor) }
    ensures room { (name : PolicyName) (cursor : List ℕ)
        → HasRoom (batch_setting shape.now zones.now tasks.now options.now name cursor) }
{
    let mut needs = Vec::new(alloc);
    for task in tasks {
        // Its contract says that the columns rise.
        let _columns = task.plan.columns.len();
        let chunks = needed(task.plan.cond.as_ref(), zones);
        push_parts(&mut needs, &chunks, task, options.workers, options.parts)?;
    }
    Ok(needs)
}
