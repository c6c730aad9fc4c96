// The scan of a part of a query.
ghost use Rattle.std.specs.Prelude.{◌≡◌, [], None};
ghost use Rattle.scan_story.specs.Setting.{IsStart};
ghost use Rattle.story_laws.specs.Queries.{chunks_delivered};
ghost use Rattle.query_gather.specs.Partial.{FitsPlan, Stands, row_count};
ghost use Rattle.cscan.specs.Scans.{IsSameScan, IsScan};
ghost use Rattle.batch_run.specs.Parts.{CameTo, ReadsPlan, WentFor};
ghost use Rattle.batch_ends.specs.Rows.{IsPlanOfShape};

use crate::rows::add_rows;
use coop_outside::Depot;
use cscan::{CScan, Gate, Next};
use frame_pool::Content;
use interest_book::Policy;
use piece_format::Shape;
use query_gather::Partial;
use scan_story::{Cause, Origin};
use sql_bind::Plan;
use std::sync::Wait;

/// Why a part has no rows to give.
#[derive(Clone, Copy)]
pub(crate) enum Unfinished {
    /// The scan was stopped, and is over.
    Stopped(Cause),
    /// Memory ran out for a row. The scan is still under way and has no chunk out: `CScan::stop` ends it.
    Memory,
}

/// Takes every chunk of a scan that has just begun, and gathers the rows of them that match the plan.
///
/// The shape is that of the scan, and the plan names the columns that the scan's query reads. The origin is one for a
/// desk. `into` has gathered nothing yet. The gate, which is of the scan's type of gates, is called once for each
/// chunk, while its frames are pinned and the baton lies free: a release takes what that call left. What is gathered
/// comes back where each chunk of the need was taken.
pub(crate) fn scan_part<S: Origin, C: Content, P: Policy, D: Depot, T: Gate, R: Wait>(
    rt: &R,
    scan: &mut CScan<'_, S, C, P, D, T>,
    shape: &Shape,
    plan: &Plan,
    into: Partial,
    gate: &T,
) -> Result<Partial, Unfinished>
    requires start { IsStart S.origin }
    requires scan { IsScan S.origin C.pieces scan.old }
    requires none { scan.old.out ≡ None }
    requires just_begun { chunks_delivered scan.old.station.now.pass.mine scan.old.query ≡ [] }
    requires shape { scan.old.shape.now ≡ shape.now }
    requires plan { IsPlanOfShape shape.now plan.now }
    requires columns { ReadsPlan S.origin.setting scan.old.query plan.now }
    requires empty { Stands into [] }
    requires no_rows { row_count into ≡ 0 }
    requires fits { FitsPlan plan.now into }
    ensures same { IsSameScan scan.old scan.new }
    ensures went { WentFor scan.old.query scan.old.station.now.pass scan.new.station.now.pass }
    ensures came { CameTo S.origin C.pieces scan.new plan.now result }
{
    let mut partial = into;
    for _ in rt.forever() {
        match scan.next(rt) {
            Next::Chunk(held, delivery) => {
                let called = gate.holding(rt, delivery);
                let added = add_rows(scan, &held, shape, plan, &mut partial);
                held.release(rt, scan, called);
                match added {
                    Ok(()) => {}
                    Err(_) => return Err(Unfinished::Memory),
                }
            }
            Next::Done => return Ok(partial),
            Next::Stopped(cause) => return Err(Unfinished::Stopped(cause)),
        }
    }
    unreachable!()
}
