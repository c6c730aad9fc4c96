// The Release of a chunk.
ghost use Rattle.std.specs.Prelude.{◌≡◌, [], None, Some};
ghost use Rattle.scan_story.specs.Legal.{Legal};
ghost use Rattle.scan_story.specs.Views.{past};
ghost use Rattle.cscan.specs.Answers.{Releases};
ghost use Rattle.cscan.specs.Scans.{IsAt};
ghost use Rattle.cscan.specs.Stations.{Waits};

use crate::desk::take_desk;
use crate::station::Station;
use abm_policy::Desk;
use baton::Baton;
use coop_outside::Depot;
use frame_pool::Content;
use frame_rows::Given;
use interest_book::Policy;
use scan_story::Origin;
use std::sync::Wait;

/// Appends the Release of a chunk that was out. The berth has no pin by then, so whoever sees the Release finds the
/// frames without one of the worker's.
pub(crate) fn note_release<S: Origin, C: Content, P: Policy, D: Depot, R: Wait>(
    rt: &R,
    baton: &Baton<Desk<S, P, D>>,
    station: &mut Station<S, C, P, D>,
    query: u32,
    given: &Given,
)
    requires waits { Waits baton.now S.origin station.old.number station.old.pass }
    requires unpinned { station.old.berth.pins ≡ [] }
    requires at { IsAt S.origin.setting (past station.old.pass.seen) station.old.number query (Some given.now) }
    requires legal { Legal S.origin.setting (past station.old.pass.seen) }
    ensures number { station.new.number ≡ station.old.number }
    ensures berth { station.new.berth ≡ station.old.berth }
    ensures buf { station.new.buf ≡ station.old.buf }
    ensures waits { Waits baton.now S.origin station.new.number station.new.pass }
    ensures legal { Legal S.origin.setting (past station.new.pass.seen) }
    ensures at { IsAt S.origin.setting (past station.new.pass.seen) station.new.number query None }
    ensures released { Releases station.old.number query station.old.pass station.new.pass given.now.chunk }
{
    let mut desk = take_desk(rt, baton, &mut station.pass);
    desk.release(station.number, query, given.chunk);
    baton.give(rt, &mut station.pass, desk);
}
