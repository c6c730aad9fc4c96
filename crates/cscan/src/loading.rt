// A load, outside the turn.
ghost use Rattle.std.specs.Prelude.{◌≡◌, ◌+◌, ◌<◌, ◌++◌, ◌∷◌, [], ℕ, IfErr, OnOk, length, Some};
ghost use Rattle.scan_story.specs.Setting.{IsStart};
ghost use Rattle.scan_story.specs.Views.{past};
ghost use Rattle.scan_story.specs.Loads.{underway};
ghost use Rattle.scan_story.specs.Legal.{Legal};
ghost use Rattle.abm_policy.specs.Depots.{ComesBack, IsHandedOut, MayReport, depot_view};
ghost use Rattle.abm_policy.specs.Loads.{load_of};
ghost use Rattle.abm_policy.specs.Turns.{RunsOn, MayTurn};
ghost use Rattle.cscan.specs.Loading.{IsSettled, Settles};
ghost use Rattle.cscan.specs.Scans.{Fits};
ghost use Rattle.cscan.specs.Stations.{IsSeated};

use crate::desk::take_desk;
use crate::filling::{Failure, read_all};
use crate::station::Station;
use crate::waking::Woken;
use abm_policy::{Desk, Ticket};
use baton::Baton;
use coop_outside::Depot;
use frame_pool::{Content, Pool};
use interest_book::Policy;
use piece_format::Shape;
use scan_story::Origin;
use std::sync::Wait;

// Tells the desk what came of a load, and gives the depot back.
fn settle<S: Origin, P: Policy, D: Depot>(
    desk: &mut Desk<S, P, D>,
    ticket: Ticket,
    depot: D,
    read: Result<(), Failure>,
)
    requires load { underway S.origin.setting (past desk.old) ≡ Some (load_of ticket []) }
    requires read { OnOk read (ComesBack S.origin (past desk.old) (length ticket.slots)
        (depot_view (D.held depot) (D.gets depot) (D.faults depot))) }
    requires failed { IfErr read (λ f. (f.done < length ticket.slots)
        × ComesBack S.origin (past desk.old) (f.done + 1) (depot_view (D.held depot) (D.gets depot) (D.faults depot))) }
    requires why { IfErr read (λ f. MayReport S.origin (past desk.old) (D.faults depot) f.why) }
    ensures settled { Settles ticket.worker desk.old desk.new }
    ensures legal { Legal S.origin.setting (past desk.new) }
    ensures may { (q : ℕ) → RunsOn S.origin.setting (past desk.old) q ticket.worker
        → MayTurn S.origin.setting (past desk.new) ticket.worker q }
{
    match read {
        Ok(()) => desk.filled(ticket, depot),
        Err(Failure { done, why }) => desk.failed(ticket, depot, done, why),
    }
}

/// Reads the pieces of a ticket into their frames while the baton lies free, and takes it again to tell the desk.
pub(crate) fn load<S: Origin, C: Content, P: Policy, D: Depot, R: Wait>(
    rt: &R,
    baton: &Baton<Desk<S, P, D>>,
    pool: &Pool<C>,
    shape: &Shape,
    station: &mut Station<S, C, P, D>,
    loading: (Ticket, D),
)
    requires seated { IsSeated baton.now pool.now S.origin [] station.old }
    requires fits { Fits S.origin C.pieces shape.now pool.now }
    requires start { IsStart S.origin }
    requires legal { Legal S.origin.setting (past station.old.pass.seen) }
    requires worker { loading.0.worker ≡ station.old.number }
    requires load { underway S.origin.setting (past station.old.pass.seen) ≡ Some (load_of loading.0 []) }
    requires depot { IsHandedOut S.origin (past station.old.pass.seen) (length loading.0.slots)
        (depot_view (D.held loading.1) (D.gets loading.1) (D.faults loading.1)) }
    ensures seated { IsSeated baton.now pool.now S.origin [] station.new }
    ensures number { station.new.number ≡ station.old.number }
    ensures settled { IsSettled S.origin.setting station.old.number station.old.pass station.new.pass }
{
    let (ticket, mut depot) = loading;
    let read = read_all(
        rt,
        &station.pass,
        pool,
        shape,
        &mut station.berth,
        station.buf.as_mut_slice(),
        &mut depot,
        &ticket.slots,
    );
    let mut desk = take_desk(rt, baton, &mut station.pass);
    settle(&mut desk, ticket, depot, read);
    let bell = baton.bell();
    let woken = Woken::after_load(bell, desk.book());
    baton.give(rt, &mut station.pass, desk);
    woken.ring(bell);
}
