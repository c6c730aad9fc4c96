// The desk on a worker's pass.
ghost use Rattle.std.specs.Prelude.{◌≡◌, true};
ghost use Rattle.scan_story.specs.Legal.{Legal};
ghost use Rattle.scan_story.specs.Makers.{StartsWith, entries_by};
ghost use Rattle.scan_story.specs.Setting.{IsStart};
ghost use Rattle.scan_story.specs.Views.{past};
ghost use Rattle.baton.specs.Passes.{IsFree};

use abm_policy::Desk;
use baton::{Baton, Pass};
use coop_outside::Depot;
use interest_book::Policy;
use scan_story::Origin;
use std::sync::Wait;

/// Takes the desk, and waits until it lies there. The pass isn't holding.
///
/// The desk's story is legal, begins with what the pass had seen, and has just the pass's own entries of its worker.
pub(crate) fn take_desk<S: Origin, P: Policy, D: Depot, R: Wait>(
    rt: &R,
    baton: &Baton<Desk<S, P, D>>,
    pass: &mut Pass<Desk<S, P, D>>,
) -> Desk<S, P, D>
    requires { IsFree baton.now pass.old }
    ensures start { IsStart S.origin }
    ensures legal { Legal S.origin.setting (past result) }
    ensures origin { S.origin ≡ pass.old.origin }
    ensures seen { StartsWith result pass.old.seen }
    ensures mine { entries_by pass.old.number result ≡ pass.old.mine }
    ensures pass { pass.new ≡ record pass.old { seen = result; holding = true } }
{
    let desk = baton.take(rt, pass);
    desk.is_legal();
    desk
}
