//! The steps on the queue.
ghost use Rattle.std.specs.Prelude.{◌≡◌, MatchOption, true};
ghost use Rattle.crossbeam_queue.specs.Passes.{view, IsPassOf, ruled_capacity};
ghost use Rattle.scan_story.specs.Makers.{Adds};
ghost use Rattle.baton.specs.declared.view.Role.TheVariants.{Worker};
ghost use Rattle.baton.specs.Shares.{Agrees};
ghost use Rattle.baton.specs.Steps.{Took, Gave};

use crate::lobby::Lobby;
use crate::rule::{Absorbs, Gives, Rule, Takes};
use crate::view::View;
use crossbeam_queue::{Pass as Seat, RuledArrayQueue};
use crossbeam_utils::Backoff;
use scan_story::Storied;
use std::sync::Wait;

/// The queue that holds the state.
pub(crate) type Line<T> = RuledArrayQueue<T, View, Rule>;

// How often a worker looks for the state before it sleeps: for some microseconds, and then while others run.
const LOOKS: u32 = 11;

// Takes the state, and waits until it is there: first awake, then asleep.
pub(crate) fn pop<T: Storied + Drop, R: Wait>(
    rt: &R,
    line: &Line<T>,
    lobby: &Lobby,
    seat: &mut Seat<T, View>,
) -> T
    requires queue { IsPassOf line.now seat.old }
    requires role { (view seat.old).role ≡ Worker }
    ensures queue { IsPassOf line.now seat.new }
    ensures took { Took T.origin T.story (view seat.old) result (view seat.new) }
{
    for _ in rt.forever() {
        if let Some(state) = look(rt, line, seat) {
            return state;
        }
        if let Some(state) = look_and_sleep(rt, line, lobby, seat) {
            return state;
        }
    }
    unreachable!()
}

// Takes the state where it is there now or soon.
fn look<T: Storied + Drop, R: Wait>(rt: &R, line: &Line<T>, seat: &mut Seat<T, View>) -> Option<T>
    requires queue { IsPassOf line.now seat.old }
    requires role { (view seat.old).role ≡ Worker }
    ensures queue { IsPassOf line.now seat.new }
    ensures took { MatchOption result (view seat.new ≡ view seat.old)
        (λ state. Took T.origin T.story (view seat.old) state (view seat.new)) }
{
    let backoff = Backoff::new();
    for _ in 0..LOOKS {
        match line.pop_as::<Takes, R>(rt, seat) {
            Some(state) => return Some(state),
            None => backoff.snooze(),
        }
    }
    None
}

// Takes the state where it is there now, and else sleeps until a call.
fn look_and_sleep<T: Storied + Drop, R: Wait>(
    rt: &R,
    line: &Line<T>,
    lobby: &Lobby,
    seat: &mut Seat<T, View>,
) -> Option<T>
    requires queue { IsPassOf line.now seat.old }
    requires role { (view seat.old).role ≡ Worker }
    ensures queue { IsPassOf line.now seat.new }
    ensures took { MatchOption result (view seat.new ≡ view seat.old)
        (λ state. Took T.origin T.story (view seat.old) state (view seat.new)) }
{
    let guest = lobby.enter(rt);
    match line.pop_as::<Takes, R>(rt, seat) {
        Some(state) => {
            guest.leave();
            Some(state)
        }
        None => {
            lobby.sleep(rt, guest);
            None
        }
    }
}

// Gives the state back. There is always room.
pub(crate) fn push<T: Storied + Drop, R: Wait>(
    rt: &R,
    line: &Line<T>,
    seat: &mut Seat<T, View>,
    state: T,
)
    requires queue { IsPassOf line.now seat.old × (ruled_capacity line.now ≡ 1) }
    requires holding { ((view seat.old).role ≡ Worker) × ((view seat.old).holding ≡ true) }
    requires origin { T.origin state ≡ (view seat.old).share.origin }
    requires story { Adds (view seat.old).share.number (view seat.old).share.seen (T.story state) }
    ensures queue { IsPassOf line.now seat.new }
    ensures gave { Gave T.story (view seat.old) state (view seat.new) }
{
    match line.push_as::<Gives, R>(rt, seat, state) {
        Ok(()) => {}
        Err(_) => unreachable!(),
    }
}

// Takes over another pass, which is spent, and learns that its own state agrees with it.
pub(crate) fn absorb<T: Storied + Drop>(
    line: &Line<T>,
    seat: &mut Seat<T, View>,
    other: Seat<T, View>,
)
    requires queue { IsPassOf line.now seat.old × IsPassOf line.now other }
    requires holding { ((view seat.old).role ≡ Worker) × ((view seat.old).holding ≡ true) }
    requires other { (view other).role ≡ Worker }
    ensures queue { IsPassOf line.now seat.new }
    ensures same { ((view seat.new).role ≡ Worker) × ((view seat.new).holding ≡ true)
        × ((view seat.new).share ≡ (view seat.old).share) }
    ensures agrees { Agrees (view seat.old).share.origin (view seat.old).share.seen (view other).share }
{
    line.absorb::<Absorbs>(seat, other);
    line.learn_as::<Absorbs>(seat);
}
