//! One visit to the lobby, and its steps.
ghost use Rattle.std.specs.Prelude.{◌≡◌, ◌+◌, ◌<◌, ◌^◌, MatchBool};
ghost use Rattle.baton.specs.declared.standing.Standing.TheVariants.{Out, Read, Entered, Taken};
ghost use Rattle.baton.specs.Visits.{Stands, OwesNoCall};

use crate::lobby::{CALLS, Lobby, WAITING};
use crate::waits::{Comes, Enters, GuestSeat, Raises, TakesOne};
use std::marker::Model;

/// A worker on a visit to the lobby: it is to wait, or to call one that waits.
///
/// Contracts see its lobby, how often somebody was called until it came, and its standing. It must be ended by `leave`.
pub(crate) struct Guest {
    seat: GuestSeat,
    pub(crate) calls: u64,
}

impl Model for Guest {
    ghost use Rattle.std.specs.Prelude.{◌≡◌, []};
    ghost use Rattle.baton.specs.Visits.{GuestView};

    ghost Value = { GuestView };

    ghost view = { λ g. record { lobby = g.seat.table_id; calls = g.calls; standing = g.seat.me.0 } };

    ghost invariant = { λ g. g.seat.me.1 ≡ [] };
}

impl Guest {
    /// Ends the visit.
    pub(crate) fn leave(self)
        requires { OwesNoCall self.standing }
    {
        let Guest { seat, calls: _ } = self;
        drop(seat);
    }
}

impl Lobby {
    /// A guest comes, and reads how often somebody was called until now.
    pub(crate) fn come(&self) -> Guest
        ensures { Stands self.now result (Read result.calls) }
    {
        let (calls, seat) = self.words.shared.load_new_seat::<Comes>(CALLS);
        Guest { seat, calls }
    }

    /// Whether the guest was added to so many that wait.
    pub(crate) fn try_enter(&self, guest: &mut Guest, waiting: u64) -> bool
        requires room { waiting + 1 < 2 ^ 64 }
        requires read { Stands self.now guest.old (Read guest.old.calls) }
        ensures { MatchBool result (Stands self.now guest.new (Entered guest.new.calls))
            (Stands self.now guest.new (Read guest.new.calls)) }
    {
        let words = &self.words.shared;
        let seat = &mut guest.seat;
        words.compare_exchange::<Enters>(seat, WAITING, waiting, waiting + 1) == waiting
    }

    /// Whether the guest has taken away one of so many that wait, and is to call it.
    pub(crate) fn try_take_one(&self, guest: &mut Guest, waiting: u64) -> bool
        requires some { 0 < waiting }
        requires read { Stands self.now guest.old (Read guest.old.calls) }
        ensures { MatchBool result (Stands self.now guest.new Taken)
            (Stands self.now guest.new (Read guest.new.calls)) }
    {
        let words = &self.words.shared;
        let seat = &mut guest.seat;
        words.compare_exchange::<TakesOne>(seat, WAITING, waiting, waiting - 1) == waiting
    }

    /// Whether the guest has added the call of the one that it took away to so many.
    pub(crate) fn try_raise(&self, guest: &mut Guest, calls: u64) -> bool
        requires room { calls + 1 < 2 ^ 64 }
        requires taken { Stands self.now guest.old Taken }
        ensures { MatchBool result (Stands self.now guest.new Out) (Stands self.now guest.new Taken) }
    {
        let words = &self.words.shared;
        let seat = &mut guest.seat;
        words.compare_exchange::<Raises>(seat, CALLS, calls, calls + 1) == calls
    }
}
