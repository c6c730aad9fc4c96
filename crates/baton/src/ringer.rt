//! Who notes at the bell that a worker sleeps or is awake, and the steps.
ghost use Rattle.std.specs.Prelude.{◌≡◌, ◌<◌};
ghost use Rattle.baton.specs.declared.rest.Rest.TheVariants.{Idle, Lies};
ghost use Rattle.baton.specs.Ringing.{IsAt, MayRing, OwesNoRing};

use crate::bell::{Bell, PLACES};
use crate::rings::{Clears, Counts, Hears, LiesDown, RaisesRings, RingerSeat};
use std::marker::Model;

/// One call of the bell, on its way: it notes that a worker sleeps, or that one is awake, and rings for that one.
///
/// Contracts see its bell and what it has done. It must be ended by `leave`.
pub(crate) struct Ringer {
    seat: RingerSeat,
}

impl Model for Ringer {
    ghost use Rattle.std.specs.Prelude.{◌≡◌, []};
    ghost use Rattle.baton.specs.Ringing.{RingerView};

    ghost Value = { RingerView };

    ghost view = { λ r. record { bell = r.seat.table_id; rest = r.seat.me.0 } };

    ghost invariant = { λ r. r.seat.me.1 ≡ [] };
}

impl Ringer {
    /// Ends it.
    pub(crate) fn leave(self)
        requires { OwesNoRing self.rest }
    {
        let Ringer { seat } = self;
        drop(seat);
    }
}

impl Bell {
    /// Notes that the worker sleeps for the query. How often it was rung for until then.
    pub(crate) fn note(&self, worker: u32, query: u32) -> (u64, Ringer)
        requires worker { worker < 32 }
        requires query { 0 < query }
        ensures { IsAt self.now result.1 (Lies worker result.0) }
    {
        let place = (PLACES + worker) as usize;
        // (heard first: whoever clears the place before its worker sleeps changes the count)
        let (rings, mut seat) = self.words.shared.load_new_seat::<Hears>(worker as usize);
        self.words
            .shared
            .store::<LiesDown>(&mut seat, place, query as u64);
        (rings, Ringer { seat })
    }

    /// Notes that the worker is awake. The query that it slept for until now, or 0, and who is to ring for it if so.
    pub(crate) fn clear(&self, worker: u32) -> (u64, Ringer)
        requires { worker < 32 }
        ensures bell { result.1.bell ≡ self.now }
        ensures ring { MayRing worker result.1.rest }
        ensures awake { result.0 ≡ 0 → result.1.rest ≡ Idle }
    {
        let place = (PLACES + worker) as usize;
        let (query, seat) = self.words.shared.swap_new_seat::<Clears>(place, 0);
        (query, Ringer { seat })
    }

    /// Counts a ring for the worker.
    pub(crate) fn raise(&self, ringer: &mut Ringer, worker: u32)
        requires worker { worker < 32 }
        requires ring { (ringer.old.bell ≡ self.now) × MayRing worker ringer.old.rest }
        ensures { IsAt self.now ringer.new Idle }
    {
        let words = &self.words.shared;
        let rings = words.load::<Counts>(&mut ringer.seat, worker as usize);
        let more = rings.saturating_add(1);
        words.fetch_max::<RaisesRings>(&mut ringer.seat, worker as usize, more);
    }
}
