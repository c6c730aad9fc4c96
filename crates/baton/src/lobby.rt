ghost use Rattle.std.specs.Prelude.{◌≡◌, MatchBool};
ghost use Rattle.baton.specs.declared.standing.Standing.TheVariants.{Out, Read, Entered, Taken};
ghost use Rattle.baton.specs.Visits.{Stands};

use crate::guest::Guest;
use crate::waits::Words;
use scan_story::Memory;
use std::alloc::Global;
use std::marker::Model;
use std::sync::Wait;
use std::time::Duration;

// The word that is how many are to be called: with the calls on their way, no fewer than sleep.
pub(crate) const WAITING: usize = 0;

// The word that is how often somebody was called.
pub(crate) const CALLS: usize = 1;

// The microseconds after which a sleep ends, whether or not somebody was called.
const MOST: u64 = 10_000;

// Where workers sleep that have looked for the state in vain.
//
// Who sleeps has noted so before it looked for the last time, and whoever gives the state back calls afterwards. So
// either the one finds the state, or the other finds a sleeper to call.
#[derive(Drop)]
pub(crate) struct Lobby {
    pub(crate) words: Words,
}

impl Model for Lobby {
    ghost use Rattle.std.specs.Prelude.{◌≡◌};
    ghost use Rattle.atomic_table.specs.Seated.{TableId};

    ghost Value = { TableId };

    ghost view = { λ l. l.words.shared.table_id };

    ghost invariant = { λ l. l.words.shared.table_id.words ≡ 2 };
}

impl Lobby {
    pub(crate) fn new(alloc: Global) -> Result<Lobby, Memory> {
        match Words::of_words(alloc, &[0, 0], &()) {
            Ok((words, _seat)) => Ok(Lobby { words }),
            Err(_) => Err(Memory),
        }
    }

    // A guest that is to be called, which looks once more before it sleeps.
    pub(crate) fn enter<R: Wait>(&self, rt: &R) -> Guest
        ensures { Stands self.now result (Entered result.calls) }
    {
        // (comes first: whoever takes it out of WAITING before it sleeps changes the count of calls that it read)
        let mut guest = self.come();
        for _ in rt.forever() {
            let waiting = self.words.shared.peek(WAITING);
            if waiting < u64::MAX && self.try_enter(&mut guest, waiting) {
                return guest;
            }
        }
        unreachable!()
    }

    // The guest sleeps until somebody is called once more than when it came, and leaves. It may return early.
    pub(crate) fn sleep<R: Wait>(&self, rt: &R, guest: Guest)
        requires { Stands self.now guest (Entered guest.calls) }
    {
        let most = Duration::from_micros(MOST);
        let calls = (guest.calls & 0xffff_ffff) as u32;
        self.words.shared.park_timeout(rt, CALLS, calls, most);
        guest.leave();
    }

    // Calls one of those that wait, if any, which wakes it.
    pub(crate) fn call<R: Wait>(&self, rt: &R) {
        if self.words.shared.peek(WAITING) != 0 {
            self.call_one(rt);
        }
    }

    fn call_one<R: Wait>(&self, rt: &R) {
        let mut guest = self.come();
        if self.take_one(rt, &mut guest) {
            self.raise(rt, &mut guest);
            self.words.shared.wake_one(CALLS);
        }
        guest.leave();
    }

    // Whether there was one that waits, which the guest is to call now.
    fn take_one<R: Wait>(&self, rt: &R, guest: &mut Guest) -> bool
        requires { Stands self.now guest.old (Read guest.old.calls) }
        ensures { MatchBool result (Stands self.now guest.new Taken)
            (Stands self.now guest.new (Read guest.new.calls)) }
    {
        for _ in rt.forever() {
            let waiting = self.words.shared.peek(WAITING);
            if waiting == 0 {
                return false;
            }
            if self.try_take_one(guest, waiting) {
                return true;
            }
        }
        unreachable!()
    }

    // Adds the call of the one that the guest has taken away.
    fn raise<R: Wait>(&self, rt: &R, guest: &mut Guest)
        requires { Stands self.now guest.old Taken }
        ensures { Stands self.now guest.new Out }
    {
        for _ in rt.forever() {
            let calls = self.words.shared.peek(CALLS);
            if calls < u64::MAX && self.try_raise(guest, calls) {
                return;
            }
        }
        unreachable!()
    }
}
