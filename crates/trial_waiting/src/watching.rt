//! That whoever sleeps is seen, or its call or its ring is on its way.
use crate::bell::WORKERS;
use crate::machine::Machine;
use crate::worker::{At, Worker};

impl Machine {
    pub(crate) fn all_are_seen(&self) -> bool {
        self.lobby_is_seen() && self.bell_is_seen()
    }

    // How many workers are there.
    fn are_at(&self, at: At) -> u64 {
        (0..WORKERS).filter(|w| self.worker(*w).at == at).count() as u64
    }

    // Whether the worker was added to `waiting`, and nobody was called since.
    fn is_fresh(&self, worker: Worker) -> bool {
        matches!(worker.at, At::LooksAgain | At::Parks | At::SleepsInLobby)
            && worker.calls == self.lobby.calls
    }

    // No more are fresh than `waiting` and the calls that took one away and are to raise the count; and no more are so
    // or sleep than these and the calls that are to wake one.
    fn lobby_is_seen(&self) -> bool {
        let fresh = (0..WORKERS)
            .filter(|w| self.is_fresh(self.worker(*w)))
            .count() as u64;
        let late = (0..WORKERS)
            .filter(|w| {
                let worker = self.worker(*w);
                worker.at == At::SleepsInLobby && !self.is_fresh(worker)
            })
            .count() as u64;
        let counted = u64::from(self.lobby.waiting).saturating_add(self.are_at(At::RaisesCalls));
        let on_their_way = counted.saturating_add(self.are_at(At::WakesOne));
        fresh <= counted && fresh.saturating_add(late) <= on_their_way
    }

    // Whoever sleeps is in its place, or is rung for; and no more places are taken than are counted.
    fn bell_is_seen(&self) -> bool {
        let taken = (0..WORKERS).filter(|w| self.bell.query(*w) != 0).count() as u64;
        taken <= u64::from(self.bell.asleep)
            && (0..WORKERS).all(|w| self.sleeper_is_seen(self.worker(w)))
    }

    // Whether somebody is to raise the sleeper's rings, and read no fewer of them than the sleeper.
    fn will_raise(&self, sleeper: Worker) -> bool {
        (0..WORKERS).any(|w| {
            let ringer = self.worker(w);
            ringer.at == At::RaisesRings(sleeper.number) && ringer.counted >= sleeper.rings
        })
    }

    fn sleeper_is_seen(&self, sleeper: Worker) -> bool {
        let number = sleeper.number;
        if sleeper.at != At::SleepsAtBell {
            return true;
        }
        if sleeper.rings != self.bell.rings(number) {
            return self.are_at(At::Wakes(number)) > 0;
        }
        self.bell.query(number) != 0
            || self.are_at(At::CountsOther(number)) > 0
            || self.are_at(At::CountsRings(number)) > 0
            || self.will_raise(sleeper)
    }
}
