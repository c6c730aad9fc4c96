//! The steps of a worker that looks who lies, and of one that rings.
use crate::bell::WORKERS;
use crate::body::Body;
use crate::draws::Draws;
use crate::machine::Machine;
use crate::met::count;
use crate::worker::{After, At, Errand, Worker};

impl Machine {
    // Looks, with the desk, for whom to ring: one after a turn, and after a load all that are fed and one besides.
    pub(crate) fn seeks(&self, me: Worker) -> Worker {
        match me.at {
            At::ReadsAsleep if self.rings_for_none(me) => me.to(At::Gives),
            At::ReadsAsleep => me.to(At::SeeksNext(0)),
            At::SeeksNext(other) => self.seeks_next(me, other),
            At::SeeksFed(other) => self.seeks_fed(me, other),
            _ => me,
        }
    }

    // Whether a turn's worker needn't look who lies.
    fn rings_for_none(&self, me: Worker) -> bool {
        self.bell.asleep == 0
            || self.story.load.is_some()
            || self.story.has_other(me.query, self.far() / 2 + 1)
            || self.rules.body == Body::TurnsInSilence
    }

    fn seeks_next(&self, me: Worker, other: u32) -> Worker {
        if self.bell.query(other) != 0 {
            return me.with(other).to(At::Gives);
        }
        if other < WORKERS - 1 {
            return me.to(At::SeeksNext(other + 1));
        }
        me.to(At::Gives)
    }

    fn seeks_fed(&self, me: Worker, other: u32) -> Worker {
        let found = self.finds(me, other);
        if other < WORKERS - 1 {
            return found.to(At::SeeksFed(other + 1));
        }
        found.to(At::Gives)
    }

    // The other is to be woken where it lies and may go on, or is the first of those that are to load next.
    fn finds(&self, me: Worker, other: u32) -> Worker {
        let query = self.bell.query(other);
        let is_hungry = self.story.is_hungry(query);
        if query == 0 || (is_hungry && me.has_next) || self.rules.body == Body::EndsInSilence {
            return me;
        }
        let has_next = me.has_next || is_hungry;
        Worker { has_next, ..me }.with(other)
    }

    // Goes to the next that is to be woken, or else on.
    pub(crate) fn rings_next(&self, me: Worker, draws: &mut Draws) -> Worker {
        match me.next_to_wake() {
            Some(other) => me.to(At::Clears(other)),
            None => self.goes_on_after(me, draws),
        }
    }

    // What a worker does that has given the desk back and rung.
    fn goes_on_after(&self, me: Worker, draws: &mut Draws) -> Worker {
        let fresh = Worker {
            is_over: false,
            ..me
        };
        match me.after {
            After::Begins => me.to(At::Begins),
            After::Scans if draws.one_in(self.rules.stops) => fresh.for_errand(Errand::Stop),
            After::Scans | After::Turns => fresh.for_errand(Errand::Turn),
            After::Works => me.for_errand(Errand::Release),
            After::Loads => me.for_errand(Errand::Settle),
            After::Sleeps if self.rules.body == Body::ReadsRingsLate => me.to(At::ReadsRings),
            After::Sleeps => me.to(At::Rests),
        }
    }

    // For whom it rings that is to ring for the other.
    fn rung(&self, other: u32) -> u32 {
        if self.rules.body == Body::RingsForAnother {
            return (other % WORKERS + 1) % WORKERS;
        }
        other
    }

    // Rings for the other.
    pub(crate) fn rings(&mut self, me: Worker, draws: &mut Draws) -> Worker {
        match me.at {
            At::Clears(other) => {
                let rung = self.rung(other);
                if self.bell.clear(rung) {
                    return me.to(At::CountsOther(other));
                }
                me.to(At::CountsRings(other))
            }
            At::CountsOther(other) => {
                self.bell.asleep = self.bell.asleep.wrapping_sub(1);
                me.to(At::CountsRings(other))
            }
            At::CountsRings(other) => {
                let counted = self.bell.rings(self.rung(other));
                Worker { counted, ..me }.to(At::RaisesRings(other))
            }
            At::RaisesRings(other) => {
                let rung = self.rung(other);
                self.bell.raise_above(rung, me.counted);
                count(&mut self.met.rings);
                me.to(At::Wakes(other))
            }
            At::Wakes(other) => {
                let rung = self.rung(other);
                self.wake_at_bell(rung);
                let rung_for = me.without(other);
                self.rings_next(rung_for, draws)
            }
            _ => me,
        }
    }

    fn wake_at_bell(&mut self, worker: u32) {
        if self.worker(worker).at == At::SleepsAtBell {
            self.wake(worker);
        }
    }
}
