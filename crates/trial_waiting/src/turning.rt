//! What a worker does at the desk: one step, since nobody else has it.
use crate::body::Body;
use crate::draws::Draws;
use crate::machine::Machine;
use crate::met::count;
use crate::worker::{After, At, Errand, Worker};
use scan_story::Phase;

impl Machine {
    pub(crate) fn turns(&mut self, me: Worker, draws: &mut Draws) -> Worker {
        match me.errand {
            Errand::Register => {
                self.story.register(me.query);
                leaves(me, After::Scans, At::Gives)
            }
            Errand::Turn => self.turns_once(me, draws),
            Errand::Release => {
                self.story.release(me.number);
                leaves(me, After::Scans, At::Gives)
            }
            Errand::Settle => {
                let fails = draws.one_in(self.rules.fails);
                self.story.settle(!fails);
                if fails {
                    count(&mut self.met.fails);
                }
                seeks(me, After::Turns)
            }
            Errand::Stop => {
                if !self.story.query(me.query).is_active() {
                    return leaves(me, After::Begins, At::Gives);
                }
                self.story.stop(me.query);
                count(&mut self.met.stops);
                seeks(me, After::Begins)
            }
        }
    }

    // A query with so many chunks to take is far behind.
    pub(crate) fn far(&self) -> u32 {
        let per_chunk = self.rules.per_chunk;
        if per_chunk == 0 {
            return 1;
        }
        (self.story.running() / per_chunk).max(1)
    }

    fn turns_once(&mut self, me: Worker, draws: &mut Draws) -> Worker {
        if self.story.is_hungry(me.query) && !self.story.query(me.query).needs.is_empty() {
            if self.story.load.is_some() {
                return leaves(me, After::Sleeps, At::CountsItself);
            }
            if !me.is_over && self.story.has_other(me.query, self.far()) {
                if self.far() > 1 {
                    count(&mut self.met.far);
                }
                let patient = Worker {
                    is_over: true,
                    ..me
                };
                return leaves(patient, After::Sleeps, At::CountsItself);
            }
        }
        let after = self.turn(me, draws);
        leaves(me, after, At::ReadsAsleep)
    }

    // A turn, and what its worker does after it.
    fn turn(&mut self, me: Worker, draws: &mut Draws) -> After {
        let query = self.story.query(me.query);
        if query.phase == Phase::Stopped {
            return After::Begins;
        }
        if query.needs.is_empty() {
            self.story.end(me.query);
            return After::Begins;
        }
        if self.story.deliver(me.number, me.query, draws.word()) {
            return After::Works;
        }
        if self.rules.body == Body::NeverLoads {
            return After::Turns;
        }
        self.story.plan(draws.word());
        if draws.one_in(self.rules.evicts) && self.story.evict(draws.word()) {
            count(&mut self.met.evictions);
        }
        After::Loads
    }
}

fn leaves(me: Worker, after: After, at: At) -> Worker {
    Worker { after, at, ..me }
}

// Looks who lies and may go on now that a load or a scan has ended.
fn seeks(me: Worker, after: After) -> Worker {
    Worker {
        after,
        at: At::SeeksFed(0),
        has_next: false,
        ..me
    }
}
