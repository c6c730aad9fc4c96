//! The steps of a worker that lies down, sleeps at the bell, and gets up.
use crate::body::Body;
use crate::machine::Machine;
use crate::worker::{At, Errand, Worker};

impl Machine {
    pub(crate) fn lies(&mut self, me: Worker) -> Worker {
        let body = self.rules.body;
        match me.at {
            At::CountsItself => {
                self.bell.asleep = self.bell.asleep.wrapping_add(1);
                me.to(once_counted(body))
            }
            At::ReadsRings => Worker {
                rings: self.bell.rings(me.number),
                at: once_read(body),
                ..me
            },
            At::NotesQuery => {
                if body != Body::NotesNothing {
                    self.bell.note(me.number, me.query);
                }
                me.to(once_noted(body))
            }
            At::Rests if self.bell.rings(me.number) == me.rings => me.to(At::SleepsAtBell),
            At::Rests => me.to(At::GetsUp),
            At::GetsUp if self.bell.clear(me.number) => me.to(At::CountsOff),
            At::GetsUp => me.for_errand(Errand::Turn),
            _ => self.rings_for_itself(me),
        }
    }

    // Nobody has rung for it yet, and it counts that as a ring.
    fn rings_for_itself(&mut self, me: Worker) -> Worker {
        match me.at {
            At::CountsOff => {
                self.bell.asleep = self.bell.asleep.wrapping_sub(1);
                me.to(At::CountsOwnRings)
            }
            At::CountsOwnRings => {
                let counted = self.bell.rings(me.number);
                Worker { counted, ..me }.to(At::RaisesOwnRings)
            }
            _ => {
                self.bell.raise_above(me.number, me.counted);
                me.for_errand(Errand::Turn)
            }
        }
    }
}

fn once_counted(body: Body) -> At {
    match body {
        Body::NotesFirst | Body::ReadsRingsLate => At::NotesQuery,
        _ => At::ReadsRings,
    }
}

fn once_read(body: Body) -> At {
    match body {
        Body::NotesFirst => At::Gives,
        Body::ReadsRingsLate => At::Rests,
        _ => At::NotesQuery,
    }
}

fn once_noted(body: Body) -> At {
    match body {
        Body::NotesFirst => At::ReadsRings,
        Body::KeepsDesk => At::Rests,
        _ => At::Gives,
    }
}
