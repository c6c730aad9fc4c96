//! The steps of a worker that asks for the desk.
use crate::body::Body;
use crate::machine::Machine;
use crate::worker::{At, Worker};

impl Machine {
    pub(crate) fn takes(&mut self, me: Worker) -> Worker {
        let body = self.rules.body;
        match me.at {
            At::Looks if self.lobby.take() => me.to(At::Turns),
            At::Looks => me.to(in_vain(body)),
            At::ReadsCalls => Worker {
                calls: self.lobby.calls,
                at: once_read(body),
                ..me
            },
            At::Enters => {
                self.lobby.waiting = self.lobby.waiting.wrapping_add(1);
                me.to(once_entered(body))
            }
            At::LooksAgain if self.lobby.take() => me.to(At::Turns),
            At::LooksAgain => me.to(once_looked(body)),
            At::Parks if self.lobby.calls == me.calls => me.to(At::SleepsInLobby),
            _ => me.to(At::Looks),
        }
    }
}

// After looks in vain.
fn in_vain(body: Body) -> At {
    match body {
        Body::AddsFirst | Body::ReadsCallsLate => At::Enters,
        _ => At::ReadsCalls,
    }
}

fn once_read(body: Body) -> At {
    match body {
        Body::AddsFirst => At::LooksAgain,
        Body::ReadsCallsLate => At::Parks,
        _ => At::Enters,
    }
}

fn once_entered(body: Body) -> At {
    match body {
        Body::AddsFirst => At::ReadsCalls,
        _ => At::LooksAgain,
    }
}

// After the last look, in vain.
fn once_looked(body: Body) -> At {
    match body {
        Body::ReadsCallsLate => At::ReadsCalls,
        _ => At::Parks,
    }
}
