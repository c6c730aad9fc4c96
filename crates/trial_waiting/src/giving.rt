//! The steps of a worker that gives the desk back, and calls.
use crate::bell::WORKERS;
use crate::body::Body;
use crate::draws::Draws;
use crate::machine::Machine;
use crate::met::count;
use crate::worker::{At, Worker};

impl Machine {
    pub(crate) fn gives(&mut self, me: Worker, draws: &mut Draws) -> Worker {
        let body = self.rules.body;
        match me.at {
            At::Gives => {
                self.lobby.is_free = true;
                me.to(At::ReadsWaiting)
            }
            At::ReadsWaiting if self.lobby.waiting == 0 || body == Body::NeverCalls => {
                self.rings_next(me, draws)
            }
            At::ReadsWaiting => me.to(At::TakesOne),
            At::TakesOne if self.lobby.waiting == 0 => self.rings_next(me, draws),
            At::TakesOne => {
                self.lobby.waiting = self.lobby.waiting.wrapping_sub(1);
                if body == Body::TakesOneAway {
                    return self.rings_next(me, draws);
                }
                me.to(At::RaisesCalls)
            }
            At::RaisesCalls => {
                count(&mut self.met.calls);
                self.lobby.calls = self.lobby.calls.wrapping_add(1);
                me.to(At::WakesOne)
            }
            _ => {
                if body != Body::WakesNobody {
                    self.wake_in_lobby(draws.word());
                }
                self.rings_next(me, draws)
            }
        }
    }

    // Wakes the first from this number on that sleeps in the lobby, if any.
    fn wake_in_lobby(&mut self, from: u32) {
        for i in 0..WORKERS {
            let worker = (from % WORKERS + i) % WORKERS;
            if self.worker(worker).at == At::SleepsInLobby {
                self.wake(worker);
                return;
            }
        }
    }
}
