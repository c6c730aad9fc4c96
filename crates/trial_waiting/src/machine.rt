use crate::bell::{Bell, WORKERS};
use crate::draws::Draws;
use crate::lobby::Lobby;
use crate::met::Met;
use crate::rules::Rules;
use crate::story::Story;
use crate::worker::{At, Errand, Worker};

// What the workers of a run share, and where each of them is. Whoever sleeps does so until it is woken.
#[derive(Clone, Copy)]
pub(crate) struct Machine {
    pub(crate) rules: Rules,
    pub(crate) story: Story,
    pub(crate) lobby: Lobby,
    pub(crate) bell: Bell,
    pub(crate) met: Met,
    workers: [Worker; 5],
}

impl Machine {
    pub(crate) fn new(rules: Rules, story: Story) -> Machine {
        Machine {
            rules,
            story,
            lobby: Lobby::new(),
            bell: Bell::new(),
            met: Met::new(),
            workers: [
                Worker::new(0),
                Worker::new(1),
                Worker::new(2),
                Worker::new(3),
                Worker::new(4),
            ],
        }
    }

    pub(crate) fn worker(&self, number: u32) -> Worker {
        self.workers[(number % WORKERS) as usize]
    }

    pub(crate) fn goes_on(&self, number: u32) -> bool {
        self.workers[(number % WORKERS) as usize].goes_on()
    }

    fn put(&mut self, worker: Worker) {
        self.workers[(worker.number % WORKERS) as usize] = worker;
    }

    // The worker makes its next step.
    pub(crate) fn step(&mut self, number: u32, draws: &mut Draws) {
        let me = self.worker(number);
        let next = match me.at {
            At::Begins => self.begins(me),
            At::Looks | At::ReadsCalls | At::Enters | At::LooksAgain | At::Parks => self.takes(me),
            At::Turns => self.turns(me, draws),
            At::CountsItself
            | At::ReadsRings
            | At::NotesQuery
            | At::Rests
            | At::GetsUp
            | At::CountsOff
            | At::CountsOwnRings
            | At::RaisesOwnRings => self.lies(me),
            At::ReadsAsleep | At::SeeksNext(_) | At::SeeksFed(_) => self.seeks(me),
            At::Gives | At::ReadsWaiting | At::TakesOne | At::RaisesCalls | At::WakesOne =>
                self.gives(me, draws),
            At::Clears(_)
            | At::CountsOther(_)
            | At::CountsRings(_)
            | At::RaisesRings(_)
            | At::Wakes(_) => self.rings(me, draws),
            At::SleepsInLobby | At::SleepsAtBell | At::Over => me,
        };
        self.put(next);
    }

    // Goes to the worker's next query, if any.
    fn begins(&self, me: Worker) -> Worker {
        match self.story.first_of(me.number) {
            None => me.to(At::Over),
            Some(query) => Worker { query, ..me }.for_errand(Errand::Register),
        }
    }

    // Ends a worker's sleep, if it sleeps. Whether it did.
    pub(crate) fn wake(&mut self, number: u32) -> bool {
        let sleeper = self.worker(number);
        match sleeper.at {
            At::SleepsInLobby => self.put(sleeper.to(At::Looks)),
            At::SleepsAtBell => self.put(sleeper.to(At::GetsUp)),
            _ => return false,
        }
        true
    }

    // Whether the queries of all workers are over.
    pub(crate) fn is_over(&self) -> bool {
        self.workers.iter().all(|worker| worker.at == At::Over)
    }

    // Whether all is over, as it should be.
    pub(crate) fn is_whole(&self) -> bool {
        self.is_over() && self.lobby.is_free && self.bell.is_empty() && self.story.is_whole()
    }
}
