use crate::bell::WORKERS;
use crate::body::Body;
use crate::chunks::{CHUNKS, Chunks};
use crate::draws::Draws;
use crate::machine::Machine;
use crate::met::Met;
use crate::query::Query;
use crate::rules::Rules;
use crate::story::{QUERIES, Story};
use scan_story::Phase;

// More steps than any schedule of the code takes.
const MOST: u32 = 20_000;

// What a schedule comes to.
#[derive(Clone, Copy, Debug, PartialEq, Eq)]
pub(crate) enum Outcome {
    // All is over, as it should be.
    Whole,
    // All is over, and something isn't as it should be.
    Broken,
    // Something is left to do, and nobody has a step to make.
    StandsStill,
    // Too many steps were made.
    GoesOn,
    // Somebody sleeps whom nobody would wake.
    Unseen,
    // A worker made a step out of order.
    OutOfOrder,
}

// The order in which workers go on: one goes on, and then another is drawn.
#[derive(Drop)]
pub(crate) struct Schedule {
    draws: Draws,
    // A worker is changed after one in so many steps.
    changes: u32,
    // How many sleeps may end by themselves.
    early: u32,
    machine: Machine,
}

impl Schedule {
    // A schedule of so many workers, and what they are to do: up to eight queries of one to six chunks each.
    pub(crate) fn new(seed: u64, workers: u32, body: Body) -> Schedule {
        let mut draws = Draws::new(seed);
        let rules = some_rules(&mut draws, body);
        let story = some_story(&mut draws, workers);
        Schedule {
            changes: draws.within(1, 4),
            early: draws.within(0, 3),
            draws,
            machine: Machine::new(rules, story),
        }
    }

    // The worker itself, or the first from another one on that has a step to make; at times another one is drawn.
    fn next(&mut self, worker: u32) -> Option<u32> {
        let word = self.draws.word();
        if word % self.changes.max(1) != 0 && self.machine.goes_on(worker) {
            return Some(worker);
        }
        let from = word / 8 % WORKERS;
        for i in 0..WORKERS {
            let other = (from + i) % WORKERS;
            if self.machine.goes_on(other) {
                return Some(other);
            }
        }
        None
    }

    // At times a sleep ends by itself.
    fn wake_early(&mut self) {
        if self.early > 0 && self.draws.one_in(32) {
            let worker = self.draws.word();
            if self.machine.wake(worker) {
                self.early -= 1;
            }
        }
    }

    // Plays it to its end; where it is watched, up to a step after which somebody sleeps unseen.
    pub(crate) fn play(&mut self, is_watched: bool) -> Outcome {
        let mut worker = 0;
        for _ in 0..MOST {
            let Some(next) = self.next(worker) else {
                return self.outcome();
            };
            worker = next;
            self.machine.step(worker, &mut self.draws);
            self.wake_early();
            if is_watched && !self.machine.all_are_seen() {
                return Outcome::Unseen;
            }
        }
        Outcome::GoesOn
    }

    // Plays it to its end, or up to a step that is out of order.
    pub(crate) fn play_in_order(&mut self) -> Outcome {
        let mut worker = 0;
        for _ in 0..MOST {
            let Some(next) = self.next(worker) else {
                return self.outcome();
            };
            worker = next;
            let before = self.machine;
            self.machine.step(worker, &mut self.draws);
            if !before.is_in_order(before.worker(worker), self.machine.worker(worker)) {
                return Outcome::OutOfOrder;
            }
            self.wake_early();
        }
        Outcome::GoesOn
    }

    // What it met.
    pub(crate) fn met(&self) -> Met {
        self.machine.met
    }

    // Nobody has a step to make.
    fn outcome(&self) -> Outcome {
        if self.machine.is_whole() {
            Outcome::Whole
        } else if self.machine.is_over() {
            Outcome::Broken
        } else {
            Outcome::StandsStill
        }
    }
}

fn some_rules(draws: &mut Draws, body: Body) -> Rules {
    Rules {
        body,
        per_chunk: [1, 2, 4][draws.within(0, 2) as usize % 3],
        fails: [0, 8][draws.within(0, 1) as usize % 2],
        evicts: [0, 1, 2][draws.within(0, 2) as usize % 3],
        stops: [0, 16][draws.within(0, 1) as usize % 2],
    }
}

// A query for each worker, and for some of them one more.
fn some_story(draws: &mut Draws, workers: u32) -> Story {
    let mut story = Story::new();
    let queries = draws.within(workers, QUERIES);
    let chunks = draws.within(1, CHUNKS);
    for q in 1..QUERIES + 1 {
        if q <= queries && workers > 0 {
            let query = Query {
                worker: q % workers,
                phase: Phase::Waiting,
                needs: some_chunks(draws, chunks),
            };
            story.put(q, query);
        }
    }
    story
}

// Some of the first so many chunks, and one at least.
fn some_chunks(draws: &mut Draws, chunks: u32) -> Chunks {
    let mut some = Chunks::none();
    some.put(draws.word() % chunks.max(1));
    for c in 0..chunks {
        if draws.one_in(2) {
            some.put(c);
        }
    }
    some
}
