use crate::bell::WORKERS;
use crate::chunks::Chunks;
use crate::query::Query;
use scan_story::Phase;

// How many queries there may be. Their numbers are from 1.
pub(crate) const QUERIES: u32 = 8;

// The load underway.
#[derive(Clone, Copy)]
pub(crate) struct Load {
    pub(crate) query: u32,
    pub(crate) chunk: u32,
}

// What the desk tells: queries, chunks in frames, the load underway, and what each worker holds.
#[derive(Clone, Copy)]
pub(crate) struct Story {
    queries: [Query; 8],
    framed: Chunks,
    pub(crate) load: Option<Load>,
    held: [Option<u32>; 5],
}

impl Story {
    // No query needs anything or was begun, and the frames are empty.
    pub(crate) fn new() -> Story {
        let query = Query {
            worker: 0,
            phase: Phase::Ended,
            needs: Chunks::none(),
        };
        Story {
            queries: [query; 8],
            framed: Chunks::none(),
            load: None,
            held: [None; 5],
        }
    }

    pub(crate) fn query(&self, query: u32) -> Query {
        self.queries[(query % QUERIES) as usize]
    }

    pub(crate) fn put(&mut self, query: u32, value: Query) {
        self.queries[(query % QUERIES) as usize] = value;
    }

    fn to(&mut self, query: u32, phase: Phase) {
        self.queries[(query % QUERIES) as usize].phase = phase;
    }

    pub(crate) fn available(&self, query: u32) -> u32 {
        self.query(query).needs.shared(&self.framed)
    }

    pub(crate) fn running(&self) -> u32 {
        let mut count: u32 = 0;
        for q in 1..QUERIES + 1 {
            if self.query(q).is_active() {
                count = count.saturating_add(1);
            }
        }
        count
    }

    // Whether another query has so many chunks to take.
    pub(crate) fn has_other(&self, query: u32, chunks: u32) -> bool {
        (1..QUERIES + 1).any(|q| q != query
            && self.query(q).is_active()
            && self.available(q) >= chunks)
    }

    // Whether the query is active and has no chunk to take.
    pub(crate) fn is_hungry(&self, query: u32) -> bool {
        self.query(query).is_active() && self.available(query) == 0
    }

    fn is_starved(&self, query: u32) -> bool {
        self.query(query).is_active() && self.available(query) < 2
    }

    // The first query of this worker that isn't begun.
    pub(crate) fn first_of(&self, worker: u32) -> Option<u32> {
        (1..QUERIES + 1).find(|q| {
            let query = self.query(*q);
            query.worker == worker && query.phase == Phase::Waiting
        })
    }

    pub(crate) fn register(&mut self, query: u32) {
        self.to(query, Phase::Active);
    }

    pub(crate) fn end(&mut self, query: u32) {
        self.to(query, Phase::Ended);
    }

    // Stops the query where it is active.
    pub(crate) fn stop(&mut self, query: u32) {
        if self.query(query).is_active() {
            self.to(query, Phase::Stopped);
        }
    }

    // The worker takes the first chunk from this number on that is available to the query. Whether there is one.
    pub(crate) fn deliver(&mut self, worker: u32, query: u32, from: u32) -> bool {
        let mut taker = self.query(query);
        let Some(chunk) = taker.needs.among(&self.framed).first_from(from) else {
            return false;
        };
        taker.needs.take(chunk);
        self.put(query, taker);
        self.held[(worker % WORKERS) as usize] = Some(chunk);
        true
    }

    pub(crate) fn release(&mut self, worker: u32) {
        self.held[(worker % WORKERS) as usize] = None;
    }

    // Begins a load for the first starved query from this number on that lacks a chunk.
    pub(crate) fn plan(&mut self, from: u32) {
        for i in 0..QUERIES {
            let query = (from % QUERIES + i) % QUERIES + 1;
            let lacks = self.query(query).needs.without(&self.framed);
            if !self.is_starved(query) {
                continue;
            }
            if let Some(chunk) = lacks.first_from(from / QUERIES) {
                self.load = Some(Load { query, chunk });
                return;
            }
        }
    }

    // Evicts the first chunk from this number on that nobody holds and that is available to no starved query. Whether
    // there is one.
    pub(crate) fn evict(&mut self, from: u32) -> bool {
        let mut may = self.framed;
        for q in 1..QUERIES + 1 {
            if self.is_starved(q) {
                may = may.without(&self.query(q).needs);
            }
        }
        for held in self.held.iter() {
            if let Some(chunk) = held {
                may.take(*chunk);
            }
        }
        match may.first_from(from) {
            Some(chunk) => {
                self.framed.take(chunk);
                true
            }
            None => false,
        }
    }

    // The load ends well, and its chunk is in the frames; or it fails, which stops its query.
    pub(crate) fn settle(&mut self, is_well: bool) {
        if let Some(load) = self.load {
            self.load = None;
            if is_well {
                self.framed.put(load.chunk);
            } else {
                self.stop(load.query);
            }
        }
    }

    // Whether each query is over, nothing is held, and no load is underway.
    pub(crate) fn is_whole(&self) -> bool {
        self.load.is_none()
            && self.queries.iter().all(|query| query.is_over())
            && self.held.iter().all(|held| held.is_none())
    }
}
