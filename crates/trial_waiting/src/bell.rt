// How many workers there may be.
pub(crate) const WORKERS: u32 = 5;

// How often a worker was rung for, and the query that it sleeps for, 0 while it is awake.
#[derive(Clone, Copy)]
pub(crate) struct Place {
    pub(crate) rings: u32,
    pub(crate) query: u32,
}

// A place for each worker, and how many are taken.
#[derive(Clone, Copy)]
pub(crate) struct Bell {
    places: [Place; 5],
    pub(crate) asleep: u32,
}

impl Bell {
    pub(crate) fn new() -> Bell {
        let empty = Place { rings: 0, query: 0 };
        Bell {
            places: [empty; 5],
            asleep: 0,
        }
    }

    pub(crate) fn rings(&self, worker: u32) -> u32 {
        self.places[(worker % WORKERS) as usize].rings
    }

    // The query that the worker sleeps for, or 0.
    pub(crate) fn query(&self, worker: u32) -> u32 {
        self.places[(worker % WORKERS) as usize].query
    }

    pub(crate) fn note(&mut self, worker: u32, query: u32) {
        self.places[(worker % WORKERS) as usize].query = query;
    }

    // Empties the worker's place. Whether it was taken.
    pub(crate) fn clear(&mut self, worker: u32) -> bool {
        let was = self.query(worker);
        self.note(worker, 0);
        was != 0
    }

    // The worker's rings become more than so many, and no fewer than they are.
    pub(crate) fn raise_above(&mut self, worker: u32, counted: u32) {
        let rings = self.rings(worker);
        self.places[(worker % WORKERS) as usize].rings = rings.max(counted.wrapping_add(1));
    }

    // Whether no place is taken, and none is counted.
    pub(crate) fn is_empty(&self) -> bool {
        self.asleep == 0 && (0..WORKERS).all(|w| self.query(w) == 0)
    }
}
