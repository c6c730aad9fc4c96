// How many chunks there may be.
pub(crate) const CHUNKS: u32 = 6;

// Some chunks, by number.
#[derive(Clone, Copy)]
pub(crate) struct Chunks {
    has: [bool; 6],
}

impl Chunks {
    pub(crate) fn none() -> Chunks {
        Chunks { has: [false; 6] }
    }

    pub(crate) fn has(&self, chunk: u32) -> bool {
        self.has[(chunk % CHUNKS) as usize]
    }

    pub(crate) fn put(&mut self, chunk: u32) {
        self.has[(chunk % CHUNKS) as usize] = true;
    }

    pub(crate) fn take(&mut self, chunk: u32) {
        self.has[(chunk % CHUNKS) as usize] = false;
    }

    pub(crate) fn is_empty(&self) -> bool {
        self.has.iter().all(|is_in| !*is_in)
    }

    // Those that the others have too.
    pub(crate) fn among(&self, others: &Chunks) -> Chunks {
        let mut both = Chunks::none();
        for c in 0..CHUNKS {
            if self.has(c) && others.has(c) {
                both.put(c);
            }
        }
        both
    }

    // Those that the others lack.
    pub(crate) fn without(&self, others: &Chunks) -> Chunks {
        let mut rest = Chunks::none();
        for c in 0..CHUNKS {
            if self.has(c) && !others.has(c) {
                rest.put(c);
            }
        }
        rest
    }

    // How many the others have too.
    pub(crate) fn shared(&self, others: &Chunks) -> u32 {
        let mut count: u32 = 0;
        for c in 0..CHUNKS {
            if self.has(c) && others.has(c) {
                count = count.saturating_add(1);
            }
        }
        count
    }

    // The first from this number on, round all chunks.
    pub(crate) fn first_from(&self, from: u32) -> Option<u32> {
        for i in 0..CHUNKS {
            let chunk = (from % CHUNKS + i) % CHUNKS;
            if self.has(chunk) {
                return Some(chunk);
            }
        }
        None
    }
}
