use rand_core::Rng;
use rand_pcg::Pcg32;

// What is drawn from a seed.
#[derive(Drop)]
pub(crate) struct Draws {
    rng: Pcg32,
}

impl Draws {
    pub(crate) fn new(seed: u64) -> Draws {
        Draws {
            rng: Pcg32::new(seed, 54),
        }
    }

    // Any number.
    pub(crate) fn word(&mut self) -> u32 {
        self.rng.next_u32()
    }

    // One of so many cases; never where there is none.
    pub(crate) fn one_in(&mut self, cases: u32) -> bool {
        let word = self.rng.next_u32();
        cases > 0 && word % cases == 0
    }

    // A number from the first to the last.
    pub(crate) fn within(&mut self, first: u32, last: u32) -> u32 {
        let word = self.rng.next_u32();
        let more = last.saturating_sub(first);
        if more == 0 || more == u32::MAX {
            return first;
        }
        first.saturating_add(word % (more + 1))
    }
}
