// The hash by which texts are looked up.
use std::hash::{BuildHasher, FoldHasher, Hasher, RandomState};

// Each hasher begins in one state, which nobody knows who doesn't know the keys that it was made from.
#[derive(Clone, Copy)]
pub(crate) struct Seeded {
    start: FoldHasher,
}

impl Seeded {
    pub(crate) fn with_keys(keys: RandomState) -> Seeded {
        let mut start = FoldHasher::default();
        start.write(&keys.hash_one(0u64).to_le_bytes());
        Seeded { start }
    }
}

impl BuildHasher for Seeded {
    type Hasher = FoldHasher;

    ghost build_hasher = { λ s. s.start };

    fn build_hasher(&self) -> FoldHasher {
        self.start
    }
}
