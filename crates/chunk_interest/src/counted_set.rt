//! A set of chunks with the number of its members.
ghost use Rattle.std.specs.Prelude.{◌≡◌, ◌<◌, ◌≤◌, ◌&&◌, ◌||◌, ◌==◌, ℕ, [], not, false, IfNone, IfSome};
ghost use Rattle.scan_story.specs.Counting.{has};
ghost use Rattle.table_sets.specs.Sets.{IsLeastFrom};
ghost use Rattle.chunk_interest.specs.Counted.{size_of};

use std::marker::Model;
use table_sets::ChunkSet;

/// A set of numbers below 1024 that keeps how many members it has.
#[derive(Drop)]
pub struct CountedSet {
    set: ChunkSet,
    size: u32,
}

impl Model for CountedSet {
    ghost use Rattle.std.specs.Prelude.{ℕ, List};
    ghost use Rattle.chunk_interest.specs.Counted.{IsCounted};

    ghost Value = { List ℕ };

    ghost view = { λ s. s.set };

    ghost invariant = { λ s. IsCounted s.set s.size };
}

impl CountedSet {
    /// The set without members.
    pub fn empty() -> CountedSet
        ensures { result ≡ [] }
    {
        CountedSet {
            set: ChunkSet::empty(),
            size: 0,
        }
    }

    /// A set, counted.
    #[tactic(auto, using(crate::proofs::Counting::members_size))]
    pub fn of(set: &ChunkSet) -> CountedSet
        ensures { result ≡ set.now }
    {
        let size = set.len();
        CountedSet {
            set: set.copy(),
            size,
        }
    }

    /// The same set once more.
    pub fn copy(&self) -> CountedSet
        ensures { result ≡ self.now }
    {
        CountedSet {
            set: self.set.copy(),
            size: self.size,
        }
    }

    /// How many members there are.
    pub fn size(&self) -> u32
        ensures size { result ≡ size_of self.now }
        ensures few { result ≤ 1024 }
    {
        self.size
    }

    /// Whether the number is a member.
    pub fn has(&self, c: u32) -> bool
        ensures { result ≡ has self.now c }
    {
        self.set.has(c)
    }

    /// Makes the number a member.
    pub fn insert(&mut self, c: u32)
        requires { c < 1024 }
        ensures { (x : ℕ) → has self.new x ≡ (has self.old x || x == c) }
    {
        if !self.set.has(c) {
            self.set.insert(c);
            self.size += 1;
        }
    }

    /// Makes the number no member.
    pub fn remove(&mut self, c: u32)
        requires { c < 1024 }
        ensures { (x : ℕ) → has self.new x ≡ (has self.old x && not (x == c)) }
    {
        if self.set.has(c) {
            self.set.remove(c);
            self.size -= 1;
        }
    }

    /// The members that aren't members of the other set.
    pub fn without(&self, other: &CountedSet) -> CountedSet
        ensures { (x : ℕ) → has result x ≡ (has self.now x && not (has other.now x)) }
    {
        let mut left = self.copy();
        let mut from = 0;
        while let Some(c) = other.least_from(from) {
            left.remove(c);
            from = c + 1;
        }
        left
    }

    /// The least member that is at least `c`; None where there is none.
    pub fn least_from(&self, c: u32) -> Option<u32>
        ensures none { IfNone result ((x : ℕ) → c ≤ x → has self.now x ≡ false) }
        ensures least { IfSome result (λ m. IsLeastFrom self.now c m) }
        ensures below { IfSome result (λ m. m < 1024) }
    {
        self.set.least_from(c)
    }
}
